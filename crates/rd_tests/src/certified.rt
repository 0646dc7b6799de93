//! What `certify` says of objects, and how the image of a guarded one stands.
//!
//! The objects are files of one function, put together here by hand. Where the word on the stack is
//! followed as it is, or a branch leads over the guard, the rule that fails is named.

use rd_io::memory::{File, MemFiles, MemSink, MemSource};
use rd_io::sure::SureSink;
use rd_num::bytes::put_u32_le;
use rd_num::copied::copy_list;
use rd_num::list::List;
use rd_num::width::NoMemory;
use rd_top::top;
use std::alloc::{AllocError, Global};
use std::test::Fail;

/// The guard among one slot.
#[rattlefmt::skip]
const GUARD: [u8; 53] = [
    0x4D, 0x89, 0xDA, 0x49, 0x81, 0xEA, 0, 0, 0, 0x10,
    0x49, 0x81, 0xFA, 0x10, 0, 0, 0, 0x0F, 0x82, 2, 0, 0, 0, 0x0F, 0x0B,
    0x49, 0x81, 0xE2, 0x0F, 0, 0, 0, 0x0F, 0x84, 0x0F, 0, 0, 0,
    0x49, 0x81, 0xFA, 5, 0, 0, 0, 0x0F, 0x84, 2, 0, 0, 0, 0x0F, 0x0B,
];

/// Pushes a word that is no slot's address, and takes it back into r11.
const FRONT: [u8; 8] = [0xB8, 0, 0, 0, 0x40, 0x50, 0x41, 0x5B];

/// `jmp r11`.
const JUMP: [u8; 3] = [0x41, 0xFF, 0xE3];

/// The file of an object of one function, which is its entry; the function's code in parts.
fn object(alloc: Global, parts: [&[u8]; 3]) -> Result<List<u8>, NoMemory> {
    let mut code = List::new(alloc);
    for part in parts {
        code.append(part)?;
    }
    let mut file = List::new(alloc);
    file.append(b"RDO1")?;
    file.append(&[1, 0, 0, 0, 0, 0, 0, 0, 0, 0, 0, 0, 0, 0, 0, 0, 0, 0, 0, 0])?;
    file.append(&[1, 0, 0, 0, 1, 0, 0, 0, 0, 0, 0, 0, 0, 0, 0, 0, 0, 0, 0, 0])?;
    file.append(&put_u32_le((code.len() % 256) as u32))?;
    file.append(&[0, 0, 0, 0])?;
    file.append(code.as_slice())?;
    file.append(&[0, 0, 0, 0, 0, 0, 0, 0, 0, 0, 0, 0, 0, 0, 0, 0])?;
    Ok(file)
}

/// The file `m`.
fn one_file(alloc: Global, content: &[u8]) -> Result<List<File>, NoMemory> {
    let mut files = List::new(alloc);
    let name = copy_list(alloc, b"m")?;
    let bytes = copy_list(alloc, content)?;
    files.add(File { name, bytes })?;
    Ok(files)
}

fn all_words(alloc: Global, words: &[&str]) -> Result<Vec<String>, AllocError> {
    let mut all = Vec::new(alloc);
    for word in words {
        let mut one = String::new(alloc);
        one.push_str(word)?;
        all.push(one)?;
    }
    Ok(all)
}

/// What a run of the program left.
#[derive(Drop)]
struct Left {
    status: u8,
    out: List<u8>,
    said: List<u8>,
}

/// A run with this content in the file `m`, where these calls of the output fail.
fn run(alloc: Global, words: &[&str], content: &[u8], fails: List<u64>) -> Result<Left, Fail> {
    let all = all_words(alloc, words)?;
    let mut files = MemFiles::new(one_file(alloc, content)?, List::new(alloc));
    let mut input = MemSource::new(List::new(alloc), List::new(alloc));
    let mut out = MemSink::new(alloc, fails);
    let mut err = SureSink::new(alloc);
    let status = top(
        alloc,
        all.as_slice(),
        &mut files,
        &mut input,
        &mut out,
        &mut err,
    );
    let out = copy_list(alloc, out.bytes().as_slice())?;
    let said = copy_list(alloc, err.bytes().as_slice())?;
    Ok(Left { status, out, said })
}

/// Whether the program says this of the file `m`, and writes nothing.
fn says(alloc: Global, content: &[u8], status: u8, line: &[u8]) -> Result<bool, Fail> {
    let left = run(alloc, &["certify", "m"], content, List::new(alloc))?;
    Ok(left.status == status && left.said.as_slice() == line && left.out.is_empty())
}

#[test]
fn objects_have_these_lines(rt: HostRuntime) -> Result<(), Fail> {
    let alloc = rt.alloc();
    let rows: [([&[u8]; 3], u8, &[u8]); 6] = [
        ([&FRONT[..6], &[0xC3], &[]], 24, b"guard 1 function 0 6\n"),
        ([&FRONT, &GUARD, &JUMP], 0, b"guarded\n"),
        ([&FRONT, &[], &JUMP], 24, b"guard 2 function 0 8\n"),
        (
            [&[0xE9, 0x35, 0, 0, 0], &GUARD, &JUMP],
            24,
            b"guard 3 function 0 0\n",
        ),
        ([&[0x0F, 0x0B], &[], &[]], 0, b"guarded\n"),
        ([&[0x90], &[], &[]], 5, b"shape 5 function 0 0\n"),
    ];
    for (parts, status, line) in rows {
        let content = object(alloc, parts)?;
        assert!(rt; says(alloc, content.as_slice(), status, line)?);
    }
    assert!(rt; says(alloc, b"object", 5, b"form 0\n")?);
    Ok(())
}

#[test]
fn a_guarded_object_stops_before_a_word_that_leads_astray(rt: HostRuntime) -> Result<(), Fail> {
    let alloc = rt.alloc();
    let content = object(alloc, [&FRONT, &GUARD, &JUMP])?;
    let lay = ["lay", "m", "--layout-seed", "7"];
    let laid = run(alloc, &lay, content.as_slice(), List::new(alloc))?;
    assert_eq!(rt; laid.status, 0);
    let rows: [(&str, u8, &[u8]); 2] = [("8", 21, b"going\n"), ("9", 20, b"trapped invalid\n")];
    for (steps, status, line) in rows {
        let words = ["run", "m", "--steps", steps];
        let left = run(alloc, &words, laid.out.as_slice(), List::new(alloc))?;
        assert_eq!(rt; left.status, status);
        assert!(rt; left.said.as_slice() == line);
    }
    Ok(())
}

#[test]
fn an_output_that_fails_is_not_asked(rt: HostRuntime) -> Result<(), Fail> {
    let alloc = rt.alloc();
    let content = object(alloc, [&FRONT, &GUARD, &JUMP])?;
    let mut first = List::new(alloc);
    first.add(1)?;
    let left = run(alloc, &["certify", "m"], content.as_slice(), first)?;
    assert_eq!(rt; left.status, 0);
    Ok(())
}
