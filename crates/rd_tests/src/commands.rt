//! The top call over files and streams in memory: words, texts, and an outside that fails.

use elf_file::read::read;
use rd_io::memory::{File, MemFiles, MemSink};
use rd_io::sure::{CountSink, SureFiles, SureSink, SureSource};
use rd_io::{Files, Sink};
use rd_num::copied::copy_list;
use rd_num::list::List;
use rd_num::width::NoMemory;
use rd_top::top;
use std::alloc::{AllocError, Global};
use std::test::Fail;
use x86_core::image::MachOutcome;
use xom_machine::machine::Machine;

const SEVEN: &[u8] = b"define i32 @main() {\nret i32 7\n}\n";

const ASKED: &[&str] = &["compile", "m", "--slot-seed", "1", "--reg-seed", "2"];

fn all_words(alloc: Global, words: &[&str]) -> Result<Vec<String>, AllocError> {
    let mut all = Vec::new(alloc);
    for word in words {
        let mut one = String::new(alloc);
        one.push_str(word)?;
        all.push(one)?;
    }
    Ok(all)
}

/// The file `m`.
fn one_file(alloc: Global, content: &[u8]) -> Result<List<File>, NoMemory> {
    let mut files = List::new(alloc);
    let name = copy_list(alloc, b"m")?;
    let bytes = copy_list(alloc, content)?;
    files.add(File { name, bytes })?;
    Ok(files)
}

/// The status that the program ends with over these.
fn ends<F: Files, O: Sink>(
    alloc: Global,
    words: &[&str],
    files: &mut F,
    out: &mut O,
) -> Result<u8, AllocError> {
    let all = all_words(alloc, words)?;
    let mut input = SureSource::new(List::new(alloc));
    let mut err = SureSink::new(alloc);
    Ok(top(alloc, all.as_slice(), files, &mut input, out, &mut err))
}

/// What a run of the program left.
#[derive(Drop)]
struct Left {
    status: u8,
    out: List<u8>,
    said: List<u8>,
}

/// A run over an outside that never fails, with this content in the file `m`.
fn run_surely(alloc: Global, words: &[&str], content: &[u8]) -> Result<Left, Fail> {
    let all = all_words(alloc, words)?;
    let mut files = SureFiles::new(one_file(alloc, content)?);
    let mut input = SureSource::new(List::new(alloc));
    let mut out = SureSink::new(alloc);
    let mut err = SureSink::new(alloc);
    let status = top(
        alloc,
        all.as_slice(),
        &mut files,
        &mut input,
        &mut out,
        &mut err,
    );
    let out = copy_list(alloc, out.bytes().as_slice())?;
    let said = copy_list(alloc, err.bytes().as_slice())?;
    Ok(Left { status, out, said })
}

/// The status over an outside that never fails, and how many bytes came out.
fn ends_surely(alloc: Global, words: &[&str], content: &[u8]) -> Result<(u8, usize), Fail> {
    let left = run_surely(alloc, words, content)?;
    Ok((left.status, left.out.len()))
}

#[test]
fn words_have_these_statuses(rt: HostRuntime) -> Result<(), Fail> {
    let rows: [(&[&str], u8); 25] = [
        (ASKED, 0),
        (&["gen", "--number", "4000"], 0),
        (&["gen", "--number", "4001"], 2),
        (&["gen", "--number", "0"], 2),
        (&["gen", "m", "--number", "1"], 2),
        (&["print", "m", "m"], 2),
        (&["check", "--", "m"], 2),
        (&["show", "m", "--steps", "1"], 6),
        (&["show", "m", "--layout-seed", "1"], 2),
        (&["watch", "m", "--script", "m"], 6),
        (&["watch", "m", "--script", "-m"], 2),
        (&["run", "m", "--steps", "-1"], 2),
        (&["lay", "m", "--steps", "1"], 2),
        (
            &[
                "build",
                "m",
                "--slot-seed",
                "1",
                "--reg-seed",
                "2",
                "--steps",
                "3",
            ],
            2,
        ),
        (&["run", "m", "1", "--steps"], 2),
        (&[], 2),
        (&["compile"], 2),
        (&["compose", "m", "--slot-seed", "1", "--reg-seed", "2"], 2),
        (&["compile", "-m", "--slot-seed", "1", "--reg-seed", "2"], 2),
        (&["compile", "--reg-seed=1", "m", "--slot-seed", "2"], 0),
        (&["compile", "m", "--slot-seed", "", "--reg-seed", "2"], 2),
        (&["compile", "m", "--slot-seed", "+1", "--reg-seed", "2"], 2),
        (
            &[
                "compile",
                "m",
                "--slot-seed",
                "18446744073709551615",
                "--reg-seed",
                "2",
            ],
            0,
        ),
        (
            &[
                "compile",
                "m",
                "--slot-seed",
                "18446744073709551616",
                "--reg-seed",
                "2",
            ],
            2,
        ),
        (
            &[
                "compile",
                "m",
                "--slot-seed",
                "1",
                "--reg-seed",
                "000000000000000000002",
            ],
            2,
        ),
    ];
    for (words, want) in rows {
        let (status, written) = ends_surely(rt.alloc(), words, SEVEN)?;
        assert_eq!(rt; status, want);
        assert_eq!(rt; written == 0, want != 0);
    }
    Ok(())
}

#[test]
fn texts_have_these_lines(rt: HostRuntime) -> Result<(), Fail> {
    let rows: [(&[u8], &[u8]); 16] = [
        (SEVEN, b""),
        (b"", b"no main\n"),
        (b"define i32 @main() { ret i32 -2147483648 }", b""),
        (
            b"define i32 @main() { ret i32 -2147483649 }",
            b"type inst 0 0 0\n",
        ),
        (b"define i32 @main() { ret i32 4294967295 }", b""),
        (
            b"define i32 @main() { ret i32 4294967296 }",
            b"type inst 0 0 0\n",
        ),
        (b"define i32 @main() {\tret i32 7 } ; seven", b""),
        (b"define i64 @main() { ret i64 7 }", b"no main\n"),
        (
            b"define i32 @main() { %a = add nuw i32 1, 2 ret i32 %a }",
            b"",
        ),
        (b"define i32 @main() { %a = sdiv i32 1, 2 ret i32 %a }", b""),
        (b"define i32 @main() { %a = add i32 %a, 2 ret i32 %a }", b""),
        (
            b"define i32 @main() { %a = add i32 1, 2 ret i32 %b }",
            b"unknown %b\n",
        ),
        (b"define i32 @main() { ret i32 7", b"grammar 30\n"),
        (b"define i32 @main() { ret i32 7, }", b"grammar 32\n"),
        (
            b"define double @main() { ret double 7 }",
            b"unsupported 7 double\n",
        ),
        (b"define i32 @main() { ret i32 7 } ?", b"lex 33\n"),
    ];
    for (text, line) in rows {
        let left = run_surely(rt.alloc(), ASKED, text)?;
        assert_eq!(rt; left.said.as_slice() == line, true);
        assert_eq!(rt; left.status == 0, line.is_empty());
        assert_eq!(rt; left.out.is_empty(), !line.is_empty());
    }
    Ok(())
}

/// Texts, and what `check` says of them: each refusal, and of two the earlier one.
const CHECKED: [(&[u8], &[u8]); 20] = [
    (SEVEN, b"valid\n"),
    (
        b"declare i32 @f(i32, i32, i32, i32, i32, i32, i32) define i32 @main() { ret i32 7 }",
        b"valid\n",
    ),
    (
        b"define i32 @main() { e: br i1 true, label %a, label %b a: %x = add i32 1, 2 br label %c
          b: br label %c c: ret i32 %x }",
        b"valid\n",
    ),
    (
        b"define i32 @main() { e: ret i32 0 d: ret i32 %x u: %x = add i32 1, 2 br label %d }",
        b"valid\n",
    ),
    (
        b"define i32 @main() { %a = add i32 1, 2 %a = add i32 1, %b ret i32 %a }",
        b"doubled %a\n",
    ),
    (
        b"@f = global i32 0 define void @f() { ret void }",
        b"doubled @f\n",
    ),
    (b"%t = type { i32 } %t = type { i8 }", b"doubled %t\n"),
    (
        b"%t = type { i32, %u } define i32 @main() { ret i32 %b }",
        b"unknown %u\n",
    ),
    (
        b"define i32 @main() { e: br label %x x: ret i32 %e }",
        b"unknown %e\n",
    ),
    (
        b"%t = type { i32, %t } @p = global ptr @exit declare void @exit(i32)",
        b"limit nesting 65\n",
    ),
    (
        b"%t = type { [67108865 x i8] } define i32 @main() { ret i32 0 }",
        b"limit size 67108865\n",
    ),
    (
        b"declare i32 @f(i32, i32, i32, i32, i32, i32, i32, i32, i32, i32, i32, i32, i32, i32, i32,
          i32, i32, i32, i32, i32, i32, i32, i32, i32, i32, i32, i32, i32, i32, i32, i32, i32, i32)",
        b"limit parameters 33\n",
    ),
    (
        b"@p = global ptr @exit declare void @exit(i32)",
        b"external @exit\n",
    ),
    (
        b"declare i32 @puts(ptr) define i32 @main() { %a = call i32 @puts(ptr null) ret i32 %a }",
        b"external @puts\n",
    ),
    (
        b"define void @llvm.x() { ret void } define i32 @main() { ret i32 0 }",
        b"external @llvm.x\n",
    ),
    (b"define i64 @main() { ret i32 7 }", b"no main\n"),
    (
        b"declare { i32 } @f() define i32 @main() { ret i32 7 }",
        b"type extern 0\n",
    ),
    (
        b"@g = global i8 256 define i32 @main() { ret i64 7 }",
        b"type global 0\n",
    ),
    (
        b"define { i8 } @f() { unreachable } define i32 @main() { ret i32 7 }",
        b"type function 0\n",
    ),
    (
        b"define void @f() { ret void } define i32 @main() { e: br label %x x: %a = add i8 1, 2
          ret i32 %a }",
        b"type inst 1 1 1\n",
    ),
];

#[test]
fn modules_are_checked_to_these_lines(rt: HostRuntime) -> Result<(), Fail> {
    for (text, line) in CHECKED {
        let left = run_surely(rt.alloc(), &["check", "m"], text)?;
        assert!(rt; left.said.as_slice() == line);
        assert_eq!(rt; left.status == 0, line == b"valid\n".as_slice());
        assert!(rt; left.out.is_empty());
    }
    let printed = run_surely(rt.alloc(), &["print", "m"], SEVEN)?;
    assert_eq!(rt; printed.status, 0);
    assert!(rt; printed.out.as_slice() == b"define i32 @main() {\n0:\n  ret i32 7\n}\n".as_slice());
    Ok(())
}

/// Numbers of functions, and the first sixteen letters that their modules print, which repeat.
const GENERATED: [(&str, &[u8]); 2] = [("1", b"BEHKNADGJMPCFILO"), ("2", b"JJFFBBFFJJFFBBFF")];

#[test]
fn generated_modules_are_canonical_and_print_these(rt: HostRuntime) -> Result<(), Fail> {
    for (number, letters) in GENERATED {
        let text = run_surely(rt.alloc(), &["gen", "--number", number], b"")?;
        assert_eq!(rt; text.status, 0);
        let printed = run_surely(rt.alloc(), &["print", "m"], text.out.as_slice())?;
        assert!(rt; printed.out.as_slice() == text.out.as_slice());
        let ran = run_surely(
            rt.alloc(),
            &["eval", "m", "--steps", "10000"],
            text.out.as_slice(),
        )?;
        assert!(rt; ran.said.as_slice() == b"ended 0\n".as_slice());
        assert_eq!(rt; ran.out.len(), 100);
        for (i, letter) in ran.out.as_slice().iter().enumerate() {
            assert_eq!(rt; *letter, letters[i % 16]);
        }
    }
    Ok(())
}

/// The text of `main` with this many instructions.
fn rows_of(alloc: Global, count: u64) -> Result<String, AllocError> {
    let mut text = String::new(alloc);
    text.push_str("define i32 @main() {\n%v0 = mul i32 3, 5\n")?;
    for i in 1..count {
        let before = i - 1;
        text.push_str(&format!(in alloc; "%v{i} = sub i32 %v{before}, -1\n")?)?;
    }
    text.push_str("ret i32 %v0\n}\n")?;
    Ok(text)
}

#[test]
fn as_many_instructions_and_bytes_as_fit(rt: HostRuntime) -> Result<(), Fail> {
    let alloc = rt.alloc();
    for (count, want) in [(4080, 0), (4081, 4)] {
        let text = rows_of(alloc, count)?;
        let (status, _) = ends_surely(alloc, ASKED, text.as_bytes())?;
        assert_eq!(rt; status, want);
    }
    let mut spaces = Vec::new(alloc);
    spaces.resize(8_388_609, b' ')?;
    let (long, _) = ends_surely(alloc, ASKED, spaces.as_slice())?;
    assert_eq!(rt; long, 8);
    let (full, _) = ends_surely(alloc, ASKED, &spaces[1..])?;
    assert_eq!(rt; full, 4);
    Ok(())
}

/// The headers of an image whose code stands at 0x10000000, up to the code's length.
#[rattlefmt::skip]
const HEADERS: [u8; 96] = [
    0x7F, 0x45, 0x4C, 0x46, 2, 1, 1, 0,
    0, 0, 0, 0, 0, 0, 0, 0,
    2, 0, 0x3E, 0, 1, 0, 0, 0,
    0, 0, 0, 0x10, 0, 0, 0, 0,
    0x40, 0, 0, 0, 0, 0, 0, 0,
    0, 0, 0, 0, 0, 0, 0, 0,
    0, 0, 0, 0, 0x40, 0, 0x38, 0,
    1, 0, 0, 0, 0, 0, 0, 0,
    1, 0, 0, 0, 1, 0, 0, 0,
    0, 0x10, 0, 0, 0, 0, 0, 0,
    0, 0, 0, 0x10, 0, 0, 0, 0,
    0, 0, 0, 0x10, 0, 0, 0, 0,
];

/// The file of an image with this code and nothing else.
fn image_of(alloc: Global, code: &[u8]) -> Result<Vec<u8>, AllocError> {
    let size = [(code.len() % 256) as u8, 0, 0, 0, 0, 0, 0, 0];
    let mut file = Vec::new(alloc);
    file.extend_from_slice(&HEADERS)?;
    file.extend_from_slice(&size)?;
    file.extend_from_slice(&size)?;
    file.extend_from_slice(&[0, 0x10, 0, 0, 0, 0, 0, 0])?;
    file.resize(4096, 0)?;
    file.extend_from_slice(code)?;
    Ok(file)
}

#[test]
fn images_run_to_these_lines(rt: HostRuntime) -> Result<(), Fail> {
    let alloc = rt.alloc();
    let rows: [(&[u8], &str, u8, &[u8]); 10] = [
        (
            b"\xBF\x2C\0\0\0\xB8\x3C\0\0\0\x0F\x05",
            "3",
            0,
            b"ended 44\n",
        ),
        (b"\xBF\x2C\0\0\0\xB8\x3C\0\0\0\x0F\x05", "2", 21, b"going\n"),
        (b"\x0F\x0B", "0", 21, b"going\n"),
        (
            b"\x0F\x0B",
            "18446744073709551615",
            20,
            b"trapped invalid\n",
        ),
        (b"\xCC", "1", 20, b"trapped breakpoint\n"),
        (b"\x90", "9", 22, b"stopped pagefault\n"),
        (b"\xC3", "9", 22, b"stopped pagefault\n"),
        (b"\x06", "9", 22, b"stopped noform\n"),
        (b"\xB8\x63\0\0\0\x0F\x05", "9", 22, b"stopped badcall\n"),
        (
            b"\x48\x0F\xAF\xC0\x0F\x84\0\0\0\0",
            "9",
            22,
            b"stopped noflag\n",
        ),
    ];
    for (code, steps, want, line) in rows {
        let file = image_of(alloc, code)?;
        let left = run_surely(alloc, &["run", "m", "--steps", steps], file.as_slice())?;
        assert_eq!(rt; left.status, want);
        assert!(rt; left.said.as_slice() == line);
    }
    let (refused, _) = ends_surely(alloc, &["run", "m", "--steps", "1"], SEVEN)?;
    assert_eq!(rt; refused, 6);
    Ok(())
}

const SQUARE: &[u8] =
    b"define i32 @main() { %a = add i32 40, 2 %b = mul i32 %a, %a %c = sub i32 %b, 1 ret i32 %c }";

/// How the object of the module that returns 7 begins: its form, its seeds, its seven functions.
#[rattlefmt::skip]
const SEVEN_OBJECT: [u8; 28] = [
    0x52, 0x44, 0x4F, 0x31, 2, 0, 0, 0,
    1, 0, 0, 0, 0, 0, 0, 0,
    2, 0, 0, 0, 0, 0, 0, 0,
    7, 0, 0, 0,
];

#[test]
fn modules_become_images_that_run(rt: HostRuntime) -> Result<(), Fail> {
    let alloc = rt.alloc();
    let seven = run_surely(alloc, ASKED, SEVEN)?;
    assert!(rt; seven.out.as_slice().starts_with(&SEVEN_OBJECT));
    let object = run_surely(alloc, ASKED, SQUARE)?;
    for layout_seed in ["3", "4"] {
        let lay = ["lay", "m", "--layout-seed", layout_seed];
        let laid = run_surely(alloc, &lay, object.out.as_slice())?;
        assert_eq!(rt; laid.status, 0);
        let build = [
            "build",
            "m",
            "--slot-seed",
            "1",
            "--reg-seed",
            "2",
            "--layout-seed",
            layout_seed,
        ];
        let built = run_surely(alloc, &build, SQUARE)?;
        assert!(rt; built.out == laid.out);
        let ran = run_surely(
            alloc,
            &["run", "m", "--steps", "1000"],
            built.out.as_slice(),
        )?;
        assert!(rt; ran.said.as_slice() == b"ended 227\n".as_slice());
    }
    Ok(())
}

#[test]
fn two_hundred_machines_live_at_once(rt: HostRuntime) -> Result<(), Fail> {
    let alloc = rt.alloc();
    let build = [
        "build",
        "m",
        "--slot-seed",
        "1",
        "--reg-seed",
        "2",
        "--layout-seed",
        "3",
    ];
    let built = run_surely(alloc, &build, SEVEN)?;
    let Ok(image) = read(alloc, built.out.as_slice()) else {
        panic!(rt; "no image");
    };
    let mut input = SureSource::new(List::new(alloc));
    let mut machines = Vec::new(alloc);
    for _ in 0..200 {
        let mut machine = Machine::start(alloc, &image)?;
        let outcome = machine.run(&mut input, &mut CountSink::new(), 4)?;
        assert!(rt; outcome == MachOutcome::Going);
        machines.push(machine)?;
    }
    for machine in machines.iter_mut() {
        let outcome = machine.run(&mut input, &mut CountSink::new(), 1000)?;
        assert!(rt; outcome == MachOutcome::Ended(7));
    }
    Ok(())
}

/// An object of one function and one slot that leads to it, up to the function's size.
#[rattlefmt::skip]
const OBJECT: [u8; 44] = [
    0x52, 0x44, 0x4F, 0x31, 1, 0, 0, 0,
    0, 0, 0, 0, 0, 0, 0, 0,
    0, 0, 0, 0, 0, 0, 0, 0,
    1, 0, 0, 0, 1, 0, 0, 0,
    0, 0, 0, 0, 0, 0, 0, 0,
    0, 0, 0, 0,
];

#[test]
fn objects_have_these_lines(rt: HostRuntime) -> Result<(), Fail> {
    let alloc = rt.alloc();
    let rows: [(&[u8], usize, u8, &[u8]); 6] = [
        (b"\x0F\x0B", 0, 0, b""),
        (b"\x0F\x0B", 1, 5, b"form 69\n"),
        (b"\x0F\x05\x0F\x0B", 0, 5, b"shape 3 function 0 0\n"),
        (
            b"\x0F\x0B\xE9\xFA\xFF\xFF\xFF",
            0,
            5,
            b"shape 4 function 0 2\n",
        ),
        (b"\x90", 0, 5, b"shape 5 function 0 0\n"),
        (b"\x06", 0, 5, b"shape 2 function 0 0\n"),
    ];
    for (code, less, want, line) in rows {
        let mut file = Vec::new(alloc);
        file.extend_from_slice(&OBJECT)?;
        file.extend_from_slice(&[(code.len() % 256) as u8, 0, 0, 0, 0, 0, 0, 0])?;
        file.extend_from_slice(code)?;
        file.resize(file.len() + 16, 0)?;
        let length = file.len() - less;
        let left = run_surely(alloc, &["lay", "m", "--layout-seed", "7"], &file[..length])?;
        assert_eq!(rt; left.status, want);
        assert!(rt; left.said.as_slice() == line);
    }
    Ok(())
}

/// An object of one function and one slot that leads to it, in format 2: a jump over a breakpoint to `ud2`.
/// Two cuts part the breakpoint from what stands on both sides.
#[rattlefmt::skip]
const CUT_OBJECT: [u8; 88] = [
    0x52, 0x44, 0x4F, 0x31, 2, 0, 0, 0,
    0, 0, 0, 0, 0, 0, 0, 0,
    0, 0, 0, 0, 0, 0, 0, 0,
    1, 0, 0, 0, 1, 0, 0, 0,
    0, 0, 0, 0, 0, 0, 0, 0,
    0, 0, 0, 0, 8, 0, 0, 0,
    0, 0, 0, 0, 2, 0, 0, 0,
    0xE9, 1, 0, 0, 0, 0xCC, 0x0F, 0x0B,
    5, 0, 0, 0, 6, 0, 0, 0,
    0, 0, 0, 0, 0, 0, 0, 0,
    0, 0, 0, 0, 0, 0, 0, 0,
];

#[test]
fn a_function_in_pieces_runs_in_each_layout(rt: HostRuntime) -> Result<(), Fail> {
    let alloc = rt.alloc();
    for layout_seed in ["0", "1", "2", "7"] {
        let lay = ["lay", "m", "--layout-seed", layout_seed];
        let laid = run_surely(alloc, &lay, &CUT_OBJECT)?;
        assert_eq!(rt; laid.status, 0);
        let two = run_surely(alloc, &["run", "m", "--steps", "2"], laid.out.as_slice())?;
        assert_eq!(rt; two.status, 21);
        assert!(rt; two.said.as_slice() == b"going\n".as_slice());
        let three = run_surely(alloc, &["run", "m", "--steps", "3"], laid.out.as_slice())?;
        assert_eq!(rt; three.status, 20);
        assert!(rt; three.said.as_slice() == b"trapped invalid\n".as_slice());
    }
    Ok(())
}

#[test]
fn wrong_cuts_have_these_lines(rt: HostRuntime) -> Result<(), Fail> {
    let alloc = rt.alloc();
    let rows: [(u8, &[u8], &[u8]); 3] = [
        (2, b"\x06\0\0\0\x05\0\0\0", b"shape 9 function 0 5\n"),
        (1, b"\x01\0\0\0", b"shape 9 function 0 1\n"),
        (1, b"\x08\0\0\0", b"shape 9 function 0 8\n"),
    ];
    for (count, cuts, line) in rows {
        let mut file = Vec::new(alloc);
        file.extend_from_slice(&CUT_OBJECT[..52])?;
        file.extend_from_slice(&[count, 0, 0, 0])?;
        file.extend_from_slice(&CUT_OBJECT[56..64])?;
        file.extend_from_slice(cuts)?;
        file.extend_from_slice(&CUT_OBJECT[72..])?;
        let left = run_surely(alloc, &["lay", "m", "--layout-seed", "7"], file.as_slice())?;
        assert_eq!(rt; left.status, 5);
        assert!(rt; left.said.as_slice() == line);
    }
    Ok(())
}

/// The object of one function `ud2` with the bytes 41 42 of data that may be written.
#[rattlefmt::skip]
const DATA_OBJECT: [u8; 72] = [
    0x52, 0x44, 0x4F, 0x31, 1, 0, 0, 0,
    0, 0, 0, 0, 0, 0, 0, 0,
    0, 0, 0, 0, 0, 0, 0, 0,
    1, 0, 0, 0, 1, 0, 0, 0,
    0, 0, 0, 0, 2, 0, 0, 0,
    0, 0, 0, 0, 2, 0, 0, 0,
    0, 0, 0, 0, 0x0F, 0x0B, 0, 0,
    0, 0, 0, 0, 0, 0, 0, 0,
    0, 0, 0, 0, 0, 0, 0x41, 0x42,
];

/// What is seen of its image before the first instruction.
const DATA_TEXT: &[u8] = b"rax 0000000000000000
rcx 0000000000000000
rdx 0000000000000000
rbx 0000000000000000
rsp 00000000c0000000
rbp 0000000000000000
rsi 0000000000000000
rdi 0000000000000000
r8 0000000000000000
r9 0000000000000000
r10 0000000000000000
r11 0000000000000000
r12 0000000000000000
r13 0000000000000000
r14 0000000000000000
r15 0000000000000000
flags 0 0 0 0
outcome going
segment 0000000030000000 2 rw
0000000030000000 4142
segment 000000009ffff000 536875008 rw
";

#[test]
fn an_image_shows_this_text(rt: HostRuntime) -> Result<(), Fail> {
    let alloc = rt.alloc();
    let laid = run_surely(alloc, &["lay", "m", "--layout-seed", "0"], &DATA_OBJECT)?;
    let shown = run_surely(alloc, &["show", "m", "--steps", "0"], laid.out.as_slice())?;
    assert_eq!(rt; shown.status, 0);
    assert!(rt; shown.said.is_empty());
    assert!(rt; shown.out.as_slice() == DATA_TEXT);
    Ok(())
}

/// The run of `watch` over this image in `m` and this script in `s`.
fn watched(alloc: Global, image: &[u8], script: &[u8]) -> Result<Left, Fail> {
    let all = all_words(alloc, &["watch", "m", "--script", "s"])?;
    let mut held = one_file(alloc, image)?;
    let name = copy_list(alloc, b"s")?;
    let bytes = copy_list(alloc, script)?;
    held.add(File { name, bytes })?;
    let mut files = SureFiles::new(held);
    let mut input = SureSource::new(List::new(alloc));
    let mut out = SureSink::new(alloc);
    let mut err = SureSink::new(alloc);
    let status = top(
        alloc,
        all.as_slice(),
        &mut files,
        &mut input,
        &mut out,
        &mut err,
    );
    let out = copy_list(alloc, out.bytes().as_slice())?;
    let said = copy_list(alloc, err.bytes().as_slice())?;
    Ok(Left { status, out, said })
}

/// Reads of its data and of its code, before and after its instruction.
const READS: &[u8] =
    b"0 read 30000000 2\n0 read 30000001 2\n1 read 30000001 1\n2 read 10000000 1\n";

/// The report on them.
const REPORT: &[u8] = b"0 0000000030000000 4142
0 0000000030000001 refused
1 0000000030000001 42
2 0000000010000000 refused
end 2 invalid out 0
";

#[test]
fn reads_of_an_image_have_this_report(rt: HostRuntime) -> Result<(), Fail> {
    let alloc = rt.alloc();
    for layout_seed in ["0", "7"] {
        let lay = ["lay", "m", "--layout-seed", layout_seed];
        let laid = run_surely(alloc, &lay, &DATA_OBJECT)?;
        let told = watched(alloc, laid.out.as_slice(), READS)?;
        assert_eq!(rt; told.status, 0);
        assert!(rt; told.out.as_slice() == REPORT);
        let refused = watched(alloc, laid.out.as_slice(), b"0 read 0 1\n0 read 0 0\n")?;
        assert_eq!(rt; refused.status, 7);
        assert!(rt; refused.said.as_slice() == b"script 2\n".as_slice());
    }
    Ok(())
}

/// A write to its data that a read sees, one past its end, and one to a slot.
const WRITES: &[u8] = b"0 write 30000000 43
0 read 30000000 2
0 write 30000001 4344
0 write 10000000 00
";

/// The report on them.
const WRITTEN: &[u8] = b"0 0000000030000000 written
0 0000000030000000 4342
0 0000000030000001 refused
0 0000000010000000 refused
end 0 going out 0
";

#[test]
fn writes_to_an_image_have_this_report(rt: HostRuntime) -> Result<(), Fail> {
    let alloc = rt.alloc();
    for layout_seed in ["0", "7"] {
        let lay = ["lay", "m", "--layout-seed", layout_seed];
        let laid = run_surely(alloc, &lay, &DATA_OBJECT)?;
        let told = watched(alloc, laid.out.as_slice(), WRITES)?;
        assert_eq!(rt; told.status, 0);
        assert!(rt; told.out.as_slice() == WRITTEN);
    }
    Ok(())
}

#[test]
fn an_outside_that_fails_is_named(rt: HostRuntime) -> Result<(), Fail> {
    let alloc = rt.alloc();
    for (file_fails, out_fails, want) in [(2, 2, 0), (1, 2, 3), (2, 1, 9)] {
        let mut numbers = List::new(alloc);
        numbers.add(file_fails)?;
        let mut files = MemFiles::new(one_file(alloc, SEVEN)?, numbers);
        let mut numbers = List::new(alloc);
        numbers.add(out_fails)?;
        let mut out = MemSink::new(alloc, numbers);
        let status = ends(alloc, ASKED, &mut files, &mut out)?;
        assert_eq!(rt; status, want);
        assert_eq!(rt; out.bytes().is_empty(), want != 0);
    }
    Ok(())
}
