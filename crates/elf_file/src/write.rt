//! The file of an image, header after header and then the bytes of the segments.

ghost use Rattle.std.specs.Prelude.{◌≡◌, ◌+◌, ◌-◌, ◌*◌, ◌++◌, ◌<◌, ◌≤◌, ◌^◌, length, replicate, All, IfOk, OnOk};
ghost use Rattle.elf_file.specs.Sound.{IsSegment, IsSound};
ghost use Rattle.elf_file.specs.Elf.{half, word, long, kind_bytes, place_bytes, size_bytes, header_bytes, twice, program_header_bytes, program_headers_bytes, page_up, headers_end, contents, elf_bytes};

use crate::layout::{
    EXECUTABLE, HEADER_LEN, IDENT, LOAD, PAGE, PROGRAM_HEADER_LEN, VERSION, X86_64,
};
use bitflags::Flags;
use rd_num::bytes::{put_u32_le, put_u64_le};
use rd_num::list::List;
use rd_num::width::NoMemory;
use std::alloc::Global;
use x86_core::image::{Image, Segment};

/// The bytes of an image's file. Time and memory are linear in them.
#[tactic(auto, unfolding(crate::specs::Elf::elf_bytes))]
pub fn write(alloc: Global, image: &Image) -> Result<List<u8>, NoMemory>
    requires { IsSound image.now }
    ensures { IfOk result (λ file. file ≡ elf_bytes image.now) }
{
    let segments = image.segments.as_slice();
    let mut file = List::new(alloc);
    put_header(&mut file, image.entry, segments.len() as u16)?;
    put_program_headers(&mut file, segments)?;
    put_contents(&mut file, segments)?;
    Ok(file)
}

/// The header of the file.
#[tactic(auto, unfolding(crate::specs::Elf::header_bytes))]
fn put_header(file: &mut List<u8>, entry: u64, count: u16) -> Result<(), NoMemory>
    ensures { OnOk result (file.new ≡ file.old ++ header_bytes entry count) }
{
    file.append(&IDENT)?;
    put_kind(file)?;
    put_places(file, entry)?;
    put_sizes(file, count)?;
    Ok(())
}

/// What kind of file it is, and for which machine.
fn put_kind(file: &mut List<u8>) -> Result<(), NoMemory>
    ensures { OnOk result (file.new ≡ file.old ++ kind_bytes) }
{
    put_half(file, EXECUTABLE)?;
    put_half(file, X86_64)?;
    put_word(file, VERSION)?;
    Ok(())
}

/// The entry, where the program headers stand, no section headers, no flags.
fn put_places(file: &mut List<u8>, entry: u64) -> Result<(), NoMemory>
    ensures { OnOk result (file.new ≡ file.old ++ place_bytes entry) }
{
    put_long(file, entry)?;
    put_long(file, HEADER_LEN as u64)?;
    put_long(file, 0)?;
    put_word(file, 0)?;
    Ok(())
}

/// The lengths of both headers and the number of program headers; no section headers.
fn put_sizes(file: &mut List<u8>, count: u16) -> Result<(), NoMemory>
    ensures { OnOk result (file.new ≡ file.old ++ size_bytes count) }
{
    put_half(file, HEADER_LEN as u16)?;
    put_half(file, PROGRAM_HEADER_LEN as u16)?;
    put_half(file, count)?;
    put_half(file, 0)?;
    put_half(file, 0)?;
    put_half(file, 0)?;
    Ok(())
}

/// The program headers of all segments, in order.
fn put_program_headers(file: &mut List<u8>, segments: &[Segment]) -> Result<(), NoMemory>
    requires few { length segments.now ≤ 8 }
    requires each { All IsSegment segments.now }
    ensures { OnOk result (file.new ≡
        file.old ++ program_headers_bytes (headers_end (length segments.now)) segments.now) }
{
    let mut end = (HEADER_LEN + PROGRAM_HEADER_LEN * segments.len()) as u64;
    for segment in segments {
        let offset = next_page(end);
        put_program_header(file, offset, segment)?;
        end = offset + segment.bytes.len() as u64;
    }
    Ok(())
}

/// The program header of a segment whose bytes stand at an offset.
fn put_program_header(file: &mut List<u8>, offset: u64, segment: &Segment) -> Result<(), NoMemory>
    ensures { OnOk result (file.new ≡ file.old ++ program_header_bytes offset segment.now) }
{
    let size = segment.bytes.len() as u64;
    put_word(file, LOAD)?;
    put_word(file, segment.rights.bits() as u32)?;
    put_long(file, offset)?;
    put_twice(file, segment.start)?;
    put_twice(file, size)?;
    put_long(file, PAGE)?;
    Ok(())
}

/// Two fields with the same number.
fn put_twice(file: &mut List<u8>, n: u64) -> Result<(), NoMemory>
    ensures { OnOk result (file.new ≡ file.old ++ twice n) }
{
    put_long(file, n)?;
    put_long(file, n)?;
    Ok(())
}

/// The bytes of all segments, each at the next page of the file.
fn put_contents(file: &mut List<u8>, segments: &[Segment]) -> Result<(), NoMemory>
    requires few { length segments.now ≤ 8 }
    requires each { All IsSegment segments.now }
    requires end { length file.old ≡ headers_end (length segments.now) }
    ensures { OnOk result (file.new ≡ file.old ++ contents (length file.old) segments.now) }
{
    for segment in segments {
        let end = file.len() as u64;
        put_zeros(file, next_page(end) - end)?;
        file.append(segment.bytes.as_slice())?;
    }
    Ok(())
}

/// The least multiple of 4096 that is not below a number.
#[tactic(auto, unfolding(crate::specs::Elf::page_up))]
fn next_page(n: u64) -> u64
    requires { n < 2 ^ 63 }
    ensures next { result ≡ page_up n }
    ensures above { n ≤ result }
    ensures near { result < n + 4096 }
{
    (n + (PAGE - 1)) / PAGE * PAGE
}

/// A number of zeros.
fn put_zeros(file: &mut List<u8>, count: u64) -> Result<(), NoMemory>
    ensures { OnOk result (file.new ≡ file.old ++ replicate count 0) }
{
    for _ in 0..count {
        file.add(0)?;
    }
    Ok(())
}

#[tactic(auto, unfolding(crate::specs::Elf::half))]
fn put_half(file: &mut List<u8>, n: u16) -> Result<(), NoMemory>
    ensures { OnOk result (file.new ≡ file.old ++ half n) }
{
    file.append(&n.to_le_bytes())
}

#[tactic(auto, unfolding(crate::specs::Elf::word))]
fn put_word(file: &mut List<u8>, n: u32) -> Result<(), NoMemory>
    ensures { OnOk result (file.new ≡ file.old ++ word n) }
{
    file.append(&put_u32_le(n))
}

#[tactic(auto, unfolding(crate::specs::Elf::long))]
fn put_long(file: &mut List<u8>, n: u64) -> Result<(), NoMemory>
    ensures { OnOk result (file.new ≡ file.old ++ long n) }
{
    file.append(&put_u64_le(n))
}
