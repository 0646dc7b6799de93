//! The image of a file, where the file keeps all rules.

ghost use Rattle.std.specs.Prelude.{◌≡◌, ◌+◌, ◌≤◌, length, map, All, IfOk, IfErr, MatchOption};
ghost use Rattle.elf_file.specs.Sound.{IsSound};
ghost use Rattle.elf_file.specs.Rules.{Rule1, Rule2, Rule3, Rules, IsLoad, IsInFile, LoadsAs, FailsFirst, Explains, program_header, headers_of, segment_of};

use crate::ImageFault;
use crate::layout::{
    E_ENTRY, E_PHNUM, HEADER_LEN, P_ALIGN, P_FILESZ, P_FLAGS, P_MEMSZ, P_OFFSET, P_TYPE, P_VADDR,
    PROGRAM_HEADER_LEN, ProgramHeader,
};
use crate::rules::{
    are_in_file, are_loads, are_ordered, are_placed, are_small, are_whole, half_at, has_headers,
    has_ident, has_kind, long_at, word_at,
};
use bitflags::Flags;
use rd_num::list::List;
use rd_num::width::NoMemory;
use std::alloc::Global;
use x86_core::image::{Image, Rights, Segment};

/// The image that a file loads as.
///
/// `Rule` comes exactly where a rule fails, with the first that does. Time is linear in the bytes of
/// the segments, and no memory is taken for them before they are known to be there.
#[tactic(auto, using(crate::proofs::Sound::loads_sound))]
pub fn read(alloc: Global, bytes: &[u8]) -> Result<Image, ImageFault>
    ensures loads { IfOk result (λ image. LoadsAs bytes.now image) }
    ensures sound { IfOk result IsSound }
    ensures first { IfErr result (λ fault. Explains bytes.now fault) }
{
    loaded(alloc, bytes)
}

/// The image, whose soundness follows from the rules that were tested.
fn loaded(alloc: Global, bytes: &[u8]) -> Result<Image, ImageFault>
    ensures loads { IfOk result (λ image. LoadsAs bytes.now image) }
    ensures first { IfErr result (λ fault. Explains bytes.now fault) }
{
    if let Some(rule) = header_fault(bytes) {
        return Err(ImageFault::Rule { rule });
    }
    let headers = match headers(alloc, bytes) {
        Ok(headers) => headers,
        Err(_) => return Err(ImageFault::NoMemory),
    };
    if let Some(rule) = segment_fault(bytes, headers.as_slice()) {
        return Err(ImageFault::Rule { rule });
    }
    match segments(alloc, bytes, headers.as_slice()) {
        Ok(segments) => Ok(Image {
            entry: long_at(bytes, E_ENTRY),
            segments,
        }),
        Err(_) => Err(ImageFault::NoMemory),
    }
}

/// The first of the rules on the header that fails.
fn header_fault(bytes: &[u8]) -> Option<u8>
    ensures { MatchOption result (Rule1 bytes.now × Rule2 bytes.now × Rule3 bytes.now)
        (λ rule. FailsFirst bytes.now rule) }
{
    if !has_ident(bytes) {
        return Some(1);
    }
    if !has_kind(bytes) {
        return Some(2);
    }
    if !has_headers(bytes) {
        return Some(3);
    }
    None
}

/// The program headers of a file.
#[tactic(auto, unfolding(crate::specs::Rules::headers_of))]
fn headers(alloc: Global, bytes: &[u8]) -> Result<List<ProgramHeader>, NoMemory>
    requires { Rule3 bytes.now }
    ensures { IfOk result (λ all. all ≡ headers_of bytes.now) }
{
    let count = half_at(bytes, E_PHNUM);
    let mut all = List::new(alloc);
    for i in 0..count {
        let offset = HEADER_LEN + PROGRAM_HEADER_LEN * i as usize;
        all.add(header_at(&bytes[offset..]))?;
    }
    Ok(all)
}

/// The program header that bytes begin with.
fn header_at(bytes: &[u8]) -> ProgramHeader
    requires { 56 ≤ length bytes.now }
    ensures { result ≡ program_header bytes.now }
{
    ProgramHeader {
        p_type: word_at(bytes, P_TYPE),
        p_flags: word_at(bytes, P_FLAGS),
        p_offset: long_at(bytes, P_OFFSET),
        p_vaddr: long_at(bytes, P_VADDR),
        p_filesz: long_at(bytes, P_FILESZ),
        p_memsz: long_at(bytes, P_MEMSZ),
        p_align: long_at(bytes, P_ALIGN),
    }
}

/// The first of the rules on the segments that fails, where those on the header hold.
fn segment_fault(bytes: &[u8], headers: &[ProgramHeader]) -> Option<u8>
    requires before { Rule1 bytes.now × Rule2 bytes.now × Rule3 bytes.now }
    requires headers { headers.now ≡ headers_of bytes.now }
    ensures { MatchOption result (Rules bytes.now) (λ rule. FailsFirst bytes.now rule) }
{
    if !are_loads(headers) {
        return Some(4);
    }
    if !are_whole(headers) {
        return Some(5);
    }
    if !are_placed(headers) {
        return Some(6);
    }
    if !are_ordered(headers) {
        return Some(7);
    }
    if !are_in_file(bytes.len() as u64, headers) {
        return Some(8);
    }
    if !are_small(headers) {
        return Some(9);
    }
    None
}

/// The segments of program headers, in order.
fn segments(
    alloc: Global,
    bytes: &[u8],
    headers: &[ProgramHeader],
) -> Result<List<Segment>, NoMemory>
    requires loads { All IsLoad headers.now }
    requires there { All (IsInFile (length bytes.now)) headers.now }
    ensures { IfOk result (λ all. all ≡ map (segment_of bytes.now) headers.now) }
{
    let mut all = List::new(alloc);
    for header in headers {
        let one = segment(alloc, bytes, header)?;
        all.add(one)?;
    }
    Ok(all)
}

/// The segment of a program header.
fn segment(alloc: Global, bytes: &[u8], header: &ProgramHeader) -> Result<Segment, NoMemory>
    requires load { IsLoad header.now }
    requires there { IsInFile (length bytes.now) header.now }
    ensures { IfOk result (λ s. s ≡ segment_of bytes.now header.now) }
{
    let offset = header.p_offset as usize;
    let mut copy = List::new(alloc);
    copy.append(&bytes[offset..offset + header.p_filesz as usize])?;
    Ok(Segment {
        start: header.p_vaddr,
        bytes: copy,
        rights: Rights::from_bits_retain(header.p_flags as u8),
    })
}
