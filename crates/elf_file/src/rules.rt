//! The rules that a file keeps, each a test of its own.

ghost use Rattle.std.specs.Prelude.{◌≡◌, ◌+◌, ◌≤◌, ◌↔◌, length, All, IsTrue, MatchOption};
ghost use Rattle.elf_file.specs.Rules.{Rule1, Rule2, Rule3, IsLoad, IsWhole, IsPlaced, AreOrdered, IsInFile, total_size, number_at};

use crate::layout::{
    E_MACHINE, E_PHENTSIZE, E_PHNUM, E_PHOFF, E_TYPE, E_VERSION, EXECUTABLE, HEADER_LEN, HIGHEST,
    IDENT, LOAD, LOWEST, MOST_BYTES, MOST_SEGMENTS, PAGE, PROGRAM_HEADER_LEN, ProgramHeader,
    VERSION, X86_64,
};
use rd_num::bytes::{get_u32_le, get_u64_le};

/// The field of two bytes at an offset. Takes no memory.
#[tactic(auto, unfolding(crate::specs::Rules::number_at))]
pub fn half_at(bytes: &[u8], offset: usize) -> u16
    requires { offset + 2 ≤ length bytes.now }
    ensures { result ≡ number_at 2 offset bytes.now }
{
    match &bytes[offset..] {
        [a, b, ..] => u16::from_le_bytes([*a, *b]),
        _ => 0,
    }
}

/// The field of four bytes at an offset. Takes no memory.
#[tactic(auto, unfolding(crate::specs::Rules::number_at))]
pub fn word_at(bytes: &[u8], offset: usize) -> u32
    requires { offset + 4 ≤ length bytes.now }
    ensures { result ≡ number_at 4 offset bytes.now }
{
    match get_u32_le(&bytes[offset..]) {
        Some(n) => n,
        None => 0,
    }
}

/// The field of eight bytes at an offset. Takes no memory.
#[tactic(auto, unfolding(crate::specs::Rules::number_at))]
pub fn long_at(bytes: &[u8], offset: usize) -> u64
    requires { offset + 8 ≤ length bytes.now }
    ensures { result ≡ number_at 8 offset bytes.now }
{
    match get_u64_le(&bytes[offset..]) {
        Some(n) => n,
        None => 0,
    }
}

/// Rule 1: the bytes of a header are there, and begin as those of every file.
pub fn has_ident(bytes: &[u8]) -> bool
    ensures { IsTrue result ↔ Rule1 bytes.now }
{
    bytes.len() >= HEADER_LEN && bytes.starts_with(&IDENT)
}

/// Rule 2: an executable for x86-64.
pub fn has_kind(bytes: &[u8]) -> bool
    requires { 64 ≤ length bytes.now }
    ensures { IsTrue result ↔ Rule2 bytes.now }
{
    half_at(bytes, E_TYPE) == EXECUTABLE
        && half_at(bytes, E_MACHINE) == X86_64
        && word_at(bytes, E_VERSION) == VERSION
}

/// Rule 3: one to eight program headers, which are there and follow the header.
pub fn has_headers(bytes: &[u8]) -> bool
    requires { 64 ≤ length bytes.now }
    ensures { IsTrue result ↔ Rule3 bytes.now }
{
    let count = half_at(bytes, E_PHNUM);
    long_at(bytes, E_PHOFF) == HEADER_LEN as u64
        && half_at(bytes, E_PHENTSIZE) == PROGRAM_HEADER_LEN as u16
        && 1 <= count
        && count <= MOST_SEGMENTS
        && HEADER_LEN + PROGRAM_HEADER_LEN * count as usize <= bytes.len()
}

/// Rule 4: segments to load, with rights, aligned to pages.
pub fn are_loads(headers: &[ProgramHeader]) -> bool
    ensures { IsTrue result ↔ All IsLoad headers.now }
{
    headers.iter().all(|header| is_load(header))
}

fn is_load(header: &ProgramHeader) -> bool
    ensures { IsTrue result ↔ IsLoad header.now }
{
    header.p_type == LOAD && 1 <= header.p_flags && header.p_flags <= 7 && header.p_align == PAGE
}

/// Rule 5: no segment is empty, or longer in memory than in the file.
pub fn are_whole(headers: &[ProgramHeader]) -> bool
    ensures { IsTrue result ↔ All IsWhole headers.now }
{
    headers.iter().all(|header| is_whole(header))
}

fn is_whole(header: &ProgramHeader) -> bool
    ensures { IsTrue result ↔ IsWhole header.now }
{
    header.p_filesz == header.p_memsz && 1 <= header.p_filesz
}

/// Rule 6: whole pages, between the lowest and the highest address.
pub fn are_placed(headers: &[ProgramHeader]) -> bool
    ensures { IsTrue result ↔ All IsPlaced headers.now }
{
    headers.iter().all(|header| is_placed(header))
}

fn is_placed(header: &ProgramHeader) -> bool
    ensures { IsTrue result ↔ IsPlaced header.now }
{
    header.p_vaddr % PAGE == 0
        && header.p_offset % PAGE == 0
        && LOWEST <= header.p_vaddr
        && header.p_vaddr <= HIGHEST
        && header.p_filesz <= HIGHEST - header.p_vaddr
}

/// Rule 7: each segment begins where the one before has ended.
pub fn are_ordered(headers: &[ProgramHeader]) -> bool
    ensures { IsTrue result ↔ AreOrdered 0 headers.now }
{
    let mut end: u128 = 0;
    for header in headers {
        if (header.p_vaddr as u128) < end {
            return false;
        }
        end = header.p_vaddr as u128 + header.p_filesz as u128;
    }
    true
}

/// Rule 8: the bytes of each segment stand in a file of this length.
pub fn are_in_file(size: u64, headers: &[ProgramHeader]) -> bool
    ensures { IsTrue result ↔ All (IsInFile size) headers.now }
{
    headers.iter().all(|header| is_in_file(size, header))
}

fn is_in_file(size: u64, header: &ProgramHeader) -> bool
    ensures { IsTrue result ↔ IsInFile size header.now }
{
    header.p_offset <= size && header.p_filesz <= size - header.p_offset
}

/// Rule 9: the segments together are not too long.
pub fn are_small(headers: &[ProgramHeader]) -> bool
    ensures { IsTrue result ↔ (total_size headers.now ≤ 268435456) }
{
    let mut left = MOST_BYTES;
    for header in headers {
        if header.p_filesz > left {
            return false;
        }
        left -= header.p_filesz;
    }
    true
}
