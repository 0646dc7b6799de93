//! Where the fields of the headers stand, and the values that are the same in every file.
//!
//! Offsets count from the header that a field stands in. Names are those of the standard.

/// The first bytes of every file.
pub const IDENT: [u8; 16] = [0x7F, 0x45, 0x4C, 0x46, 2, 1, 1, 0, 0, 0, 0, 0, 0, 0, 0, 0];

/// Offsets in the header of the file.
pub const E_TYPE: usize = 16;

pub const E_MACHINE: usize = 18;

pub const E_VERSION: usize = 20;

pub const E_ENTRY: usize = 24;

pub const E_PHOFF: usize = 32;

pub const E_PHENTSIZE: usize = 54;

pub const E_PHNUM: usize = 56;

/// The length of the header of the file.
pub const HEADER_LEN: usize = 64;

/// `e_type` of an executable, `e_machine` of x86-64, `e_version`.
pub const EXECUTABLE: u16 = 2;

pub const X86_64: u16 = 62;

pub const VERSION: u32 = 1;

/// Offsets in a program header.
pub const P_TYPE: usize = 0;

pub const P_FLAGS: usize = 4;

pub const P_OFFSET: usize = 8;

pub const P_VADDR: usize = 16;

pub const P_FILESZ: usize = 32;

pub const P_MEMSZ: usize = 40;

pub const P_ALIGN: usize = 48;

/// The length of a program header.
pub const PROGRAM_HEADER_LEN: usize = 56;

/// `p_type` of a segment to load, and `p_align` of every segment.
pub const LOAD: u32 = 1;

pub const PAGE: u64 = 4096;

/// How many segments a file has at most.
pub const MOST_SEGMENTS: u16 = 8;

/// The lowest address of a segment, and the address that none reaches.
pub const LOWEST: u64 = 0x10000;

pub const HIGHEST: u64 = 0x9000_0000;

/// How many bytes all segments have at most.
pub const MOST_BYTES: u64 = 268_435_456;

/// The fields of a program header that are looked at.
#[derive(Clone, Copy)]
pub struct ProgramHeader {
    pub p_type: u32,
    pub p_flags: u32,
    pub p_offset: u64,
    pub p_vaddr: u64,
    pub p_filesz: u64,
    pub p_memsz: u64,
    pub p_align: u64,
}
