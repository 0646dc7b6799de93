//! Images of programs as executables of ELF64: written, and read back.
//!
//! `write` gives the one file of a sound image, and `read` takes every file that keeps nine rules,
//! also files of other makers. `layout` has the offsets of the fields, `law` what holds of both
//! directions at once. A file is a header of 64 bytes, a header of 56 bytes for each segment, and
//! the bytes of the segments, each at a multiple of 4096. Numbers are little-endian.
//! Source: System V Application Binary Interface, "ELF Header" and "Program Header", at 64 bits;
//! which of its files are accepted is this project's own: docs/image-format.md.
#![tactic(auto)]

pub mod law;
pub mod layout;
pub mod read;
mod rules;
#[cfg(test)]
mod tests;
pub mod write;

/// Why bytes load as no image: the first rule that they break, or want of memory.
#[derive(Clone, Copy)]
pub enum ImageFault {
    Rule { rule: u8 },
    NoMemory,
}
