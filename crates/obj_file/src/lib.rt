//! Objects as the bytes of their files: written, and read back.
//!
//! `write` spells an object in format 2, and `read` takes exactly the bytes that spell one, in format 2 or,
//! with functions that have no cuts, in format 1. A file is a header of
//! 40 bytes, the functions, the slots and the data; nothing follows. Words are little-endian.
//! Source: this project's object format, docs/object-format.md. Which objects are well formed is
//! not asked here.
#![tactic(auto)]

pub mod fault;
mod format;
mod function;
pub mod laws;
mod part;
pub mod read;
pub mod write;
