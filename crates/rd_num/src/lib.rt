//! Numbers of a width, little-endian bytes, and the two owners that other types are built from.
//!
//! `width` has the five widths of the source language and the remainders that go with them, `bytes`
//! the little-endian spelling of words, `list` a growing list and `boxed` one value on the heap.
//! Contracts see a `List<T>` as the list of its items and a `Boxed<T>` as its value. `copied` and
//! `compared` have equal copies of lists and their equality and hash, which are those of the items,
//! and `numeral` reads numbers from their digits.
#![tactic(auto)]

pub mod boxed;
pub mod bytes;
pub mod compared;
pub mod copied;
pub mod list;
pub mod numeral;
#[cfg(test)]
mod tests;
pub mod width;
