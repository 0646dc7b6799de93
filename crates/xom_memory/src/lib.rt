//! The memory of a machine: the segments of an image and the stack, each with its rights.
//!
//! `memory` has the store and its calls, `segment` one segment that came from an image, `stack` the
//! one that no image has, `pages` the pages in which it is kept, `page` one of them, `word` words in
//! bytes, `codes` the instructions that were decoded, and `lent` a segment that is lent whole.
//! Contracts see a `Memory` as the list of its segments, the stack last. Which access is allowed and
//! what it gives is defined in `x86_core`, `specs/Memory.antt`. Reads take no memory; a write takes
//! some where it is the first to a page of the stack.
#![tactic(auto)]

pub mod codes;
pub mod lent;
pub mod memory;
pub mod page;
pub mod pages;
pub mod segment;
pub mod stack;
#[cfg(test)]
mod tests;
pub mod word;
