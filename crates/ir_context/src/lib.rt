//! What operands and indices of a module stand for: values that are known, registers and paths.
//!
//! `context` has what names of a module stand for, and `extents` how much room types take.
//! `registers` has the values of a call's locals by number. `origin` says where a value that is read
//! comes from, `path` how far indices lead. What each is stands in `specs/`, and `specs/Reads` has
//! what it gives in a run.
#![tactic(auto)]

pub mod context;
pub mod extents;
pub mod law;
pub mod origin;
pub mod path;
pub mod registers;
