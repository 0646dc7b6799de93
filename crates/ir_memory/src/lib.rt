//! What single operations of a run give: arithmetic, and memory as objects.
//!
//! `arithmetic` has the operations, comparisons and casts of numbers of a width, `values` the same
//! for values of any kind. `object` has one object and its cells, `memory` all objects by their
//! numbers, with loads, stores and fills; `pointer` compares and moves pointers. What each gives
//! stands in `ir_core`, `specs/Arithmetic`, `specs/Memory`, `specs/Pointers` and `specs/Step`; a
//! `Stop` stops a run.
#![tactic(auto)]

pub mod arithmetic;
pub mod cells;
pub mod memory;
pub mod object;
pub mod pointer;
pub mod values;
