//! The operations on numbered registers that the instructions of a program without switches become.
//!
//! A variable has a register of its own, and words on their way pass through a few more. Which
//! operations an instruction becomes stands in `specs/Rows` and `specs/Calls`, and the whole program in
//! `specs/Selected`.
#![tactic(auto)]

pub mod block;
pub mod brought;
pub mod calls;
pub mod function;
pub mod moving;
pub mod program;
pub mod rows;
pub mod selector;
pub mod symbols;
pub mod variables;
