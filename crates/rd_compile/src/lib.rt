//! The compiler: modules in, objects out.
//!
//! Phis and switches are taken out and operations selected, which makes a program of registers; slots
//! are planned, data is placed, each register gets a word of its function's frame, functions are
//! written, and an object is put together of them and of the routines. `specs/Program` and
//! `specs/Passed` say what object that is, `specs/Own` has the homes and the names of registers, and
//! `specs/Compiled` what it means that an object is compiled from a module. What is made here takes
//! time and memory linear in the registers and functions.
#![tactic(auto)]

pub mod compile;
pub mod homes;
pub mod names;
pub mod object;
