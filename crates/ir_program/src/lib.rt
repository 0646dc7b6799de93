//! Modules with numbers in place of names, ready to be run.
//!
//! `action` says what instructions do, `phi` what phis take, `exit` how blocks end, and `program` has
//! functions and modules. Where operands come from and how far indices lead stands in `ir_context`.
//! What each part is made of stands in `specs/`, and `specs/Reads` has what it gives in a run.
#![tactic(auto)]

pub mod action;
pub mod exit;
mod phi;
pub mod program;
