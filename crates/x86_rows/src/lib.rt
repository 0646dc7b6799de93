//! Memory by addresses, and rows of instructions passed one after another: laws, without code.
//!
//! `specs/Addresses` has the byte at each address of a list of segments, `specs/Straight` what a
//! row does to registers, flags and segments, wherever it stands: it is passed, it stops, or it
//! leads away. The table of effects, `x86_core`'s `specs/Effect`, is opened in `proofs/Leaves`
//! alone, once for each kind of instruction. What a machine with places makes of a row is in
//! `obj_rows`.
#![tactic(auto)]

pub mod law;
