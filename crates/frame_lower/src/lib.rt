//! The code of functions: what each operation, call and end becomes, in frames, blocks and whole functions.
//!
//! `specs/Frames` says how a frame is laid out, `specs/Calls` how arguments go, `specs/Rows` and
//! `specs/Blocks` what rows there are, and `specs/Functions` what a function of an object they make.
//! `maker` has what the code of a function is made by; its calls write the code, exactly that. `frame`
//! has where homes are, and `program` a function of a program with all of this.
//! Displacements are counted from lengths that are the same wherever a block stands.
#![tactic(auto)]

pub mod blocks;
pub mod calls;
pub mod code;
pub mod ends;
pub mod frame;
pub mod function;
pub mod law;
pub mod lower;
pub mod maker;
pub mod ops;
pub mod program;
