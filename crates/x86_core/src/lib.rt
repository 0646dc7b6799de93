//! Registers, flags, instructions, what each instruction does, and the image of a program.
//!
//! The instructions are a subset of the x86-64 integer instructions, the rows of
//! `docs/instructions.md`. `reg` and `flags` have the state, `instr` the instructions in the rows'
//! order, `effect` what one does to registers, flags, memory and the next place, `apply` the same in
//! place, and `image` the program that a machine starts from. How an instruction is spelled is
//! defined in `specs/Encoding.antt` and `specs/Decoding.antt`; `x86_encode` and `x86_decode` do it.
//! Source: Intel 64 and IA-32 Architectures Software Developer's Manual, volume 2.
#![tactic(auto)]

mod alu;
pub mod apply;
mod condition;
mod divide;
pub mod effect;
pub mod flags;
pub mod image;
pub mod instr;
pub mod reg;
mod shift;
pub mod step;
#[cfg(test)]
mod tests;
mod widen;
