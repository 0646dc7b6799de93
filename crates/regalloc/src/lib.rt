//! Homes for the registers of programs: five colours, and words of the frame.
//!
//! Registers that are in use at one position have different homes. `specs/Allocated` has what is
//! said of the homes. For now a register that occurs is taken to be in use in all of its function, so
//! that the first five of each get colours. Time and memory are linear.
#![tactic(auto)]

pub mod allocate;
mod occurs;
pub mod range;
mod scan;
mod whole;
