//! The machine that runs images: one instruction a step, over a memory whose code may be hidden.
//!
//! `machine` has the value with its start, its steps and its readers, `context` all of it but the
//! memory, which is lent to each step, `step` what one instruction does, and `kernel` the three
//! system calls. What a machine is stands in `x86_core`, `specs/Machine.antt`. A step takes memory
//! only for a page that it is the first to write to, and a machine that has stopped stays as it is.
//! Source: Intel 64 and IA-32 Architectures Software Developer's Manual, volume 2, for instructions.
#![tactic(auto)]

pub mod context;
pub mod kernel;
pub mod machine;
pub mod step;
