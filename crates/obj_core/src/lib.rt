//! Objects: programs whose code has no address yet, their machine, and the places where layouts put code.
//!
//! `specs/Object.antt` spells an object as bytes, `specs/WellFormed.antt` says what a well-formed one
//! is, `specs/SymbolicMachine.antt` runs one without any code address, and `specs/Layout.antt` is its
//! image for a layout seed. Functions reach other code by slots alone, whose addresses are public:
//! `SlotAddr`, of which `ReadBuilder` makes readable segments. Those of code are `Hidden`: a `CodePlan`
//! gives them, and `CodeBuilder` writes them as displacements into segments that may be run alone.
//! `plan` has what a compiler decides before it writes code.
#![tactic(auto)]

pub mod address;
mod bytes;
pub mod checked;
pub mod code;
pub mod law;
mod limits;
pub mod object;
mod order;
mod piece;
mod placed;
pub mod plan;
pub mod readable;
mod row;
mod run;
mod runs;
#[cfg(test)]
mod tests;
