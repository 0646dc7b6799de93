//! Programs that are run: the meaning of a module, step by step.
//!
//! `state` has the calls and the memory of a run, with `stack` for both; `start` is the first one.
//! `reading` and `along` have what the instructions of a call read, `outer` the functions outside
//! of the module, `calling` calls and returns, `leaving` the ends of blocks, and `turn` what the
//! innermost call does next; `fault` says why there is nothing next. `run` takes steps between a
//! source and a sink. What a step is stands in `ir_core`, `specs/Step` and `specs/Calls`; when a
//! run over numbers stands for one over names, in `specs/Standing`.
#![tactic(auto)]

pub mod along;
pub mod calling;
pub mod fault;
pub mod leaving;
pub mod outer;
pub mod reading;
pub mod run;
pub mod stack;
pub mod start;
pub mod state;
pub mod turn;
