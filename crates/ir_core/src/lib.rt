//! Modules of the source language as values, the memory that they run over, and what they mean.
//!
//! `ty`, `operand`, `init`, `instruction` and `module` have the parts of a module, in the words of
//! its text; names carry no `@` or `%`. `memory` has the values of a run and the objects that hold
//! them, `values` those that are known before a run, and a `Stop` stops one. What a step does stands
//! in `specs/Step`, what a whole run shows in `specs/Run`.
//! Source: LLVM Language Reference, "High Level Structure" and "Instruction Reference", in the
//! integer profile of docs/languages.md.
#![tactic(auto)]

ghost use Rattle.std.specs.Prelude.{◌<◌, ℕ, List};
ghost use Rattle.ir_core.specs.declared.memory.Reason.{Reason};
ghost use Rattle.ir_core.specs.declared.module.Module.{Module};
ghost use Rattle.ir_core.specs.Stops.{malformed_number, reason_number};
ghost use Rattle.ir_core.specs.Run.{AddsByteByByte, EndsAsModules, StaysStopped};

pub mod init;
pub mod instruction;
pub mod kind;
pub mod limit;
pub mod memory;
pub mod module;
pub mod names;
pub mod operand;
pub mod outer;
pub mod scope;
pub mod size;
pub mod stop;
pub mod tables;
pub mod ty;
pub mod valid;
pub mod values;

/// How many calls can be active at once, the first call of `main` being one.
pub const MAX_CALLS: u32 = 8192;

/// What every run of a module has: a step prints at most one byte or takes at most one and then the
/// run goes on, a run that has stopped stays as it is, and none comes to an ending of machines alone.
/// The stop of a module that isn't valid is apart from all reasons for which a run is left.
pub fn run_laws()
    ensures adds { (m : Module) (input : List ℕ) → AddsByteByByte m input }
    ensures stays { (m : Module) (input : List ℕ) → StaysStopped m input }
    ensures endings { (m : Module) (input : List ℕ) → EndsAsModules m input }
    ensures apart { (r : Reason) → reason_number r < malformed_number }
{}
