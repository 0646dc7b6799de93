//! Runs of valid modules keep the types of their modules: no run comes to the malformed stop.
//!
//! The functions below are laws and do nothing. `specs/Typed` says block by block what the rules of
//! types leave of a valid module, `specs/WellTyped` what then holds of every state of its runs: where
//! calls stand, of which kinds their locals are, what objects hold, which of them are those of
//! globals, and behind which calls callers wait. Passes stand on these. What a step does and which
//! modules are valid stands in `ir_core`.
#![tactic(auto)]

ghost use Rattle.std.specs.Prelude.{◌≢◌, ℕ, List, Err};
ghost use Rattle.behavior.specs.Ending.{Left as IsLeft};
ghost use Rattle.behavior.specs.Moment.{AreBytes};
ghost use Rattle.behavior.specs.System.{iter};
ghost use Rattle.ir_core.specs.declared.module.Module.{Module};
ghost use Rattle.ir_core.specs.Stops.{Malformed, malformed_number};
ghost use Rattle.ir_core.specs.State.{State};
ghost use Rattle.ir_core.specs.Step.{source_step, turn_of};
ghost use Rattle.ir_core.specs.Run.{source_start, source_run};
ghost use Rattle.ir_core.specs.Refusals.{IsValid};
ghost use Rattle.ir_sound.specs.Typed.{IsTyped};
ghost use Rattle.ir_sound.specs.WellTyped.{IsWellTyped};

/// No run of a valid module comes to the malformed stop, whatever bytes it takes.
pub fn never_malformed()
    ensures { (m : Module) (input : List ℕ) (n : ℕ) → ∥ IsValid m ∥₁ → AreBytes input →
        (source_run m input n).ending ≢ IsLeft malformed_number }
{}

/// A valid module is typed: blocks whose instructions fit the kinds of their function's locals,
/// phis with an entry for each edge, edges to blocks, an entry block without phis, a `main`, and
/// globals that begin with as many bytes as their types have.
pub fn valid_is_typed()
    ensures { (m : Module) → ∥ IsValid m ∥₁ → IsTyped m }
{}

/// Each state of a run of a typed module is well typed: the first is, a step keeps it so, and what
/// such a state does next isn't malformed.
pub fn stays_typed()
    ensures start { (m : Module) → IsTyped m → IsWellTyped m (source_start m) }
    ensures step { (m : Module) (input : List ℕ) (s : State) → IsTyped m → AreBytes input →
        IsWellTyped m s → IsWellTyped m (source_step m input s) }
    ensures turn { (m : Module) (input : List ℕ) (s : State) → IsTyped m → AreBytes input →
        IsWellTyped m s → turn_of m input s s.frames ≢ Err Malformed }
    ensures states { (m : Module) (input : List ℕ) (n : ℕ) → IsTyped m → AreBytes input →
        IsWellTyped m (iter (source_step m input) n (source_start m)) }
{}
