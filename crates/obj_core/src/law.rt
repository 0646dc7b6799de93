//! Laws of the machine of objects, as the contracts of functions that do nothing.
//!
//! A run comes to a place by a word only where the word lands: at the start of a slot, or behind its
//! call. Which words do is a search in `specs/SymbolicMachine.antt`; here it is said without one, by
//! `specs/Landing.antt`. By any other word the run strays. Addresses count bytes. Nothing here runs.

ghost use Rattle.std.specs.Prelude.{◌≡◌, ◌≤◌, ◌↔◌, ◌++◌, ℕ, List as Row, Some};
ghost use Rattle.behavior.specs.Ending.{Strayed};
ghost use Rattle.x86_core.specs.Run.{Act};
ghost use Rattle.obj_core.specs.declared.object.Object.{Object as Program};
ghost use Rattle.obj_core.specs.declared.object.Place.{Place as Spot};
ghost use Rattle.obj_core.specs.SymbolicMachine.{symbolic_behavior, symbolic_land, symbolic_run};
ghost use Rattle.obj_core.specs.Landing.{LandsAt};

/// Slot k's address lands at its start, that plus 5 behind its call, and no other word lands.
pub fn words_that_land()
    ensures { (o : Program) (w : ℕ) (p : Spot) → (symbolic_land o w ≡ Some p) ↔ LandsAt o w p }
{}

/// A run that has strayed stays so, after more acts and after more steps: so it is enough to ask
/// at the last of some events whether the run has strayed.
pub fn strays_stay()
    ensures acts { (o : Program) (input : Row ℕ) (acts more : Row Act) →
        (symbolic_run o input acts).ending ≡ Strayed →
        (symbolic_run o input (acts ++ more)).ending ≡ Strayed }
    ensures steps { (o : Program) (input : Row ℕ) (n m : ℕ) → n ≤ m →
        (symbolic_behavior o input n).ending ≡ Strayed →
        (symbolic_behavior o input m).ending ≡ Strayed }
{}
