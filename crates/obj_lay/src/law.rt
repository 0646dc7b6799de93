//! Laws of images that hold an object, as the contracts of functions that do nothing.
//!
//! `lay` says of its own image what it shows. Here the same is said of every image that holds an
//! object, wherever its code stands (`specs/Held.antt`), and of what an image means. That bytes at
//! the addresses of places are enough for it, is `specs/Places.antt`. All of it holds until the
//! object's run strays: goes by a word that is no slot's address and none behind a slot's call.

ghost use Rattle.std.specs.Prelude.{◌≡◌, ◌≢◌, ℕ, List as Row, Bool};
ghost use Rattle.behavior.specs.Ending.{Strayed};
ghost use Rattle.behavior.specs.Moment.{AreBytes, Behavior};
ghost use Rattle.behavior.specs.Preserves.{Preserves};
ghost use Rattle.x86_core.specs.declared.image.Image.{Image as Picture};
ghost use Rattle.x86_core.specs.declared.image.Segment.{Segment};
ghost use Rattle.x86_core.specs.Machine.{machine_behavior};
ghost use Rattle.obj_core.specs.declared.object.Object.{Object};
ghost use Rattle.obj_core.specs.declared.object.Place.{Place};
ghost use Rattle.obj_core.specs.SymbolicMachine.{symbolic_behavior};
ghost use Rattle.obj_core.specs.WellFormed.{IsWellFormed};
ghost use Rattle.obj_core.specs.Layout.{layout};
ghost use Rattle.obj_lay.specs.Held.{HoldsObject, HoldsPlaces};
ghost use Rattle.obj_lay.specs.Places.{HoldsInstrs, is_step_place};
ghost use Rattle.obj_lay.specs.Hidden.{ShowsObject};

/// Bytes that hold each instruction and each slot of a well-formed object hold the object.
pub fn instructions_hold_the_object()
    ensures { (exec : Row Segment) (place : Place → ℕ) (o : Object) (well : IsWellFormed o) →
        HoldsInstrs exec place o well.disassemblies →
        HoldsPlaces exec place (is_step_place o well.disassemblies) o }
{}

/// An image that holds an object shows what the object shows, wherever it has its code.
pub fn images_show_the_object()
    ensures { (image : Picture) (place : Place → ℕ) (is_place : Place → Bool) (o : Object) →
        HoldsObject image place is_place o → ShowsObject image o }
{}

/// A layout means what its object means, for a program that never strays.
pub fn layout_preserves()
    ensures { (o : Object) → IsWellFormed o → (seed : ℕ) (A : Behavior) →
        ((input : Row ℕ) → AreBytes input → (k : ℕ) → (A input k).ending ≢ Strayed) →
        Preserves A (symbolic_behavior o) → Preserves A (machine_behavior (layout o seed)) }
{}
