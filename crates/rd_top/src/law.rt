//! What holds of all layouts of an object, whatever their seeds.

ghost use Rattle.std.specs.Prelude.{◌≡◌, ℕ, List as Row, true};
ghost use Rattle.obj_core.specs.declared.object.Object.{Object};
ghost use Rattle.obj_core.specs.Layout.{layout};
ghost use Rattle.obj_core.specs.WellFormed.{IsWellFormed};
ghost use Rattle.watch_script.specs.declared.event.Event.{Event};
ghost use Rattle.watch_script.specs.Events.{are_in_order};
ghost use Rattle.rd_top.specs.Hiding.{ReportsAsObject, StaysStraight};
ghost use Rattle.rd_top.specs.Machines.{report_on};

/// A law: a layout of a well-formed object gives the report that the object's own run gives, and so do
/// all of them, whatever the seeds, on every script by whose last event the object hasn't strayed.
pub fn layouts_answer_the_same()
    ensures object { (o : Object) → IsWellFormed o → (seed : ℕ) →
        ReportsAsObject (layout o seed) o }
    ensures each_other { (o : Object) → IsWellFormed o → (seed : ℕ) (other : ℕ) (input : Row ℕ)
        (events : Row Event) → are_in_order 0 events ≡ true →
        StaysStraight o input events →
        report_on (layout o seed) events input ≡ report_on (layout o other) events input }
{}
