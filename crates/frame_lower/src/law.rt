//! Laws of the functions of a program, which do nothing.

ghost use Rattle.std.specs.Prelude.{◌≡◌, ◌+◌, ◌≤◌, ℕ, List, length};
ghost use Rattle.behavior.specs.Preserves.{Preserves, ReachesWithin};
ghost use Rattle.ir_core.specs.declared.TheConstants.{MAX_CALLS};
ghost use Rattle.low_core.specs.declared.sel.Sel.{Sel};
ghost use Rattle.low_core.specs.Plan.{Content, PlanFits};
ghost use Rattle.low_core.specs.SelRun.{sel_run};
ghost use Rattle.obj_core.specs.declared.object.Func.{Func};
ghost use Rattle.obj_core.specs.declared.object.Object.{Object};
ghost use Rattle.obj_core.specs.Object.{IsObject};
ghost use Rattle.obj_core.specs.SymbolicMachine.{symbolic_behavior};
ghost use Rattle.obj_core.specs.WellFormed.{most_data, IsWellFormed};
ghost use Rattle.obj_rows.specs.Assembled.{IsAssembled, LinkOnce};
ghost use Rattle.obj_rows.specs.Routines.{AreRoutines};
ghost use Rattle.obj_rows.specs.Sound.{AreSound};
ghost use Rattle.slot_plan.specs.Slots.{slots_of};
ghost use Rattle.frame_lower.specs.Functions.{Choices, lowered};
ghost use Rattle.frame_lower.specs.Given.{AreChosen};
ghost use Rattle.frame_lower.specs.Meaning.{IsHeld, most_steps};
ghost use Rattle.frame_lower.specs.Planned.{plan_of, HaveOwn};

/// A program becomes as many functions as it has. Each planned slot that comes back is linked once
/// in them where its jump stands in one of them, and else not at all.
pub fn functions_of_a_program()
    ensures many { (c : Choices) (sel : Sel) → length (lowered c sel) ≡ length sel.functions }
    ensures linked { (c : Choices) (sel : Sel) → LinkOnce 0 (lowered c sel) (slots_of sel) }
{}

/// An object that is put together of these functions and of sound routines is well formed, where all
/// registers live in frames.
pub fn objects_are_well_formed()
    ensures { (c : Choices) (sel : Sel) (slot_draw : ℕ) (routines : List Func) (o : Object) →
        AreChosen c sel slot_draw →
        IsAssembled (lowered c sel) routines c.slots c.placing slot_draw c.reg_seed o →
        AreSound routines c.slots → IsObject o → length o.ro + length o.rw ≤ most_data →
        IsWellFormed o }
{}

/// Such an object shows what the program shows, with addresses and frames as they were chosen, where
/// each register has a word of the frame of its own, the routines do what they should, and memory
/// holds the globals; a step of the program is met within so many steps as `most_steps` says.
pub fn objects_mean_what_programs_mean()
    ensures keeps { (c : Choices) (sel : Sel) (slot_draw : ℕ) (routines : List Func) (o : Object)
        (contents : List Content) → AreChosen c sel slot_draw → HaveOwn sel.functions c.homes →
        IsAssembled (lowered c sel) routines c.slots c.placing slot_draw c.reg_seed o →
        PlanFits sel contents (plan_of c sel) →
        AreRoutines o (length sel.functions) sel.main MAX_CALLS →
        length o.ro + length o.rw ≤ most_data → IsHeld c contents o → IsObject o →
        Preserves (sel_run sel (plan_of c sel) contents) (symbolic_behavior o) }
    ensures within { (c : Choices) (sel : Sel) (slot_draw : ℕ) (routines : List Func) (o : Object)
        (contents : List Content) → AreChosen c sel slot_draw → HaveOwn sel.functions c.homes →
        IsAssembled (lowered c sel) routines c.slots c.placing slot_draw c.reg_seed o →
        PlanFits sel contents (plan_of c sel) →
        AreRoutines o (length sel.functions) sel.main MAX_CALLS →
        length o.ro + length o.rw ≤ most_data → IsHeld c contents o → IsObject o →
        ReachesWithin most_steps most_steps (sel_run sel (plan_of c sel) contents)
        (symbolic_behavior o) }
{}
