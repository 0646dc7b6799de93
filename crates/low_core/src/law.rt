//! Laws of programs without phis, and of programs of registers.

ghost use Rattle.std.specs.Prelude.{◌≡◌, ℕ, ◌<◌, List};
ghost use Rattle.ir_core.specs.declared.module.Module.{Module};
ghost use Rattle.low_core.specs.Plain.{plain, bodies_of};
ghost use Rattle.low_core.specs.declared.sel.Sel.{Sel};
ghost use Rattle.low_core.specs.Plan.{Plan, Content};
ghost use Rattle.low_core.specs.SelShaped.{IsSel};
ghost use Rattle.low_core.specs.SelWeights.{most_slots_of};
ghost use Rattle.low_core.specs.SelRun.{SelAddsByteByByte, SelStaysStopped};

/// Every module is one that some bodies stand for, those of its own blocks: with a copy in place of a
/// `freeze`, which a program without phis has no other word for.
#[tactic(auto, using(crate::proofs::Own::own_module))]
pub fn own_blocks_stand_for_themselves()
    ensures { (m : Module) → plain m (bodies_of m) ≡ m }
{}

/// What every run of a program of registers has: a step prints at most one byte or takes at most one
/// and then the run goes on, and a run that has stopped stays as it is.
pub fn register_runs()
    ensures adds { (sel : Sel) (plan : Plan) (contents : List Content) (input : List ℕ) →
        SelAddsByteByByte sel plan contents input }
    ensures stays { (sel : Sel) (plan : Plan) (contents : List Content) (input : List ℕ) →
        SelStaysStopped sel plan contents input }
{}

/// A function and each kind of call weigh so much that no program of registers asks for more slots
/// than an object can have.
#[tactic(auto, using(crate::proofs::FewSlots::few_slots))]
pub fn slots_are_few()
    ensures { (sel : Sel) → IsSel sel → most_slots_of sel < 1048576 }
{}
