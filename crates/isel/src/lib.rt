//! What is selected means the same: a program without switches, and the program of registers that it becomes.
//!
//! Which operations an instruction becomes stands in `isel_rows`. Here stand the proofs that both
//! programs show the same, whatever plan of addresses fits, and how many steps of the second a step
//! of the first becomes at most: `specs/Bound`. `proofs/Beside` has what ties a state of a run to one
//! of the other program, and the files `proofs/Shape*` show that the second keeps its rules.
#![tactic(auto)]

ghost use Rattle.std.specs.Prelude.{◌≡◌, ◌≤◌, All, IfOk, length};
ghost use Rattle.behavior.specs.Preserves.{Preserves, ReachesWithin};
ghost use Rattle.low_core.specs.Contents.{data_bytes};
ghost use Rattle.low_core.specs.Plain.{plain, moves_run};
ghost use Rattle.low_core.specs.declared.sel.SelFun.{SelFun};
ghost use Rattle.low_core.specs.Plan.{NamesOneOf, Plan, PlanFits};
ghost use Rattle.low_core.specs.SelParts.{ops_of};
ghost use Rattle.low_core.specs.SelRun.{sel_run};
ghost use Rattle.low_core.specs.SelShaped.{IsSel};
ghost use Rattle.low_core.specs.SelWeights.{sel_weight, sel_returns_of, calls_by_address_of};
ghost use Rattle.low_core.specs.Shaped.{IsLean, returns_of, local_calls_of};
ghost use Rattle.low_core.specs.Weights.{weight};
ghost use Rattle.isel_rows.specs.Selected.{selected};
ghost use Rattle.isel.specs.Bound.{longest};

use isel_rows::program::select_program;
use low_core::moves::Lean;
use low_core::sel::Sel;
use rd_num::width::NoMemory;
use std::alloc::Global;

/// A program of registers that means what a program without switches means.
///
/// `is` says which it is. It shows the same under each plan that fits: one that gives it addresses
/// and frames, and the globals what these addresses make of them. A step of the program is met by at
/// least one step and at most so many as `longest` says.
pub fn select<'a>(alloc: Global, lean: &Lean<'a>) -> Result<Sel, NoMemory>
    requires { IsLean lean.now }
    ensures is { IfOk result (λ sel. sel ≡ selected lean.now.base.now lean.now.bodies) }
    ensures shaped { IfOk result IsSel }
    ensures keeps { IfOk result (λ sel. (plan : Plan) →
        PlanFits sel (data_bytes lean.now.base.now plan) plan →
        Preserves (moves_run lean.now.base.now lean.now.bodies)
        (sel_run sel plan (data_bytes lean.now.base.now plan))) }
    ensures within { IfOk result (λ sel. (plan : Plan) →
        PlanFits sel (data_bytes lean.now.base.now plan) plan →
        ReachesWithin 0 (longest sel) (moves_run lean.now.base.now lean.now.bodies)
        (sel_run sel plan (data_bytes lean.now.base.now plan))) }
    ensures weighs { IfOk result (λ sel.
        sel_weight sel ≤ weight (plain lean.now.base.now lean.now.bodies)) }
    ensures returns { IfOk result (λ sel.
        sel_returns_of sel ≤ returns_of (plain lean.now.base.now lean.now.bodies)) }
    ensures calls { IfOk result (λ sel. calls_by_address_of sel
        ≤ local_calls_of (plain lean.now.base.now lean.now.bodies)) }
    ensures functions { IfOk result (λ sel.
        length sel.functions ≡ length lean.now.base.now.functions) }
    ensures names { IfOk result (λ sel. All (λ (f : SelFun).
        All (NamesOneOf (length lean.now.base.now.globals)) (ops_of f)) sel.functions) }
{
    let sel = select_program(alloc, lean)?;
    Ok(sel)
}
