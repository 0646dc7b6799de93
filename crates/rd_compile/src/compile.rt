//! The whole row of passes, from a valid module to an object.

ghost use Rattle.std.specs.Prelude.{◌≡◌, All, IfOk, length};
ghost use Rattle.behavior.specs.Preserves.{Preserves, ReachesWithin};
ghost use Rattle.ir_core.specs.Run.{source_run};
ghost use Rattle.low_core.specs.declared.sel.SelFun.{SelFun};
ghost use Rattle.low_core.specs.Contents.{data_bytes};
ghost use Rattle.low_core.specs.Plan.{NamesOneOf, Plan, PlanFits};
ghost use Rattle.low_core.specs.SelParts.{ops_of};
ghost use Rattle.low_core.specs.SelRun.{sel_run};
ghost use Rattle.low_core.specs.SelShaped.{IsSel};
ghost use Rattle.rd_compile.specs.Compiled.{IsCompiledFrom};
ghost use Rattle.rd_compile.specs.Program.{program_of, program_steps};

use crate::object::object_of;
use ir_core::valid::Valid;
use low_core::sel::Sel;
use obj_check::known::numbers_known;
use obj_core::checked::Checked;
use obj_core::object::Object;
use rd_num::width::NoMemory;
use std::alloc::Global;

/// The program of registers that a valid module becomes. Under each plan that fits, it shows what
/// the module shows; a step of the module is met within so many as `program_steps` says.
pub fn program(alloc: Global, valid: &Valid) -> Result<Sel, NoMemory>
    ensures is { IfOk result (λ sel. sel ≡ program_of valid.now.kept) }
    ensures shaped { IfOk result IsSel }
    ensures names { IfOk result (λ sel. All (λ (f : SelFun).
        All (NamesOneOf (length valid.now.kept.globals)) (ops_of f)) sel.functions) }
    ensures keeps { IfOk result (λ sel. (plan : Plan) →
        PlanFits sel (data_bytes valid.now.kept plan) plan →
        Preserves (source_run valid.now.kept) (sel_run sel plan (data_bytes valid.now.kept plan))) }
    ensures within { IfOk result (λ sel. (plan : Plan) →
        PlanFits sel (data_bytes valid.now.kept plan) plan →
        ReachesWithin 0 (program_steps valid.now.kept)
        (source_run valid.now.kept) (sel_run sel plan (data_bytes valid.now.kept plan))) }
{
    let low = phi_lower::lower(alloc, valid)?;
    let lean = switch_lower::lower(alloc, &low)?;
    let sel = isel::select(alloc, &lean)?;
    Ok(sel)
}

/// The object of a valid module, by a seed for the places of slots and one for the names of
/// registers. It shows what the module shows; a step of the module is met within so many steps of
/// the object as both bounds say. Time and memory are near linear in the module.
fn object(alloc: Global, valid: &Valid, slot_seed: u64, reg_seed: u64) -> Result<Object, NoMemory>
    ensures { IfOk result (IsCompiledFrom valid.now.kept slot_seed reg_seed) }
{
    let sel = program(alloc, valid)?;
    let o = object_of(alloc, valid, &sel, slot_seed, reg_seed)?;
    numbers_known(&o);
    Ok(o)
}

/// The object of a valid module, with both seeds: it does exactly what the module means.
pub fn compile(
    alloc: Global,
    valid: &Valid,
    slot_seed: u64,
    reg_seed: u64,
) -> Result<Checked, NoMemory>
    ensures { IfOk result (λ c. IsCompiledFrom valid.now.kept slot_seed reg_seed c.object) }
{
    let o = object(alloc, valid, slot_seed, reg_seed)?;
    Ok(Checked::new(o))
}
