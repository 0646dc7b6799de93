//! The object of a program of registers and of a module's data.

ghost use Rattle.std.specs.Prelude.{◌≡◌, IfOk};
ghost use Rattle.low_core.specs.SelShaped.{IsSel};
ghost use Rattle.obj_core.specs.WellFormed.{IsWellFormed};
ghost use Rattle.obj_rows.specs.Assembled.{most_cuts, with_first_cuts, IsAssembled};
ghost use Rattle.slot_plan.specs.Slots.{IsPlan};
ghost use Rattle.rt_routines.specs.Code.{routines_of};
ghost use Rattle.frame_lower.specs.Functions.{lowered};
ghost use Rattle.frame_lower.specs.Given.{AreChosen};
ghost use Rattle.rd_compile.specs.Passed.{choices_of, IsObjectOf};

use crate::homes::homes;
use crate::names::names;
use data_place::place;
use frame_lower::lower::lower;
use ir_core::valid::Valid;
use low_core::sel::Sel;
use obj_assemble::assemble;
use obj_check::known::numbers_known;
use obj_core::object::{Func, Object};
use obj_core::plan::{Placing, SlotPlan};
use rd_num::list::List;
use rd_num::width::NoMemory;
use rt_routines::routines;
use slot_plan::plan;
use std::alloc::Global;

/// The functions of a program, each register in a word of its own.
fn functions_of(
    alloc: Global,
    sel: &Sel,
    reg_seed: u64,
    placing: &Placing,
    slots: &SlotPlan,
) -> Result<List<Func>, NoMemory>
    requires { IsSel sel.now }
    ensures { IfOk result (λ l. l ≡ with_first_cuts most_cuts
        (lowered (choices_of sel.now reg_seed slots.now placing.now) sel.now)) }
{
    let homes = homes(alloc, sel)?;
    let names = names(alloc, reg_seed, sel.functions.len() as u32)?;
    lower(alloc, sel, &homes, reg_seed, &names, placing, slots)
}

/// An object of a program's functions, with the routines behind them.
fn joined(
    alloc: Global,
    sel: &Sel,
    functions: List<Func>,
    slots: &SlotPlan,
    placing: Placing,
    slot_seed: u64,
    reg_seed: u64,
) -> Result<Object, NoMemory>
    requires chosen { AreChosen (choices_of sel.now reg_seed slots.now placing) sel.now slot_seed }
    requires functions { functions ≡ with_first_cuts most_cuts
        (lowered (choices_of sel.now reg_seed slots.now placing) sel.now) }
    ensures { IfOk result (λ o. IsAssembled
        (lowered (choices_of sel.now reg_seed slots.now placing) sel.now) (routines_of slots.now)
        slots.now placing slot_seed reg_seed o) }
{
    let routines = routines(alloc, slots)?;
    assemble(
        alloc, functions, &routines, slots, placing, slot_seed, reg_seed,
    )
}

/// The object of a program of registers, with the data of a valid module.
pub fn object_of(
    alloc: Global,
    valid: &Valid,
    sel: &Sel,
    slot_seed: u64,
    reg_seed: u64,
) -> Result<Object, NoMemory>
    requires { IsSel sel.now }
    ensures is { IfOk result (λ o. IsObjectOf valid.now.kept sel.now slot_seed reg_seed o) }
    ensures well_formed { IfOk result IsWellFormed }
{
    let slots = plan(alloc, sel, slot_seed)?;
    let placing = place(alloc, valid, &slots.pointers)?;
    let functions = functions_of(alloc, sel, reg_seed, &placing, &slots)?;
    let o = joined(alloc, sel, functions, &slots, placing, slot_seed, reg_seed)?;
    numbers_known(&o);
    Ok(o)
}
