//! Objects put together of functions, routines, planned slots and placed data.
//!
//! A planned slot says in which function the jump to it stands; the way back of a slot is the place
//! behind that jump:
//!
//!     slot 7: a call of function 3, whose jump is the second of function 1
//!
//! becomes a call of function 3 that goes back to function 1 behind the jump that is linked to slot 7.
//! Time is linear in the links and slots. What such an object is stands in `obj_rows`
//! (`specs/Assembled`).
#![tactic(auto)]

ghost use Rattle.std.specs.Prelude.{◌≡◌, ◌+◌, ◌<◌, ◌^◌, ◌++◌, length, IfOk};
ghost use Rattle.obj_rows.specs.Assembled.{AreSlotsOf};
ghost use Rattle.obj_assemble.specs.Linked.{AreLinked};

mod copies;
mod ends;
mod slots;

use copies::add_copies;
use ends::ends_of;
use obj_core::object::{Func, Object};
use obj_core::plan::{Placing, SlotPlan};
use rd_num::list::List;
use rd_num::width::NoMemory;
use slots::slots;
use std::alloc::Global;

/// An object of these functions with the routines behind them, whose slots come back behind their
/// jumps.
pub fn assemble(
    alloc: Global,
    functions: List<Func>,
    routines: &List<Func>,
    plan: &SlotPlan,
    placing: Placing,
    slot_seed: u64,
    reg_seed: u64,
) -> Result<Object, NoMemory>
    requires few { length functions + length routines.now < 2 ^ 32 }
    requires linked { AreLinked (functions ++ routines.now) plan.now.slots }
    ensures functions { IfOk result (λ o. o.functions ≡ functions ++ routines.now) }
    ensures slots { IfOk result (λ o. AreSlotsOf o.functions 0 plan.now.slots o.slots) }
    ensures ro { IfOk result (λ o. o.ro ≡ placing.ro) }
    ensures rw { IfOk result (λ o. o.rw ≡ placing.rw) }
    ensures slot_seed { IfOk result (λ o. o.slot_seed ≡ slot_seed) }
    ensures reg_seed { IfOk result (λ o. o.reg_seed ≡ reg_seed) }
{
    let mut all = functions;
    add_copies(alloc, &mut all, routines.as_slice())?;
    let ends = ends_of(alloc, plan.slots.len(), all.as_slice())?;
    let slots = slots(alloc, plan.slots.as_slice(), ends.as_slice())?;
    Ok(Object {
        slot_seed,
        reg_seed,
        functions: all,
        slots,
        ro: placing.ro,
        rw: placing.rw,
    })
}
