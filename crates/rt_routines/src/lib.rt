//! The six routines that stand behind the functions of every object: their code, and what each does.
//!
//! `specs/Code` has the rows of all six, and `routines` writes them, exactly these, for a plan of
//! slots, of which the last five are theirs. `law` says of each row what it does wherever it stands,
//! in the words of `obj_rows`, with a bound on its steps; of the six of a plan, that they keep the
//! rules of objects by themselves and are linked once to each slot of theirs; and of each object
//! that is put together with them, that they do what they should in it. Offsets count bytes from
//! a routine's start.
#![tactic(auto)]

ghost use Rattle.std.specs.Prelude.{◌≡◌, ◌<◌, ◌≤◌, ◌^◌, IfOk, length};
ghost use Rattle.rt_routines.specs.Code.{routines_of};

mod code;
pub mod law;
mod routine;

use obj_core::object::Func;
use obj_core::plan::SlotPlan;
use rd_num::list::List;
use rd_num::width::NoMemory;
use std::alloc::Global;

/// The six routines of a plan, whose last five slots are theirs.
#[tactic(auto, unfolding(crate::specs::Code::routines_of))]
pub fn routines(alloc: Global, slots: &SlotPlan) -> Result<List<Func>, NoMemory>
    requires some { 6 ≤ length slots.now.slots }
    requires few { length slots.now.slots < 2 ^ 20 }
    ensures is { IfOk result (λ all. all ≡ routines_of slots.now) }
{
    let first = (slots.slots.len() - 5) as u32;
    let mut all = List::new(alloc);
    all.add(routine::start(alloc, first, first + 1)?)?;
    all.add(routine::putchar(alloc, first + 2)?)?;
    all.add(routine::getchar(alloc, first + 3)?)?;
    all.add(routine::exit(alloc, first + 4)?)?;
    all.add(routine::memcpy(alloc)?)?;
    all.add(routine::memset(alloc)?)?;
    Ok(all)
}
