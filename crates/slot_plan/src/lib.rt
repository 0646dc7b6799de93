//! The slots of a program of registers: which there are, and where they stand.
//!
//! Each call has a slot of its own, so that the way back is known by the slot alone, and each function
//! to which a pointer may arise has a jump, whose address is the pointer. `specs/Slots` has their
//! order. Positions are drawn by the slot seed. Time and memory are linear in operations and slots.
#![tactic(auto)]

ghost use Rattle.std.specs.Prelude.{◌≡◌, ◌<◌, ◌^◌, ◌++◌, All, IfOk, OnOk, length};
ghost use Rattle.low_core.specs.SelShaped.{IsSel};
ghost use Rattle.slot_plan.specs.Slots.{jumps_from, pointers_from, routine_slots, slots_of, takens, IsPlan};

mod calls;

use crate::calls::add_functions;
use low_core::sel::Sel;
use obj_core::address::SlotAddr;
use obj_core::plan::{Site, Slot0, SlotPlan};
use rd_draw::perm;
use rd_num::list::List;
use rd_num::width::NoMemory;
use std::alloc::Global;

/// What the positions of slots are drawn for.
const SLOT_PURPOSE: u32 = 2;

/// Adds a jump for each function to which a pointer may arise.
fn add_jumps(slots: &mut List<Slot0>, taken: &[bool]) -> Result<(), NoMemory>
    requires { length taken.now < 2 ^ 32 }
    ensures { OnOk result (slots.new ≡ slots.old ++ jumps_from 0 taken.now) }
{
    for f in 0..taken.len() {
        if taken[f] {
            slots.add(Slot0::Jump { target: f as u32 })?;
        }
    }
    Ok(())
}

/// Adds the slots of the routines, the first of which is the function of number `count`.
fn add_routines(slots: &mut List<Slot0>, count: u32, main: u32) -> Result<(), NoMemory>
    requires { count < 2 ^ 20 }
    ensures { OnOk result (slots.new ≡ slots.old ++ routine_slots count main) }
{
    let ends = Site {
        function: count,
        number: 1,
    };
    slots.add(Slot0::Call {
        target: main,
        site: first_site(count),
    })?;
    slots.add(Slot0::System { site: ends })?;
    slots.add(Slot0::System {
        site: first_site(count + 1),
    })?;
    slots.add(Slot0::System {
        site: first_site(count + 2),
    })?;
    slots.add(Slot0::System {
        site: first_site(count + 3),
    })?;
    Ok(())
}

/// The first jump of a function.
fn first_site(function: u32) -> Site
    ensures { result ≡ record { function = function; number = 0 } }
{
    Site {
        function,
        number: 0,
    }
}

/// All slots in their order.
fn all_slots(alloc: Global, sel: &Sel) -> Result<List<Slot0>, NoMemory>
    requires { IsSel sel.now }
    ensures { IfOk result (λ l. l ≡ slots_of sel.now) }
{
    let count = sel.functions.len() as u32;
    let mut slots = List::new(alloc);
    slots.add(Slot0::Entry { target: count })?;
    add_jumps(&mut slots, sel.taken.as_slice())?;
    add_functions(&mut slots, count, sel.functions.as_slice())?;
    add_routines(&mut slots, count, sel.main)?;
    Ok(slots)
}

/// An address for each function: that of its jump, or that of the first slot.
fn pointers(alloc: Global, positions: &[u32], taken: &[bool]) -> Result<List<SlotAddr>, NoMemory>
    requires enough { takens taken.now < length positions.now }
    requires small { All (λ p. p < 2 ^ 20) positions.now }
    ensures { IfOk result (λ l. l ≡ pointers_from positions.now 1 taken.now) }
{
    let mut all = List::new(alloc);
    let mut next = 1;
    for is_taken in taken {
        if *is_taken {
            all.add(SlotAddr::at(positions[next]))?;
            next += 1;
        } else {
            all.add(SlotAddr::at(positions[0]))?;
        }
    }
    Ok(all)
}

/// The slots of a program, their positions by the slot seed, and the pointers to functions.
pub fn plan(alloc: Global, sel: &Sel, slot_seed: u64) -> Result<SlotPlan, NoMemory>
    requires { IsSel sel.now }
    ensures { IfOk result (λ p. IsPlan sel.now slot_seed p) }
{
    let slots = all_slots(alloc, sel)?;
    let positions = perm(alloc, slot_seed, SLOT_PURPOSE, 0, slots.len() as u32)?;
    let pointers = pointers(alloc, positions.as_slice(), sel.taken.as_slice())?;
    Ok(SlotPlan {
        slots,
        positions,
        pointers,
    })
}
