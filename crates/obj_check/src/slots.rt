//! The rules of slots: their goals exist, and the first slot alone is the entry.
//!
//! Functions come in with what is noted of them, so that a way back is known to be the start of an
//! instruction by one look at a table. Slots are asked in their order, first all of them by rule 6 and
//! then by rule 7. Time is linear in the slots.

ghost use Rattle.std.specs.Prelude.{◌≡◌, ◌≤◌, ℕ, length, nat_lt};
ghost use Rattle.obj_core.specs.declared.object.Slot.{Slot as Trampoline};
ghost use Rattle.obj_core.specs.WellFormed.{is_start, is_good_slot, is_entry, agrees_with, in_slots, most_slots};
ghost use Rattle.obj_check.specs.Disassembled.{AreNoted, disassemblies_of};
ghost use Rattle.obj_check.specs.Least.{as_violation};
ghost use Rattle.obj_check.specs.Judging.{slot_violation};

use crate::fault::{Broken, ShapeSpot};
use crate::marks::is_marked;
use crate::notes::Notes;
use obj_core::object::{CodeAt, Func, Slot};

/// The first of rules 6 and 7 that fails, at its first slot.
pub fn first_bad_slot(functions: &[Func], noted: &[Notes], slots: &[Slot]) -> Option<Broken>
    requires noted { AreNoted functions.now noted.now }
    requires few { length slots.now ≤ most_slots }
    ensures { as_violation result ≡ slot_violation slots.now (disassemblies_of functions.now) }
{
    match first_bad_goal(functions, noted, slots) {
        Some(broken) => Some(broken),
        None => first_bad_entry(slots),
    }
}

/// The first slot whose target is no function or whose way back is no start of an instruction.
fn first_bad_goal(functions: &[Func], noted: &[Notes], slots: &[Slot]) -> Option<Broken>
    requires noted { AreNoted functions.now noted.now }
    requires few { length slots.now ≤ most_slots }
    ensures { as_violation result ≡ in_slots 6
        (λ (k : ℕ) (s : Trampoline). is_good_slot (disassemblies_of functions.now) s) 0 slots.now }
{
    for (k, slot) in slots.iter().enumerate() {
        if !is_good_slot(functions, noted, *slot) {
            return Some(broken_slot(6, k as u32));
        }
    }
    None
}

/// The first slot that is an entry and not the first one, or the first one where it is none.
fn first_bad_entry(slots: &[Slot]) -> Option<Broken>
    requires { length slots.now ≤ most_slots }
    ensures { as_violation result ≡ in_slots 7 agrees_with 0 slots.now }
{
    for (k, slot) in slots.iter().enumerate() {
        if is_entry(*slot) != (k == 0) {
            return Some(broken_slot(7, k as u32));
        }
    }
    None
}

/// A rule that fails at a slot.
fn broken_slot(rule: u8, slot: u32) -> Broken
    ensures { result ≡ record { rule = rule; spot = ShapeSpot.Slot slot; offset = 0 } }
{
    Broken {
        rule,
        spot: ShapeSpot::Slot(slot),
        offset: 0,
    }
}

/// Whether a slot's target is a function, and its way back the start of an instruction.
fn is_good_slot(functions: &[Func], noted: &[Notes], slot: Slot) -> bool
    requires { AreNoted functions.now noted.now }
    ensures { result ≡ is_good_slot (disassemblies_of functions.now) slot }
{
    match slot {
        Slot::Entry { target } => is_function(functions, target),
        Slot::Jump { target } => is_function(functions, target),
        Slot::Call { target, back } => is_function(functions, target)
            && is_start(functions, noted, back),
        Slot::Indirect { back } => is_start(functions, noted, back),
        Slot::System { back } => is_start(functions, noted, back),
    }
}

fn is_function(functions: &[Func], number: u32) -> bool
    ensures { result ≡ nat_lt number (length (disassemblies_of functions.now)) }
{
    (number as usize) < functions.len()
}

/// Whether an instruction starts at a place of code.
fn is_start(functions: &[Func], noted: &[Notes], place: CodeAt) -> bool
    requires { AreNoted functions.now noted.now }
    ensures { result ≡ is_start (disassemblies_of functions.now) place }
{
    let function = place.function as usize;
    function < functions.len() && is_marked(&noted[function].starts, place.offset as usize)
}

fn is_entry(slot: Slot) -> bool
    ensures { result ≡ is_entry slot }
{
    matches!(slot, Slot::Entry { .. })
}
