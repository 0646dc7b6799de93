//! Guarded places: where a function goes on by the word in r11, and which offsets lie inside a guard.
//!
//! Links stand in the order of their offsets, so that of a displacement is found by halving. The guard
//! before a place lies within 53 bytes, so whether an offset is inside one is told by the instructions
//! of the 53 bytes behind it.

ghost use Rattle.std.specs.Prelude.{◌≡◌, ◌+◌, true, not, nat_lt, length, slice_get};
ghost use Rattle.std.specs.List.Sorted.{IsNonDecreasingBy};
ghost use Rattle.obj_core.specs.declared.object.Link.{Link};
ghost use Rattle.obj_core.specs.WellFormed.{is_linked};
ghost use Rattle.obj_core.specs.Disassembly.{found, starts_at, disassembly_of};
ghost use Rattle.obj_core.specs.SymbolicMachine.{link_before};
ghost use Rattle.guard_check.specs.Form.{is_indirect, leads_indirect, is_guarded, guarded_places};
ghost use Rattle.guard_check.specs.Checking.{IsKnown, is_but, keeps_off};

use crate::instr_at::{InstrAt, instr_at};
use obj_core::object::{Func, Link, Slot};
use x86_core::instr::Instr;

/// The bytes of a guard.
pub const GUARD_SIZE: usize = 53;

/// The slot of the link whose displacement ends at an offset.
fn slot_of_link(links: &[Link], end: usize) -> Option<u32>
    requires { IsNonDecreasingBy (λ (l : Link). l.at + 4) links.now }
    ensures { result ≡ link_before links.now end }
{
    let k = links.partition_point(
        |link: &Link| -> bool
            ensures { result ≡ nat_lt (link.now.at + 4) end }
        { (link.at as usize) + 4 < end },
    );
    match links.get(k) {
        Some(link) => {
            if link.at as usize + 4 == end {
                Some(link.slot)
            } else {
                None
            }
        }
        None => None,
    }
}

/// The slot of the link whose displacement in a function ends at an offset.
fn slot_before(slots: &[Slot], function: &Func, end: usize) -> Option<u32>
    requires { IsKnown (length slots.now) function.now }
    ensures { result ≡ link_before function.now.links end }
{
    slot_of_link(function.links.as_slice(), end)
}

/// Whether a displacement that ends at an offset has a link.
pub fn is_linked(slots: &[Slot], function: &Func, end: usize) -> bool
    requires { IsKnown (length slots.now) function.now }
    ensures { result ≡ is_linked function.now.links end }
{
    slot_before(slots, function, end).is_some()
}

/// Whether there is a slot with a number, of a call by r11.
fn is_indirect(slots: &[Slot], k: u32) -> bool
    ensures { result ≡ is_indirect (slice_get slots.now k) }
{
    match slots.get(k as usize) {
        Some(slot) => matches!(*slot, Slot::Indirect { .. }),
        None => false,
    }
}

/// Whether a displacement leads by its link to the slot of a call by r11.
pub fn leads_indirect(slots: &[Slot], function: &Func, end: usize) -> bool
    requires { IsKnown (length slots.now) function.now }
    ensures { result ≡ leads_indirect slots.now (link_before function.now.links end) }
{
    match slot_before(slots, function, end) {
        Some(k) => is_indirect(slots, k),
        None => false,
    }
}

/// Whether an instruction goes on by the word in r11.
pub fn is_guarded(slots: &[Slot], function: &Func, here: &InstrAt) -> bool
    requires { IsKnown (length slots.now) function.now }
    ensures { result ≡ is_guarded slots.now function.now here.now.end here.now.instr }
{
    match here.instr {
        Instr::JmpR11 => true,
        Instr::Jmp(_) => leads_indirect(slots, function, here.end),
        _ => false,
    }
}

/// Whether an offset at which an instruction starts lies inside a guard, but for the guards whose
/// instruction stands at another offset.
pub fn is_inside(slots: &[Slot], function: &Func, off: usize, but: Option<usize>) -> bool
    requires known { IsKnown (length slots.now) function.now }
    requires start { starts_at (found (disassembly_of function.now.bytes)) off ≡ true }
    ensures { result ≡ not (keeps_off (guarded_places slots.now function.now
        (disassembly_of function.now.bytes)) off but) }
{
    let bytes = function.bytes.as_slice();
    let mut at = off;
    while let Some(here) = instr_at(bytes, at) {
        if at - off >= GUARD_SIZE {
            return false;
        }
        if is_guarded(slots, function, &here) && !is_but(at, but) {
            return true;
        }
        at = here.end;
    }
    false
}

/// Whether an offset is one of the 53 bytes before a place.
fn is_but(place: usize, off: Option<usize>) -> bool
    ensures { result ≡ is_but off place }
{
    match off {
        Some(at) => at < place && place - at <= GUARD_SIZE,
        None => false,
    }
}
