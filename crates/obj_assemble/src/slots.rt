//! Planned slots as an object has them.

ghost use Rattle.std.specs.Prelude.{◌≡◌, ◌≤◌, length, map, IfOk};
ghost use Rattle.obj_assemble.specs.Made.{end_or_first, slot_made, slots_made};

use obj_core::object::{CodeAt, Slot};
use obj_core::plan::Slot0;
use rd_num::list::List;
use rd_num::width::NoMemory;
use std::alloc::Global;

/// An end, or the first byte of the first function where there is none.
fn end_of(end: Option<CodeAt>) -> CodeAt
    ensures { result ≡ end_or_first end }
{
    match end {
        Some(end) => end,
        None => CodeAt {
            function: 0,
            offset: 0,
        },
    }
}

/// A planned slot that comes back to an end, where it does.
fn slot(planned: &Slot0, end: Option<CodeAt>) -> Slot
    ensures { result ≡ slot_made planned.now end }
{
    match planned {
        Slot0::Entry { target } => Slot::Entry { target: *target },
        Slot0::Jump { target } => Slot::Jump { target: *target },
        Slot0::Call { target, .. } => Slot::Call {
            target: *target,
            back: end_of(end),
        },
        Slot0::Indirect { .. } => Slot::Indirect { back: end_of(end) },
        Slot0::System { .. } => Slot::System { back: end_of(end) },
    }
}

/// All slots, with an end for each.
pub fn slots(
    alloc: Global,
    planned: &[Slot0],
    ends: &[Option<CodeAt>],
) -> Result<List<Slot>, NoMemory>
    requires { length planned.now ≤ length ends.now }
    ensures { IfOk result (λ l. l ≡ slots_made planned.now ends.now) }
{
    let mut all = List::new(alloc);
    for k in 0..planned.len() {
        all.add(slot(&planned[k], ends[k]))?;
    }
    Ok(all)
}
