//! The slots: sixteen bytes each, every one at its position.
//!
//! A slot is a trampoline to code, and the way back behind it: its bytes may be run and not read, so
//! displacements to hidden addresses may stand there. What is left of the sixteen bytes are
//! breakpoints. Positions come from the slot seed; the displacements are the plan's.

ghost use Rattle.std.specs.Prelude.{ℕ, ◌≡◌, ◌+◌, ◌*◌, ◌<◌, ◌≤◌, [], ◌∷◌, length, IfOk, Some};
ghost use Rattle.x86_core.specs.Data.{segment};
ghost use Rattle.obj_core.specs.Slots.{slot_base, positions as positions_of};
ghost use Rattle.obj_core.specs.Placement.{inverse, filler, start_of, displacement_bytes, overlaid};
ghost use Rattle.obj_core.specs.Runs.{slot_run};
ghost use Rattle.obj_core.specs.Plans.{planned};
ghost use Rattle.obj_core.specs.Layout.{jump, trampoline, trampolines};
ghost use Rattle.obj_core.specs.WellFormed.{most_slots};

use obj_core::checked::Checked;
use obj_core::code::{CodeBuilder, CodePlan};
use obj_core::object::{CodeAt, Slot};
use rd_num::width::NoMemory;
use std::alloc::Global;
use x86_core::image::Segment;

/// JMP rel32, without its displacement.
const JMP: u8 = 0xE9;
/// CALL rel32, without its displacement.
const CALL: u8 = 0xE8;
/// NOP, NOP, CALL r11.
const CALL_THROUGH_R11: [u8; 5] = [0x90, 0x90, 0x41, 0xFF, 0xD3];
/// SYSCALL, NOP, NOP, NOP.
const SYSTEM_CALL: [u8; 5] = [0x0F, 0x05, 0x90, 0x90, 0x90];

/// The segment of all slots.
pub fn slot_segment(
    alloc: Global,
    o: &Checked,
    plan: &CodePlan,
    positions: &[u32],
) -> Result<Segment, NoMemory>
    requires few { length o.now.object.slots ≤ most_slots }
    requires positions { positions.now ≡ positions_of o.now.object }
    ensures { IfOk result (λ s. s ≡ segment slot_base
        (trampolines (planned plan.now) positions.now o.now.object.slots (inverse positions.now))
        1) }
{
    let slots = o.object().slots.as_slice();
    let mut builder = CodeBuilder::for_slots(alloc, o)?;
    for i in 0..slots.len() {
        put_slot(&mut builder, plan, 16 * positions[i], &slots[i]);
    }
    Ok(builder.finish())
}

/// Puts a slot at a place where breakpoints are. Takes no memory.
fn put_slot(builder: &mut CodeBuilder, plan: &CodePlan, at: u32, slot: &Slot)
    requires start { builder.old.start ≡ slot_base }
    requires runs { builder.old.runs ≡ slot_run (length builder.old.bytes) ∷ [] }
    requires small { length builder.old.bytes ≤ 16777216 }
    requires inside { at + 16 ≤ length builder.old.bytes }
    requires blank { builder.old.bytes ≡ overlaid builder.old.bytes at (filler 16) }
    ensures { builder.new ≡ record builder.old {
      bytes = overlaid builder.old.bytes at
          (trampoline (planned plan.now) (slot_base + at) (Some slot.now));
    } }
{
    match slot {
        Slot::Entry { target } => put_branch(builder, plan, at, JMP, &start(*target)),
        Slot::Jump { target } => put_branch(builder, plan, at, JMP, &start(*target)),
        Slot::Call { target, back } => {
            put_branch(builder, plan, at, CALL, &start(*target));
            put_branch(builder, plan, at + 5, JMP, back);
        }
        Slot::Indirect { back } => {
            builder.bytes(at, &CALL_THROUGH_R11);
            put_branch(builder, plan, at + 5, JMP, back);
        }
        Slot::System { back } => {
            builder.bytes(at, &SYSTEM_CALL);
            put_branch(builder, plan, at + 5, JMP, back);
        }
    }
}

/// Puts an opcode and the displacement to a byte of code. Takes no memory.
fn put_branch(builder: &mut CodeBuilder, plan: &CodePlan, at: u32, opcode: u8, to: &CodeAt)
    requires start { builder.old.start ≡ slot_base }
    requires runs { builder.old.runs ≡ slot_run (length builder.old.bytes) ∷ [] }
    requires small { length builder.old.bytes ≤ 16777216 }
    requires inside { at + 5 ≤ length builder.old.bytes }
    ensures { builder.new ≡ record builder.old {
      bytes = overlaid builder.old.bytes at
          (opcode ∷ displacement_bytes (planned plan.now to.now) (slot_base + at + 5));
    } }
{
    builder.bytes(at, &[opcode]);
    builder.branch(at + 1, &plan.place(to));
}

/// The start of a function. Takes no memory.
fn start(function: u32) -> CodeAt
    ensures { result ≡ start_of function }
{
    CodeAt {
        function,
        offset: 0,
    }
}
