//! Worked segments: a slot, code at its places, and data.
//!
//! The small object of `specs/Small.antt` is placed by a seed for which its addresses are known, and
//! the bytes that the builders make are compared with bytes that were worked out by hand.

ghost use Rattle.std.specs.Prelude.{◌≡◌, IfOk};
ghost use Rattle.obj_core.specs.Plans.{IsPlan};
ghost use Rattle.obj_core.specs.Small.{small, jump_on, invalid};

use crate::address::SlotAddr;
use crate::checked::Checked;
use crate::code::{CodeBuilder, CodePlan};
use crate::object::{CodeAt, Func, FuncKind, Link, Object, Slot};
use crate::readable::ReadBuilder;
use bitflags::Flags;
use rd_num::list::List;
use rd_num::width::NoMemory;
use std::alloc::Global;
use x86_core::image::Segment;

/// With this seed code begins at 0x40000000, function 1 of the small object stands at 0x40000010, and
/// function 0 at 0x40000200.
const LAYOUT_SEED: u64 = 225_124_706;

/// The slots of the small object, of which the call is written: to function 1, and back to function 0.
const SLOTS: [u8; 32] = [
    0xE8, 0x0B, 0x00, 0x00, 0x30, 0xE9, 0xF6, 0x01, 0x00, 0x30, 0xCC, 0xCC, 0xCC, 0xCC, 0xCC, 0xCC,
    0xCC, 0xCC, 0xCC, 0xCC, 0xCC, 0xCC, 0xCC, 0xCC, 0xCC, 0xCC, 0xCC, 0xCC, 0xCC, 0xCC, 0xCC, 0xCC,
];

/// A jump to slot 0.
fn jump(alloc: Global) -> Result<Func, NoMemory>
    ensures { IfOk result (λ f. f ≡ jump_on) }
{
    let mut bytes = List::new(alloc);
    bytes.append(&[0xE9, 0, 0, 0, 0])?;
    let mut links = List::new(alloc);
    links.add(Link { at: 1, slot: 0 })?;
    Ok(Func {
        kind: FuncKind::Plain,
        bytes,
        links,
        cuts: List::new(alloc),
    })
}

/// An invalid instruction.
fn ud2(alloc: Global) -> Result<Func, NoMemory>
    ensures { IfOk result (λ f. f ≡ invalid) }
{
    let mut bytes = List::new(alloc);
    bytes.append(&[0x0F, 0x0B])?;
    Ok(Func {
        kind: FuncKind::Plain,
        bytes,
        links: List::new(alloc),
        cuts: List::new(alloc),
    })
}

/// The small object.
fn small_object(alloc: Global) -> Result<Checked, NoMemory>
    ensures { IfOk result (λ o. o.object ≡ small) }
{
    let mut functions = List::new(alloc);
    functions.add(jump(alloc)?)?;
    functions.add(ud2(alloc)?)?;
    let mut slots = List::new(alloc);
    slots.add(Slot::Entry { target: 1 })?;
    let back = CodeAt {
        function: 0,
        offset: 0,
    };
    slots.add(Slot::Call { target: 1, back })?;
    Ok(Checked::new(Object {
        slot_seed: 1,
        reg_seed: 0,
        functions,
        slots,
        ro: List::new(alloc),
        rw: List::new(alloc),
    }))
}

/// The slots, with the call alone, which stands at position 0.
fn call_slot(alloc: Global) -> Result<Segment, NoMemory> {
    let o = small_object(alloc)?;
    let plan = CodePlan::new(alloc, &o, LAYOUT_SEED)?;
    let mut builder = CodeBuilder::for_slots(alloc, &o)?;
    builder.bytes(0, &[0xE8]);
    builder.branch(
        1,
        &plan.place(&CodeAt {
            function: 1,
            offset: 0,
        }),
    );
    builder.bytes(5, &[0xE9]);
    builder.branch(
        6,
        &plan.place(&CodeAt {
            function: 0,
            offset: 0,
        }),
    );
    Ok(builder.finish())
}

/// The code, whose jump goes to the slot at position 1.
#[tactic(auto, unfolding(crate::specs::Plans::piece_runs))]
fn all_code(alloc: Global) -> Result<Segment, NoMemory> {
    let o = small_object(alloc)?;
    let plan = CodePlan::new(alloc, &o, LAYOUT_SEED)?;
    let mut builder = CodeBuilder::for_code(alloc, &plan)?;
    builder.bytes(0, &[0xE9, 0, 0, 0, 0, 0x0F, 0x0B]);
    builder.branch_slot(1, &SlotAddr::at(1));
    Ok(builder.finish())
}

/// A byte, and the address of the slot at position 3.
fn pointer(alloc: Global) -> Result<Segment, NoMemory> {
    let mut builder = ReadBuilder::new(alloc, 0x2000_0000);
    builder.bytes(&[7])?;
    builder.slot(&SlotAddr::at(3))?;
    Ok(builder.finish(false))
}

#[test]
fn writes_the_worked_slot(rt: HostRuntime) {
    match call_slot(rt.alloc()) {
        Ok(segment) => {
            assert_eq!(rt; segment.start, 0x1000_0000);
            assert_eq!(rt; segment.rights.bits(), 1);
            assert!(rt; segment.bytes.as_slice() == SLOTS.as_slice());
        }
        Err(_) => panic!(rt; "no memory"),
    }
}

#[test]
fn writes_functions_where_the_plan_has_them(rt: HostRuntime) {
    let mut wanted = [0xCC; 0x210];
    wanted[0x10..0x12].copy_from_slice(&[0x0F, 0x0B]);
    wanted[0x200..0x205].copy_from_slice(&[0xE9, 0x0B, 0xFE, 0xFF, 0xCF]);
    match all_code(rt.alloc()) {
        Ok(segment) => {
            assert_eq!(rt; segment.start, 0x4000_0000);
            assert_eq!(rt; segment.rights.bits(), 1);
            assert!(rt; segment.bytes.as_slice() == wanted.as_slice());
        }
        Err(_) => panic!(rt; "no memory"),
    }
}

#[test]
fn reads_bytes_and_slots(rt: HostRuntime) {
    assert_eq!(rt; SlotAddr::at(3).number(), 0x1000_0030);
    match pointer(rt.alloc()) {
        Ok(segment) => {
            assert_eq!(rt; segment.start, 0x2000_0000);
            assert_eq!(rt; segment.rights.bits(), 4);
            assert!(rt; segment.bytes.as_slice() == [7, 0x30, 0, 0, 0x10, 0, 0, 0, 0].as_slice());
        }
        Err(_) => panic!(rt; "no memory"),
    }
}
