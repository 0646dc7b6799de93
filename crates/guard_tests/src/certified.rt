//! Worked objects of one function, with an entry, and in some of them a slot for system calls.
//!
//! Each row is the function's code around a guard, and what the two checkers tell of the object.

use guard_check::fault::{GuardFault, GuardSpot};
use obj_check::fault::ShapeFault;
use obj_core::object::{CodeAt, Func, FuncKind, Object, Slot};
use rd_num::list::List;
use rd_num::width::NoMemory;
use std::alloc::Global;
use std::test::Fail;

/// What is told of an object.
#[derive(Clone, Copy, PartialEq, Eq, Debug)]
enum Verdict {
    NotWellFormed,
    Guarded,
    Unguarded(GuardFault),
}

/// The guard among one slot.
const AMONG_ONE: [u8; 53] = [
    0x4D, 0x89, 0xDA, 0x49, 0x81, 0xEA, 0x00, 0x00, 0x00, 0x10, 0x49, 0x81, 0xFA, 0x10, 0x00, 0x00,
    0x00, 0x0F, 0x82, 0x02, 0x00, 0x00, 0x00, 0x0F, 0x0B, 0x49, 0x81, 0xE2, 0x0F, 0x00, 0x00, 0x00,
    0x0F, 0x84, 0x0F, 0x00, 0x00, 0x00, 0x49, 0x81, 0xFA, 0x05, 0x00, 0x00, 0x00, 0x0F, 0x84, 0x02,
    0x00, 0x00, 0x00, 0x0F, 0x0B,
];

/// The byte of a guard that counts slots, 16 for each.
const SLOTS_AT: usize = 13;

/// `pop r11`.
const POP: [u8; 2] = [0x41, 0x5B];

/// `jmp r11`.
const JUMP: [u8; 3] = [0x41, 0xFF, 0xE3];

/// An object of one function, which is its entry, and of a system call where a way back is given.
fn object(alloc: Global, parts: [&[u8]; 3], back: Option<u32>) -> Result<Object, NoMemory> {
    let mut bytes = List::new(alloc);
    for part in parts {
        bytes.append(part)?;
    }
    let mut functions = List::new(alloc);
    functions.add(Func {
        kind: FuncKind::Plain,
        bytes,
        links: List::new(alloc),
        cuts: List::new(alloc),
    })?;
    let mut slots = List::new(alloc);
    slots.add(Slot::Entry { target: 0 })?;
    if let Some(offset) = back {
        slots.add(Slot::System {
            back: CodeAt {
                function: 0,
                offset,
            },
        })?;
    }
    Ok(Object {
        slot_seed: 0,
        reg_seed: 0,
        functions,
        slots,
        ro: List::new(alloc),
        rw: List::new(alloc),
    })
}

/// What is told of an object of such parts; `None` where memory is wanting.
fn told(alloc: Global, parts: [&[u8]; 3], back: Option<u32>) -> Option<Verdict> {
    let made = object(alloc, parts, back).ok()?;
    match obj_check::check(alloc, made) {
        Ok(checked) => match guard_check::check::check(checked) {
            Ok(_) => Some(Verdict::Guarded),
            Err((_, fault)) => Some(Verdict::Unguarded(fault)),
        },
        Err(refused) => match refused.fault {
            ShapeFault::Rule { .. } => Some(Verdict::NotWellFormed),
            ShapeFault::NoMemory => None,
        },
    }
}

/// That a rule fails in the function.
fn in_function(rule: u8, offset: u32) -> Verdict {
    Verdict::Unguarded(GuardFault::Rule {
        rule,
        spot: GuardSpot::Function(0),
        offset,
    })
}

#[test]
fn tells_the_first_rule_that_fails(rt: HostRuntime) -> Result<(), Fail> {
    let rows: [([&[u8]; 3], Verdict); 6] = [
        (
            [&[0xB8, 0, 0, 0, 0x40, 0x50, 0xC3], &[], &[]],
            in_function(1, 6),
        ),
        (
            [&[0xB8, 0, 0, 0, 0x40, 0x50, 0x41, 0x5B], &AMONG_ONE, &JUMP],
            Verdict::Guarded,
        ),
        ([&POP, &[], &JUMP], in_function(2, 2)),
        (
            [&[0xE9, 0x35, 0, 0, 0], &AMONG_ONE, &JUMP],
            in_function(3, 0),
        ),
        ([&[0xE9, 0, 0, 0, 0], &AMONG_ONE, &JUMP], Verdict::Guarded),
        ([&POP, &AMONG_ONE, &[]], Verdict::NotWellFormed),
    ];
    for (parts, verdict) in rows {
        assert!(rt; told(rt.alloc(), parts, None) == Some(verdict));
    }
    Ok(())
}

#[test]
fn ways_back_lead_into_no_guard(rt: HostRuntime) -> Result<(), Fail> {
    let mut among_two = AMONG_ONE;
    among_two[SLOTS_AT] = 0x20;
    let inside = Verdict::Unguarded(GuardFault::Rule {
        rule: 4,
        spot: GuardSpot::Slot(1),
        offset: 0,
    });
    // where the system call comes back: the guard is from 2 to 55
    let rows: [(u32, Verdict); 5] = [
        (0, Verdict::Guarded),
        (2, Verdict::Guarded),
        (5, inside),
        (55, inside),
        (1, Verdict::NotWellFormed),
    ];
    for (back, verdict) in rows {
        assert!(rt; told(rt.alloc(), [&POP, &among_two, &JUMP], Some(back)) == Some(verdict));
    }
    Ok(())
}

#[test]
fn a_guard_is_among_the_slots_that_there_are(rt: HostRuntime) -> Result<(), Fail> {
    assert!(rt; told(rt.alloc(), [&POP, &AMONG_ONE, &JUMP], Some(0)) == Some(in_function(2, 55)));
    Ok(())
}

#[test]
fn each_byte_of_a_guard_counts(rt: HostRuntime) -> Result<(), Fail> {
    for i in 0..53 {
        let mut other = AMONG_ONE;
        other[i] ^= 1;
        let verdict = told(rt.alloc(), [&POP, &other, &JUMP], None);
        assert!(rt; verdict.is_some() && verdict != Some(Verdict::Guarded));
    }
    Ok(())
}
