//! A memory of three segments and the stack: every call where it is allowed and where it is refused.

use crate::memory::{Memory, Refused, WriteFault};
use bitflags::Flags;
use rd_num::copied::copy_list;
use rd_num::list::List;
use rd_num::width::NoMemory;
use std::alloc::Global;
use x86_core::image::{Image, Rights, STACK_END, STACK_START, Segment};
use x86_core::instr::{Decoded, Instr, Size};

/// A segment of these bytes.
fn segment(alloc: Global, start: u64, bytes: &[u8], bits: u8) -> Result<Segment, NoMemory> {
    let bytes = copy_list(alloc, bytes)?;
    Ok(Segment {
        start,
        bytes,
        rights: Rights::from_bits_retain(bits),
    })
}

/// Code that may only be executed, constants, and data that touches them.
fn loaded(alloc: Global) -> Result<Memory, NoMemory> {
    let mut segments = List::new(alloc);
    segments.add(segment(alloc, 0x10000, &[0x0F, 0x0B, 0x90], 1)?)?;
    segments.add(segment(alloc, 0x20000, &[1, 2, 3, 4], 4)?)?;
    segments.add(segment(alloc, 0x20004, &[5, 6], 6)?)?;
    let image = Image {
        entry: 0x10000,
        segments,
    };
    Memory::load(alloc, &image)
}

#[test]
fn reads_are_whole_or_refused(rt: HostRuntime) {
    let Ok(memory) = loaded(rt.alloc()) else {
        panic!(rt; "no memory");
    };
    let rows: [(u64, usize, bool, [u8; 4]); 12] = [
        (0x10000, 1, false, [9, 9, 9, 9]),
        (0x10000, 0, true, [9, 9, 9, 9]),
        (0x20000, 4, true, [1, 2, 3, 4]),
        (0x20001, 2, true, [2, 3, 9, 9]),
        (0x20001, 4, false, [9, 9, 9, 9]),
        (0x1FFFF, 1, false, [9, 9, 9, 9]),
        (0x20005, 1, true, [6, 9, 9, 9]),
        (0x20006, 0, true, [9, 9, 9, 9]),
        (STACK_START, 2, true, [0, 0, 9, 9]),
        (STACK_END - 3, 3, true, [0, 0, 0, 9]),
        (STACK_END - 3, 4, false, [9, 9, 9, 9]),
        (u64::MAX, 2, false, [9, 9, 9, 9]),
    ];
    for (at, len, allowed, want) in rows {
        let mut out = [9; 4];
        let answer = memory.read_into(at, &mut out[..len.min(4)]);
        assert_eq!(rt; answer == Ok(()), allowed, "at {at} {len}");
        assert_eq!(rt; out, want, "bytes at {at} {len}");
    }
}

#[test]
fn writes_are_whole_or_refused(rt: HostRuntime) {
    let Ok(mut memory) = loaded(rt.alloc()) else {
        panic!(rt; "no memory");
    };
    let rows: [(u64, &[u8], bool); 12] = [
        (0x20004, &[7], true),
        (0x20005, &[8], true),
        (0x20005, &[9, 9], false),
        (0x20000, &[9], false),
        (0x10000, &[9], false),
        (0, &[], true),
        (STACK_END - 2, &[3, 4], true),
        (STACK_END - 1, &[9, 9], false),
        (STACK_END - 4098, &[5, 6, 7, 8], true),
        (STACK_START - 1, &[9, 9], false),
        (STACK_START, &[1], true),
        (u64::MAX, &[9, 9], false),
    ];
    for (at, bytes, allowed) in rows {
        let want = if allowed {
            Ok(())
        } else {
            Err(WriteFault::Refused)
        };
        assert_eq!(rt;
            memory.prepare(at, bytes.len() as u64),
            want,
            "prepare at {at}"
        );
        assert_eq!(rt; memory.write_from(at, bytes), want, "write at {at}");
    }
    let mut data = [0; 2];
    let mut top = [0; 2];
    let mut pages = [9; 6];
    assert_eq!(rt; memory.read_into(0x20004, &mut data), Ok(()));
    assert_eq!(rt; memory.read_into(STACK_END - 2, &mut top), Ok(()));
    assert_eq!(rt; memory.read_into(STACK_END - 4099, &mut pages), Ok(()));
    assert_eq!(rt; (data, top), ([7, 8], [3, 4]));
    assert_eq!(rt; pages, [0, 5, 6, 7, 8, 0]);
}

#[test]
fn code_is_fetched_up_to_its_end(rt: HostRuntime) {
    let Ok(memory) = loaded(rt.alloc()) else {
        panic!(rt; "no memory");
    };
    let rows: [(u64, Result<u8, Refused>, [u8; 3]); 4] = [
        (0x10000, Ok(3), [0x0F, 0x0B, 0x90]),
        (0x10002, Ok(1), [0x90, 0, 0]),
        (0x10003, Err(Refused), [0, 0, 0]),
        (0x20000, Err(Refused), [0, 0, 0]),
    ];
    for (at, want, bytes) in rows {
        let mut out = [0; 16];
        assert_eq!(rt; memory.fetch(at, &mut out), want, "at {at}");
        assert_eq!(rt; out[..3], bytes[..], "code at {at}");
    }
}

#[test]
fn segments_are_told_in_order(rt: HostRuntime) {
    let Ok(memory) = loaded(rt.alloc()) else {
        panic!(rt; "no memory");
    };
    let rows: [Option<(u64, u64, u8)>; 5] = [
        Some((0x10000, 3, 1)),
        Some((0x20000, 4, 4)),
        Some((0x20004, 2, 6)),
        Some((STACK_START, 536_875_008, 6)),
        None,
    ];
    for (i, want) in rows.iter().enumerate() {
        let told = match memory.segment(i) {
            Some((start, len, rights)) => Some((start, len, rights.bits())),
            None => None,
        };
        assert_eq!(rt; told, *want, "segment {i}");
    }
}

#[test]
fn words_are_read_and_written(rt: HostRuntime) {
    let Ok(mut memory) = loaded(rt.alloc()) else {
        panic!(rt; "no memory");
    };
    let written: [(u64, Size, Result<(), WriteFault>); 4] = [
        (0x20004, Size::W16, Ok(())),
        (0x20004, Size::W32, Err(WriteFault::Refused)),
        (STACK_END - 8, Size::W64, Ok(())),
        (STACK_END - 4100, Size::W64, Ok(())),
    ];
    for (at, size, want) in written {
        assert_eq!(rt;
            memory.store_word(at, size, 0x8877_6655_4433_2211),
            want,
            "at {at}"
        );
    }
    let read: [(u64, Size, Option<u64>); 6] = [
        (0x20000, Size::W32, Some(0x0403_0201)),
        (0x20005, Size::W8, Some(0x22)),
        (0x20004, Size::W64, None),
        (0x10000, Size::W8, None),
        (STACK_END - 8, Size::W64, Some(0x8877_6655_4433_2211)),
        (STACK_END - 4098, Size::W32, Some(0x6655_4433)),
    ];
    for (at, size, want) in read {
        assert_eq!(rt; memory.load_word(at, size), want, "at {at}");
    }
}

/// Whether this one instruction stands at an address, one byte long.
fn stands(memory: &mut Memory, at: u64, instr: Instr) -> bool {
    memory.instruction(at) == Decoded::One { instr, len: 1 }
}

#[test]
fn code_that_is_written_is_decoded_anew(rt: HostRuntime) {
    let alloc = rt.alloc();
    let mut segments = List::new(alloc);
    let (Ok(hidden), Ok(open)) = (
        segment(alloc, 0x10000, &[0x90], 1),
        segment(alloc, 0x20000, &[0x90], 7),
    ) else {
        panic!(rt; "no memory");
    };
    let (Ok(()), Ok(())) = (segments.add(hidden), segments.add(open)) else {
        panic!(rt; "no memory");
    };
    let image = Image {
        entry: 0x10000,
        segments,
    };
    let Ok(mut memory) = Memory::load(alloc, &image) else {
        panic!(rt; "no memory");
    };
    assert!(rt; stands(&mut memory, 0x10000, Instr::Nop));
    assert!(rt; stands(&mut memory, 0x20000, Instr::Nop));
    assert_eq!(rt; memory.write_from(0x20000, &[0xCC]), Ok(()));
    assert!(rt; stands(&mut memory, 0x10000, Instr::Nop));
    assert!(rt; stands(&mut memory, 0x20000, Instr::Int3));
    assert!(rt; memory.instruction(0x30000) == Decoded::Short);
}
