//! Short programs, spelled by hand, and how the machine stands after them.

use bitflags::Flags;
use rd_io::RunFault;
use rd_io::memory::{MemSink, MemSource};
use rd_io::sure::{CountSink, SureSink, SureSource};
use rd_num::copied::copy_list;
use rd_num::list::List;
use rd_num::width::NoMemory;
use std::alloc::Global;
use x86_core::image::{Image, MachOutcome, Rights, STACK_END, STACK_START, Segment};
use x86_core::reg::Reg;
use xom_machine::machine::Machine;

/// Where code, constants and data of these tests stand.
const CODE: u64 = 0x4000_0000;

const CONSTANTS: u64 = 0x2000_0000;

const DATA: u64 = 0x3000_0000;

/// The answer to an address that may not be used.
const BAD_ADDRESS: u64 = 0xFFFF_FFFF_FFFF_FFF2;

/// A segment of these bytes.
fn segment(alloc: Global, start: u64, bytes: &[u8], bits: u8) -> Result<Segment, NoMemory> {
    let bytes = copy_list(alloc, bytes)?;
    Ok(Segment {
        start,
        bytes,
        rights: Rights::from_bits_retain(bits),
    })
}

/// A machine before this code, with the constants `Hi` and two bytes of data.
fn started(alloc: Global, code: &[u8], bits: u8) -> Result<Machine, NoMemory> {
    let mut segments = List::new(alloc);
    segments.add(segment(alloc, CONSTANTS, b"Hi", 4)?)?;
    segments.add(segment(alloc, DATA, &[0, 0], 6)?)?;
    segments.add(segment(alloc, CODE, code, bits)?)?;
    Machine::start(
        alloc,
        &Image {
            entry: CODE,
            segments,
        },
    )
}

/// A machine before its entry slot, with the slots of an object and its code.
fn laid(alloc: Global, slots: &[u8], code: &[u8]) -> Result<Machine, NoMemory> {
    let mut segments = List::new(alloc);
    segments.add(segment(alloc, 0x1000_0000, slots, 1)?)?;
    segments.add(segment(alloc, CODE, code, 1)?)?;
    Machine::start(
        alloc,
        &Image {
            entry: 0x1000_0000,
            segments,
        },
    )
}

/// A source of these bytes.
fn source(alloc: Global, bytes: &[u8]) -> Result<SureSource, NoMemory> {
    Ok(SureSource::new(copy_list(alloc, bytes)?))
}

/// The code of a system call with these numbers in `rax`, `rdi`, `rsi` and `rdx`.
fn system_call(rax: u32, rdi: u32, rsi: u32, rdx: u32) -> [u8; 22] {
    let [a0, a1, a2, a3] = rax.to_le_bytes();
    let [b0, b1, b2, b3] = rdi.to_le_bytes();
    let [c0, c1, c2, c3] = rsi.to_le_bytes();
    let [d0, d1, d2, d3] = rdx.to_le_bytes();
    [
        0xB8, a0, a1, a2, a3, 0xBF, b0, b1, b2, b3, 0xBE, c0, c1, c2, c3, 0xBA, d0, d1, d2, d3,
        0x0F, 0x05,
    ]
}

/// The slot of an entry whose function stands at the beginning of the code.
const ENTRY: [u8; 16] = [
    0xE9, 0xFB, 0xFF, 0xFF, 0x2F, 0xCC, 0xCC, 0xCC, 0xCC, 0xCC, 0xCC, 0xCC, 0xCC, 0xCC, 0xCC, 0xCC,
];

#[test]
fn an_entry_leads_to_its_function(rt: HostRuntime) {
    let alloc = rt.alloc();
    let (Ok(mut machine), Ok(mut input)) = (laid(alloc, &ENTRY, &[0x0F, 0x0B]), source(alloc, &[]))
    else {
        panic!(rt; "no memory");
    };
    let mut sink = CountSink::new();
    for want in [MachOutcome::Going, MachOutcome::Invalid] {
        assert!(rt; machine.outcome() == MachOutcome::Going);
        assert!(rt; machine.step(&mut input, &mut sink) == Ok(()));
        assert!(rt; machine.outcome() == want);
    }
    assert!(rt; machine.run(&mut input, &mut sink, u64::MAX) == Ok(MachOutcome::Invalid));
    assert!(rt; machine.regs().get(Reg::Rsp) == STACK_END);
    assert!(rt; machine.memory().segment(2).is_some());
    assert!(rt; machine.flags().c == x86_core::flags::Flag::Zero);
}

#[test]
fn hidden_code_is_not_printed(rt: HostRuntime) {
    let alloc = rt.alloc();
    let slots = [
        0xE9, 0xFB, 0xFF, 0xFF, 0x2F, 0xCC, 0xCC, 0xCC, 0xCC, 0xCC, 0xCC, 0xCC, 0xCC, 0xCC, 0xCC,
        0xCC, 0x0F, 0x05, 0x90, 0x90, 0x90, 0xE9, 0xFF, 0xFF, 0xFF, 0x2F, 0xCC, 0xCC, 0xCC, 0xCC,
        0xCC, 0xCC,
    ];
    let code = [
        0xB8, 1, 0, 0, 0, 0xBF, 1, 0, 0, 0, 0xBE, 0, 0, 0, 0x40, 0xBA, 4, 0, 0, 0, 0xE9, 0xF7,
        0xFF, 0xFF, 0xCF, 0x0F, 0x0B,
    ];
    let (Ok(mut machine), Ok(mut input)) = (laid(alloc, &slots, &code), source(alloc, &[])) else {
        panic!(rt; "no memory");
    };
    let mut sink = CountSink::new();
    assert!(rt; machine.run(&mut input, &mut sink, 11) == Ok(MachOutcome::Going));
    assert_eq!(rt; machine.regs().get(Reg::Rax), BAD_ADDRESS);
    assert_eq!(rt; sink.count(), 0);
    assert!(rt; machine.run(&mut input, &mut sink, 1) == Ok(MachOutcome::Invalid));
}

/// How a machine stands after some steps, with the number of bytes that it printed.
#[derive(Clone, Copy)]
struct Seen {
    outcome: MachOutcome,
    rax: u64,
    rcx: u64,
    rsp: u64,
    r11: u64,
    printed: u64,
}

/// What is seen of this code after some steps with the input `a`; nothing where memory is wanting.
fn after_steps(alloc: Global, code: &[u8], steps: u64) -> Option<Seen> {
    let (Ok(mut machine), Ok(mut input)) = (started(alloc, code, 1), source(alloc, b"a")) else {
        return None;
    };
    let mut sink = CountSink::new();
    let Ok(outcome) = machine.run(&mut input, &mut sink, steps) else {
        return None;
    };
    let regs = machine.regs();
    Some(Seen {
        outcome,
        rax: regs.get(Reg::Rax),
        rcx: regs.get(Reg::Rcx),
        rsp: regs.get(Reg::Rsp),
        r11: regs.get(Reg::R11),
        printed: sink.count(),
    })
}

/// Whether a system call with these numbers ends so, with this answer and so many bytes printed.
fn answers(alloc: Global, call: [u32; 4], want: MachOutcome, answer: u64, printed: u64) -> bool {
    let [rax, rdi, rsi, rdx] = call;
    let Some(seen) = after_steps(alloc, &system_call(rax, rdi, rsi, rdx), 5) else {
        return false;
    };
    let (place, packed) = if want == MachOutcome::Going {
        (CODE + 22, 0x202)
    } else {
        (0, 0)
    };
    let answered = seen.rax == answer && seen.rcx == place && seen.r11 == packed;
    answered && seen.outcome == want && seen.printed == printed
}

#[test]
fn system_calls_answer(rt: HostRuntime) {
    let rows: [([u32; 4], MachOutcome, u64, u64); 13] = [
        ([60, 0x1FF, 0, 0], MachOutcome::Ended(255), 60, 0),
        ([1, 1, 0x2000_0000, 2], MachOutcome::Going, 2, 2),
        ([1, 1, 0x9FFF_F000, 5000], MachOutcome::Going, 4096, 4096),
        ([1, 1, 0x2000_0001, 2], MachOutcome::Going, BAD_ADDRESS, 0),
        ([1, 1, 0x4000_0000, 1], MachOutcome::Going, BAD_ADDRESS, 0),
        ([1, 1, 0, 0], MachOutcome::Going, 0, 0),
        ([1, 2, 0x2000_0000, 2], MachOutcome::BadCall, 1, 0),
        ([0, 0, 0x3000_0001, 9], MachOutcome::Going, 1, 0),
        ([0, 0, 0x2000_0000, 1], MachOutcome::Going, BAD_ADDRESS, 0),
        ([0, 0, 0x3000_0002, 1], MachOutcome::Going, BAD_ADDRESS, 0),
        ([0, 0, 0, 0], MachOutcome::Going, 0, 0),
        ([0, 1, 0x3000_0000, 1], MachOutcome::BadCall, 0, 0),
        ([2, 0, 0, 0], MachOutcome::BadCall, 2, 0),
    ];
    for (call, want, answer, printed) in rows {
        assert!(rt;
            answers(rt.alloc(), call, want, answer, printed),
            "{call:?}"
        );
    }
}

/// Whether code is so after some steps, with this word in `rsp`.
fn leads(alloc: Global, code: &[u8], steps: u64, want: MachOutcome, rsp: u64) -> bool {
    match after_steps(alloc, code, steps) {
        Some(seen) => seen.outcome == want && seen.rsp == rsp,
        None => false,
    }
}

#[test]
fn instructions_stop_or_go_on(rt: HostRuntime) {
    let rows: [(&[u8], u64, MachOutcome, u64); 12] = [
        (&[0xCC], 1, MachOutcome::Breakpoint, STACK_END),
        (&[0x06], 1, MachOutcome::NoForm, STACK_END),
        (&[0x48], 1, MachOutcome::PageFault, STACK_END),
        (&[0x90], 2, MachOutcome::PageFault, STACK_END),
        (&[0xF7, 0xF1], 1, MachOutcome::Divide, STACK_END),
        (
            &[0x0F, 0xAF, 0xC1, 0x0F, 0x84, 0, 0, 0, 0],
            2,
            MachOutcome::NoFlag,
            STACK_END,
        ),
        (&[0xBC, 0, 0, 0, 0, 0x50], 2, MachOutcome::PageFault, 0),
        (&[0x58], 1, MachOutcome::PageFault, STACK_END),
        (&[0xC3], 1, MachOutcome::PageFault, STACK_END),
        (
            &[0xB8, 0, 0, 0, 0x40, 0x50, 0xC3],
            5,
            MachOutcome::Going,
            STACK_END - 8,
        ),
        (
            &[0xE8, 1, 0, 0, 0, 0xCC, 0xC3],
            3,
            MachOutcome::Breakpoint,
            STACK_END,
        ),
        (
            &[0x41, 0xFF, 0xD3],
            2,
            MachOutcome::PageFault,
            STACK_END - 8,
        ),
    ];
    for (code, steps, want, rsp) in rows {
        assert!(rt; leads(rt.alloc(), code, steps, want, rsp), "{code:?}");
    }
}

#[test]
fn writable_code_is_fetched_as_it_stands(rt: HostRuntime) {
    let alloc = rt.alloc();
    let code = [
        0xB8, 0x12, 0, 0, 0x40, 0xB9, 0x0B, 0, 0, 0, 0x40, 0x88, 0x88, 0, 0, 0, 0, 0x0F, 0xCC,
    ];
    let (Ok(mut machine), Ok(mut input)) = (started(alloc, &code, 7), source(alloc, &[])) else {
        panic!(rt; "no memory");
    };
    let outcome = machine.run(&mut input, &mut CountSink::new(), 4);
    assert!(rt; outcome == Ok(MachOutcome::Invalid));
}

/// The number of one call that fails.
fn one_call(alloc: Global, number: u64) -> Result<List<u64>, NoMemory> {
    let mut fails = List::new(alloc);
    fails.add(number)?;
    Ok(fails)
}

#[test]
fn a_sink_that_fails_leaves_the_machine_before_the_call(rt: HostRuntime) {
    let alloc = rt.alloc();
    let code = system_call(1, 1, 0x2000_0000, 2);
    let (Ok(mut machine), Ok(mut input), Ok(fails)) = (
        started(alloc, &code, 1),
        source(alloc, &[]),
        one_call(alloc, 1),
    ) else {
        panic!(rt; "no memory");
    };
    let mut sink = MemSink::new(alloc, fails);
    assert!(rt; machine.run(&mut input, &mut sink, 9) == Err(RunFault::Output));
    assert!(rt; machine.outcome() == MachOutcome::Going);
    assert_eq!(rt; machine.regs().get(Reg::Rax), 1);
    assert!(rt; machine.step(&mut input, &mut sink) == Ok(()));
    assert_eq!(rt; machine.regs().get(Reg::Rax), 2);
    assert!(rt; sink.bytes().as_slice() == b"Hi".as_slice());
}

#[test]
fn a_source_that_fails_leaves_the_machine_before_the_call(rt: HostRuntime) {
    let alloc = rt.alloc();
    let code = system_call(0, 0, 0x3000_0000, 1);
    let (Ok(mut machine), Ok(bytes), Ok(fails)) = (
        started(alloc, &code, 1),
        copy_list(alloc, b"a"),
        one_call(alloc, 1),
    ) else {
        panic!(rt; "no memory");
    };
    let mut input = MemSource::new(bytes, fails);
    let mut sink = SureSink::new(alloc);
    assert!(rt; machine.run(&mut input, &mut sink, 9) == Err(RunFault::Input));
    assert_eq!(rt; machine.regs().get(Reg::Rax), 0);
    assert!(rt; machine.step(&mut input, &mut sink) == Ok(()));
    assert_eq!(rt; machine.regs().get(Reg::Rax), 1);
    let mut stored = [0; 2];
    assert!(rt; machine.memory().read_into(0x3000_0000, &mut stored) == Ok(()));
    assert_eq!(rt; stored, [b'a', 0]);
}

#[test]
fn the_end_of_the_input_stores_nothing(rt: HostRuntime) {
    let alloc = rt.alloc();
    let code = system_call(0, 0, 0x3000_0000, 1);
    let (Ok(mut machine), Ok(mut input)) = (started(alloc, &code, 1), source(alloc, &[])) else {
        panic!(rt; "no memory");
    };
    assert!(rt; machine.run(&mut input, &mut CountSink::new(), 5) == Ok(MachOutcome::Going));
    assert_eq!(rt; machine.regs().get(Reg::Rax), 0);
    assert_eq!(rt; STACK_START, 0x9FFF_F000);
}
