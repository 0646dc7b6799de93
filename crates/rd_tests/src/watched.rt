//! One machine whose text has every kind of line: unknown flags, a stop, zeros, and a short piece; scripts
//! that are good and bad; and one report.

use bitflags::Flags;
use rd_io::sure::{CountSink, SureSource};
use rd_num::copied::copy_list;
use rd_num::list::List;
use rd_num::width::NoMemory;
use std::alloc::Global;
use watch_script::parse::{ScriptFault, parse_script};
use watch_script::report_text::report_text;
use watch_script::show::show_text;
use watch_script::watch::watch;
use x86_core::image::{Image, MachOutcome, Rights, Segment};
use xom_machine::machine::Machine;

/// 1 into `ecx`, -128 into `eax`, a shift of it to the left, and an invalid instruction.
const CODE: &[u8] = b"\xB9\x01\0\0\0\xB8\x80\xFF\xFF\xFF\xD3\xE0\x0F\x0B";

/// Sixteen bytes, sixteen zeros, and two bytes more.
const DATA: &[u8] = b"\x0F\x0B\0\0\0\0\0\0\0\0\0\0\0\0\0\xFF\0\0\0\0\0\0\0\0\0\0\0\0\0\0\0\0\0\xA1";

const TEXT: &[u8] = b"rax 00000000ffffff00
rcx 0000000000000001
rdx 0000000000000000
rbx 0000000000000000
rsp 00000000c0000000
rbp 0000000000000000
rsi 0000000000000000
rdi 0000000000000000
r8 0000000000000000
r9 0000000000000000
r10 0000000000000000
r11 0000000000000000
r12 0000000000000000
r13 0000000000000000
r14 0000000000000000
r15 0000000000000000
flags ? 0 1 ?
outcome invalid
segment 0000000020000000 34 r
0000000020000000 0f0b00000000000000000000000000ff
0000000020000020 00a1
segment 000000009ffff000 536875008 rw
";

/// A segment of these bytes.
fn segment(alloc: Global, start: u64, bytes: &[u8], bits: u8) -> Result<Segment, NoMemory> {
    let bytes = copy_list(alloc, bytes)?;
    Ok(Segment {
        start,
        bytes,
        rights: Rights::from_bits_retain(bits),
    })
}

/// An image of `CODE`, which may be run and not read, and of `DATA`.
fn small_image(alloc: Global) -> Result<Image, NoMemory> {
    let mut segments = List::new(alloc);
    segments.add(segment(alloc, 0x1000_0000, CODE, 1)?)?;
    segments.add(segment(alloc, 0x2000_0000, DATA, 4)?)?;
    Ok(Image {
        entry: 0x1000_0000,
        segments,
    })
}

/// A machine before the first instruction of that image.
fn started(alloc: Global) -> Result<Machine, NoMemory> {
    let image = small_image(alloc)?;
    Machine::start(alloc, &image)
}

#[test]
fn a_stopped_machine_has_this_text(rt: HostRuntime) {
    let Ok(mut machine) = started(rt.alloc()) else {
        panic!(rt; "no memory");
    };
    let mut input = SureSource::new(List::new(rt.alloc()));
    let mut sink = CountSink::new();
    assert!(rt; machine.run(&mut input, &mut sink, 9) == Ok(MachOutcome::Invalid));
    let Ok(text) = show_text(rt.alloc(), &machine) else {
        panic!(rt; "no memory");
    };
    assert!(rt; text.as_slice() == TEXT);
}

/// A row of scripts: the bytes, and the first bad line, or 0 for a script.
const SCRIPTS: &[(&[u8], u32)] = &[
    (b"", 0),
    (
        b"0 read 30000000 2\n0 read 30000001 2\n18446744073709551615 read ffffffffffffffff 4096\n",
        0,
    ),
    (b"00 read 0 0001\n", 0),
    (b"1 read 30000000 0\n", 1),
    (b"1 read 30000000 1\n0 read 30000000 1\n", 2),
    (b"0 read 30000000 2", 1),
    (b"0 read 30000000 1\n\n", 2),
    (b"0 read 3000000A 1\n", 1),
    (b"0 read 30000000 4097\n", 1),
    (b"18446744073709551616 read 0 1\n", 1),
    (b"0  read 0 1\n", 1),
    (b"0 write 0 1\n", 1),
    (
        b"0 write 0 00ff\n0 read 0 1\n0 write ffffffffffffffff a0\n",
        0,
    ),
    (b"0 write 0 00f\n", 1),
    (b"0 write 0 0A\n", 1),
    (b"0 write 0 \n", 1),
    (b"0 write 0 0x\n", 1),
    (b"1 write 0 00\n0 read 0 1\n", 2),
    (b"1 read 0 1\n0 write 0 00\n", 2),
];

/// The first bad line of a script, or 0.
fn bad_line(alloc: Global, bytes: &[u8]) -> Result<u32, NoMemory> {
    match parse_script(alloc, bytes) {
        Ok(_) => Ok(0),
        Err(ScriptFault::Line { line }) => Ok(line),
        Err(ScriptFault::NoMemory) => Err(NoMemory),
    }
}

#[test]
fn scripts_are_refused_by_their_first_bad_line(rt: HostRuntime) {
    for (bytes, line) in SCRIPTS {
        assert!(rt; bad_line(rt.alloc(), bytes) == Ok(*line));
    }
}

/// The first bad line of a script of one write of so many bytes, or 0.
fn bad_line_of(alloc: Global, count: usize) -> Result<u32, NoMemory> {
    let mut bytes = copy_list(alloc, b"0 write 0 ")?;
    for _ in 0..count {
        bytes.append(b"7f")?;
    }
    bytes.append(b"\n")?;
    bad_line(alloc, bytes.as_slice())
}

#[test]
fn a_write_has_4096_bytes_at_most(rt: HostRuntime) {
    assert!(rt; bad_line_of(rt.alloc(), 4096) == Ok(0));
    assert!(rt; bad_line_of(rt.alloc(), 4097) == Ok(1));
}

/// Reads of bytes, of a segment's end, and of code, before and after the invalid instruction.
const READS: &[u8] =
    b"0 read 20000000 2\n0 read 20000021 2\n3 read 20000021 1\n5 read 10000000 1\n";

const REPORT: &[u8] = b"0 0000000020000000 0f0b
0 0000000020000021 refused
3 0000000020000021 a1
5 0000000010000000 refused
end 5 invalid out 0
";

/// The report on the reads of a script.
fn report(alloc: Global, bytes: &[u8]) -> Result<List<u8>, NoMemory> {
    let image = small_image(alloc)?;
    let mut input = SureSource::new(List::new(alloc));
    match parse_script(alloc, bytes) {
        Ok(script) => match watch(alloc, &image, &script, &mut input) {
            Ok(report) => report_text(alloc, &report),
            Err(_) => Err(NoMemory),
        },
        Err(_) => Err(NoMemory),
    }
}

#[test]
fn replies_are_told_line_by_line(rt: HostRuntime) {
    let Ok(text) = report(rt.alloc(), READS) else {
        panic!(rt; "no report");
    };
    assert!(rt; text.as_slice() == REPORT);
}
