//! The lines of registers, flags and outcome.

ghost use Rattle.std.specs.Prelude.{◌≡◌, ◌++◌, OnOk};
ghost use Rattle.xom_machine.specs.Standing.{ending_of};
ghost use Rattle.watch_script.specs.ShowText.{registers, name_of, register_line, register_lines, mark_of, marks_of, flags_line, ending_text, outcome_line};

use crate::digits::{put_number, put_word};
use rd_num::list::List;
use rd_num::width::NoMemory;
use x86_core::flags::{Flag, Flags};
use x86_core::image::MachOutcome;
use x86_core::reg::{Reg, Regs};

/// The registers in the order of their lines.
#[rattlefmt::skip]
const REGISTERS: [Reg; 16] = [
    Reg::Rax, Reg::Rcx, Reg::Rdx, Reg::Rbx,
    Reg::Rsp, Reg::Rbp, Reg::Rsi, Reg::Rdi,
    Reg::R8, Reg::R9, Reg::R10, Reg::R11,
    Reg::R12, Reg::R13, Reg::R14, Reg::R15,
];

/// A register's name.
fn name(r: Reg) -> &'static [u8]
    ensures { result.now ≡ name_of r }
{
    match r {
        Reg::Rax => b"rax",
        Reg::Rcx => b"rcx",
        Reg::Rdx => b"rdx",
        Reg::Rbx => b"rbx",
        Reg::Rsp => b"rsp",
        Reg::Rbp => b"rbp",
        Reg::Rsi => b"rsi",
        Reg::Rdi => b"rdi",
        Reg::R8 => b"r8",
        Reg::R9 => b"r9",
        Reg::R10 => b"r10",
        Reg::R11 => b"r11",
        Reg::R12 => b"r12",
        Reg::R13 => b"r13",
        Reg::R14 => b"r14",
        Reg::R15 => b"r15",
    }
}

/// Appends the line of a register.
fn put_register(text: &mut List<u8>, regs: &Regs, r: Reg) -> Result<(), NoMemory>
    ensures { OnOk result (text.new ≡ text.old ++ register_line regs.now r) }
{
    text.append(name(r))?;
    text.append(b" ")?;
    put_word(text, regs.get(r))?;
    text.append(b"\n")
}

/// Appends the lines of all registers.
#[tactic(auto, unfolding(crate::specs::ShowText::register_lines))]
pub(crate) fn put_registers(text: &mut List<u8>, regs: &Regs) -> Result<(), NoMemory>
    ensures { OnOk result (text.new ≡ text.old ++ register_lines registers regs.now) }
{
    for r in &REGISTERS {
        put_register(text, regs, *r)?;
    }
    Ok(())
}

/// The mark of a flag.
fn mark(flag: Flag) -> u8
    ensures { result ≡ mark_of flag }
{
    match flag {
        Flag::Zero => b'0',
        Flag::One => b'1',
        Flag::Unknown => b'?',
    }
}

/// The marks of the flags, and the end of their line.
#[tactic(auto, unfolding(crate::specs::ShowText::marks_of))]
fn marks(flags: &Flags) -> [u8; 8]
    ensures { result ≡ marks_of flags.now }
{
    [
        mark(flags.c),
        b' ',
        mark(flags.z),
        b' ',
        mark(flags.s),
        b' ',
        mark(flags.o),
        b'\n',
    ]
}

/// Appends the line of the flags.
#[tactic(auto, unfolding(crate::specs::ShowText::flags_line))]
pub(crate) fn put_flags(text: &mut List<u8>, flags: &Flags) -> Result<(), NoMemory>
    ensures { OnOk result (text.new ≡ text.old ++ flags_line flags.now) }
{
    text.append(b"flags ")?;
    text.append(&marks(flags))
}

/// Appends the word of an outcome.
pub(crate) fn put_ending(text: &mut List<u8>, outcome: MachOutcome) -> Result<(), NoMemory>
    ensures { OnOk result (text.new ≡ text.old ++ ending_text (ending_of outcome)) }
{
    match outcome {
        MachOutcome::Going => text.append(b"going"),
        MachOutcome::Ended(status) => {
            text.append(b"ended ")?;
            put_number(text, u64::from(status))
        }
        MachOutcome::Divide => text.append(b"divide"),
        MachOutcome::Invalid => text.append(b"invalid"),
        MachOutcome::Breakpoint => text.append(b"breakpoint"),
        MachOutcome::PageFault => text.append(b"pagefault"),
        MachOutcome::NoForm => text.append(b"noform"),
        MachOutcome::NoFlag => text.append(b"noflag"),
        MachOutcome::BadCall => text.append(b"badcall"),
    }
}

/// Appends the line of an outcome.
#[tactic(auto, unfolding(crate::specs::ShowText::outcome_line))]
pub(crate) fn put_outcome(text: &mut List<u8>, outcome: MachOutcome) -> Result<(), NoMemory>
    ensures { OnOk result (text.new ≡ text.old ++ outcome_line (ending_of outcome)) }
{
    text.append(b"outcome ")?;
    put_ending(text, outcome)?;
    text.append(b"\n")
}
