//! What the rules ask of a function's instructions, noted while they are decoded one after another.
//!
//! Notes begin empty and take one instruction at a time, in order; they hold three bits a byte of the
//! function, the registers that occur, and two offsets. What they say is what the rules ask of the
//! list of these instructions (`specs/Noted.antt`), so the list itself need not be kept.

ghost use Rattle.std.specs.Prelude.{◌≡◌, ℕ, ◌<◌, ◌≤◌, ◌||◌, ◌&&◌, false, nat_eq, if◌then◌else◌, None, Some, [], IfOk};
ghost use Rattle.x86_core.specs.declared.reg.Reg.{Reg as Register};
ghost use Rattle.x86_core.specs.Registers.{number_of};
ghost use Rattle.obj_core.specs.Saved.{registers_of, is_push_or_pop, is_among};
ghost use Rattle.obj_core.specs.WellFormed.{displacement, is_zero, is_slots_own, is_end};
ghost use Rattle.obj_check.specs.Marked.{room, marked};
ghost use Rattle.obj_check.specs.Noted.{HasRoom, KeepsRoom, AreNotesOf, AddsNote};
ghost use Rattle.obj_check.specs.Least.{lesser_of};

use crate::asked::{is_end, is_push_or_pop, is_slots_own, is_zero_branch, mark_registers};
use crate::instr_at::InstrAt;
use crate::marks::{Table, blank, mark};
use rd_num::width::NoMemory;
use std::alloc::Global;

/// What the rules ask of a function's instructions.
#[derive(Drop)]
pub struct Notes {
    /// The offsets at which an instruction starts.
    pub starts: Table,
    /// The offsets at which a branch with displacement 0 ends.
    pub zeros: Table,
    /// The offsets at which an instruction ends that lets nothing run on.
    pub stops: Table,
    /// The numbers of the registers that occur outside of pushes and pops.
    pub registers: Table,
    /// The least offset of a transfer that only a slot may make.
    pub transfer: Option<u32>,
    /// The offset of the last instruction where it lets the next byte run.
    pub last_open: Option<u32>,
}

/// What is noted of no instruction, for a function of a size.
pub fn no_notes(alloc: Global, size: usize) -> Result<Notes, NoMemory>
    ensures room { IfOk result (λ c. HasRoom size c) }
    ensures notes { IfOk result (λ c. AreNotesOf [] c) }
{
    let starts = blank(alloc, size)?;
    let zeros = blank(alloc, size)?;
    let stops = blank(alloc, size)?;
    let registers = blank(alloc, 15)?;
    Ok(Notes {
        starts,
        zeros,
        stops,
        registers,
        transfer: None,
        last_open: None,
    })
}

/// The lesser of an offset and those before it.
pub fn lesser(least: Option<u32>, offset: u32) -> Option<u32>
    ensures { result ≡ lesser_of least offset }
{
    match least {
        None => Some(offset),
        Some(before) => Some(before.min(offset)),
    }
}

/// Notes where a branch with displacement 0 ends.
fn note_zero(zeros: &mut Table, here: &InstrAt)
    requires { here.now.end < room zeros.old }
    ensures room { room zeros.new ≡ room zeros.old }
    ensures marks { (k : ℕ) → marked zeros.new k ≡
        ((nat_eq here.now.end k && is_zero (displacement here.now.instr)) || marked zeros.old k) }
{
    if is_zero_branch(&here.instr) {
        mark(zeros, here.end as usize);
    }
}

/// Notes where an instruction ends that lets nothing run on.
fn note_stop(stops: &mut Table, here: &InstrAt)
    requires { here.now.end < room stops.old }
    ensures room { room stops.new ≡ room stops.old }
    ensures marks { (k : ℕ) → marked stops.new k ≡
        ((nat_eq here.now.end k && is_end here.now.instr) || marked stops.old k) }
{
    if is_end(&here.instr) {
        mark(stops, here.end as usize);
    }
}

/// Notes the registers of an instruction other than a push or a pop.
fn note_registers(registers: &mut Table, here: &InstrAt)
    requires { 16 ≤ room registers.old }
    ensures room { room registers.new ≡ room registers.old }
    ensures marks { (r : Register) → marked registers.new (number_of r) ≡
        ((if is_push_or_pop here.now.instr then false else is_among r
        (registers_of here.now.instr)) || marked registers.old (number_of r)) }
{
    if !is_push_or_pop(&here.instr) {
        mark_registers(registers, &here.instr);
    }
}

/// The least offset of a transfer, with one instruction more.
fn transfer_with(before: Option<u32>, here: &InstrAt) -> Option<u32>
    ensures { result ≡ (if is_slots_own here.now.instr then lesser_of before here.now.at else
        before) }
{
    if is_slots_own(&here.instr) {
        lesser(before, here.at)
    } else {
        before
    }
}

/// The offset of an instruction that lets the next byte run.
fn open_at(here: &InstrAt) -> Option<u32>
    ensures { result ≡ (if is_end here.now.instr then None else Some here.now.at) }
{
    if is_end(&here.instr) {
        None
    } else {
        Some(here.at)
    }
}

/// Notes one instruction more.
pub fn note(notes: &mut Notes, here: &InstrAt)
    requires room { HasRoom here.now.end notes.old }
    requires some { here.now.at ≤ here.now.end }
    ensures room { KeepsRoom notes.old notes.new }
    ensures notes { AddsNote notes.old here.now notes.new }
{
    mark(&mut notes.starts, here.at as usize);
    note_zero(&mut notes.zeros, here);
    note_stop(&mut notes.stops, here);
    note_registers(&mut notes.registers, here);
    notes.transfer = transfer_with(notes.transfer, here);
    notes.last_open = open_at(here);
}
