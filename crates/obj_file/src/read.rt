//! An object from the bytes of its file, part after part in the order of the file.
//!
//! Each function reads one part at `at`, which counts bytes from the start of the file, and answers the
//! part and where it ends, or the place where the bytes leave what may stand there. The parts are those
//! of `write`, in the same order; words and fields are read in `part`.

ghost use Rattle.std.specs.Prelude.{◌≡◌, ◌≢◌, ◌+◌, ◌<◌, ◌≤◌, ◌^◌, ◌++◌, nat_le, length, IfOk, IfErr};
ghost use Rattle.rd_num.specs.Number.{le_bytes};
ghost use Rattle.obj_core.specs.Object.{Each, IsField, IsSlot, IsObject, Spells, kind_number, functions_bytes, slot_fields, slot_bytes, slots_bytes};
ghost use Rattle.obj_file.specs.Texts.{Times, IsFunctionText, IsSlotText, BodyText, CountedText, SlotSeedText, IsObjectText, full, limit_if, Spans, Fault};
ghost use Rattle.obj_file.specs.Spellings.{function_in, IsFuncIn, IsObjectIn, body_bytes, counted_bytes, seeded_bytes, AreParts, AreCounted, Holds};
ghost use Rattle.obj_file.specs.Faults.{NamesFault};

use crate::fault::FormFault;
use crate::format::Format;
use crate::function::read_code;
use crate::part::{
    Part, expect, read_below, read_bytes, read_field, read_format, read_used, read_word,
};
use obj_core::object::{CodeAt, Func, FuncKind, Object, Slot};
use rd_num::list::List;
use std::alloc::Global;

/// How many functions and slots there are, and how long the data is.
#[derive(Clone, Copy)]
struct Counts {
    functions: u32,
    slots: u32,
    ro: u32,
    rw: u32,
}

/// What follows the seeds, and where it ends.
#[derive(Drop)]
struct Body {
    functions: List<Func>,
    slots: List<Slot>,
    ro: List<u8>,
    rw: List<u8>,
    end: usize,
}

/// The object that the bytes of a file spell, in format 2 or 1. Takes time and memory linear in them.
///
/// Functions of format 1 have no cuts. `At` comes exactly where they spell no object. No count makes a fault by itself, and nothing is
/// allocated for a count that the file can't hold.
pub fn read(alloc: Global, bytes: &[u8]) -> Result<Object, FormFault>
    ensures object { IfOk result IsObject }
    ensures spelling { IfOk result (λ o. Spells bytes.now o) }
    ensures fault { IfErr result (λ e. NamesFault bytes.now e) }
{
    let part = read_object(alloc, bytes)?;
    if part.end < bytes.len() {
        return Err(FormFault::At {
            place: part.end as u64,
        });
    }
    Ok(part.value)
}

fn read_object(alloc: Global, bytes: &[u8]) -> Result<Part<Object>, FormFault>
    ensures holds { IfOk result (λ p. Holds bytes.now p.end p.value) }
    ensures fault { IfErr result (λ e. Fault IsObjectText bytes.now 0 e) }
{
    expect(bytes, 0, &[b'R', b'D', b'O', b'1'])?;
    let format = read_format(bytes, 4)?;
    let part = read_seeded(alloc, bytes, 8, format)?;
    Ok(part)
}

fn read_seeded(
    alloc: Global,
    bytes: &[u8],
    at: usize,
    format: Format,
) -> Result<Part<Object>, FormFault>
    requires { at ≤ length bytes.now }
    ensures object { IfOk result (λ p. IsObjectIn format p.value) }
    ensures read { IfOk result (λ p. Spans bytes.now at p.end (seeded_bytes format p.value)) }
    ensures fault { IfErr result (λ e. Fault (SlotSeedText format) bytes.now at e) }
{
    let slot_seed = read_word(bytes, at)?;
    let reg_seed = read_word(bytes, at + 8)?;
    let body = read_counted(alloc, bytes, at + 16, format)?;
    Ok(Part {
        value: Object {
            slot_seed,
            reg_seed,
            functions: body.functions,
            slots: body.slots,
            ro: body.ro,
            rw: body.rw,
        },
        end: body.end,
    })
}

fn read_counted(alloc: Global, bytes: &[u8], at: usize, format: Format) -> Result<Body, FormFault>
    requires { at ≤ length bytes.now }
    ensures parts { IfOk result (λ b. AreCounted format b.functions b.slots b.ro b.rw) }
    ensures read { IfOk result (λ b. Spans bytes.now at b.end
        (counted_bytes format b.functions b.slots b.ro b.rw)) }
    ensures fault { IfErr result (λ e. Fault (CountedText format) bytes.now at e) }
{
    let functions = read_field(bytes, at)?;
    let slots = read_field(bytes, at + 4)?;
    let ro = read_field(bytes, at + 8)?;
    let rw = read_field(bytes, at + 12)?;
    let counts = Counts {
        functions,
        slots,
        ro,
        rw,
    };
    let body = read_body(alloc, bytes, at + 16, format, counts)?;
    Ok(body)
}

fn read_body(
    alloc: Global,
    bytes: &[u8],
    at: usize,
    format: Format,
    counts: Counts,
) -> Result<Body, FormFault>
    requires { at ≤ length bytes.now }
    ensures parts { IfOk result (λ b. AreParts format counts.functions counts.slots counts.ro counts.rw
        b.functions b.slots b.ro b.rw) }
    ensures read { IfOk result (λ b. Spans bytes.now at b.end
        (body_bytes format b.functions b.slots b.ro b.rw)) }
    ensures fault { IfErr result (λ e. Fault (BodyText format counts.functions counts.slots counts.ro
        counts.rw) bytes.now at e) }
{
    let functions = read_functions(alloc, bytes, at, format, counts.functions)?;
    let slots = read_slots(alloc, bytes, functions.end, counts.slots)?;
    let ro = read_bytes(alloc, bytes, slots.end, counts.ro)?;
    let middle = slots.end + counts.ro as usize;
    let rw = read_bytes(alloc, bytes, middle, counts.rw)?;
    Ok(Body {
        functions: functions.value,
        slots: slots.value,
        ro,
        rw,
        end: middle + counts.rw as usize,
    })
}

fn read_functions(
    alloc: Global,
    bytes: &[u8],
    at: usize,
    format: Format,
    count: u32,
) -> Result<Part<List<Func>>, FormFault>
    requires { at ≤ length bytes.now }
    ensures functions { IfOk result (λ p. Each (IsFuncIn format) p.value) }
    ensures count { IfOk result (λ p. length p.value ≡ count) }
    ensures read { IfOk result (λ p. Spans bytes.now at p.end
        (functions_bytes (function_in format) p.value)) }
    ensures fault { IfErr result (λ e. Fault (Times (IsFunctionText format) count) bytes.now at e) }
{
    let mut functions = List::new(alloc);
    let mut end = at;
    for _ in 0..count {
        let function = read_function(alloc, bytes, end, format)?;
        functions.add(function.value)?;
        end = function.end;
    }
    Ok(Part {
        value: functions,
        end,
    })
}

fn read_function(
    alloc: Global,
    bytes: &[u8],
    at: usize,
    format: Format,
) -> Result<Part<Func>, FormFault>
    requires { at ≤ length bytes.now }
    ensures function { IfOk result (λ p. IsFuncIn format p.value) }
    ensures read { IfOk result (λ p. Spans bytes.now at p.end (function_in format p.value)) }
    ensures fault { IfErr result (λ e. Fault (IsFunctionText format) bytes.now at e) }
{
    let kind = read_below(bytes, at, 2)?;
    let size = read_field(bytes, at + 4)?;
    let count = read_field(bytes, at + 8)?;
    let rows = read_code(alloc, bytes, at + 12, format, size, count)?;
    Ok(Part {
        value: Func {
            kind: kind_of(kind),
            bytes: rows.bytes,
            links: rows.links,
            cuts: rows.cuts,
        },
        end: rows.end,
    })
}

fn kind_of(number: u32) -> FuncKind
    requires { number < 2 }
    ensures { kind_number result ≡ number }
{
    if number == 0 {
        FuncKind::Plain
    } else {
        FuncKind::Saved
    }
}

fn read_slots(
    alloc: Global,
    bytes: &[u8],
    at: usize,
    count: u32,
) -> Result<Part<List<Slot>>, FormFault>
    requires { at ≤ length bytes.now }
    ensures slots { IfOk result (λ p. Each IsSlot p.value) }
    ensures count { IfOk result (λ p. length p.value ≡ count) }
    ensures read { IfOk result (λ p. Spans bytes.now at p.end (slots_bytes p.value)) }
    ensures fault { IfErr result (λ e. Fault (Times IsSlotText count) bytes.now at e) }
{
    let mut slots = List::new(alloc);
    let mut end = at;
    for _ in 0..count {
        let slot = read_slot(bytes, end)?;
        slots.add(slot)?;
        end += 16;
    }
    Ok(Part { value: slots, end })
}

fn read_slot(bytes: &[u8], at: usize) -> Result<Slot, FormFault>
    requires { at ≤ length bytes.now }
    ensures slot { IfOk result IsSlot }
    ensures read { IfOk result (λ slot. Spans bytes.now at (at + 16) (slot_bytes slot)) }
    ensures fault { IfErr result (λ e. Fault IsSlotText bytes.now at e) }
    ensures told { IfErr result (λ e. e ≢ FormFault.NoMemory) }
{
    let kind = read_below(bytes, at, 5)?;
    let target = read_used(bytes, at + 4, kind <= 2)?;
    let function = read_used(bytes, at + 8, kind >= 2)?;
    let offset = read_used(bytes, at + 12, kind >= 2)?;
    Ok(slot_of(kind, target, CodeAt { function, offset }))
}

fn slot_of(kind: u32, target: u32, back: CodeAt) -> Slot
    requires kind { kind < 5 }
    requires target { target < limit_if (nat_le kind 2) }
    requires function { back.function < limit_if (nat_le 2 kind) }
    requires offset { back.offset < limit_if (nat_le 2 kind) }
    ensures slot { IsSlot result }
    ensures spelling { slot_bytes result ≡ slot_fields kind target back.function back.offset }
{
    match kind {
        0 => Slot::Entry { target },
        1 => Slot::Jump { target },
        2 => Slot::Call { target, back },
        3 => Slot::Indirect { back },
        _ => Slot::System { back },
    }
}
