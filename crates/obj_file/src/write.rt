//! The bytes of an object, part after part in the order of the file.
//!
//! Each function puts one part at the end of what is written; memory is the only fault. The parts are
//! those of `specs/Object.antt` of `obj_core`, and their sizes in bytes are fixed but for rows. Counts
//! must fit their fields, which `laws` says of each object in range.

ghost use Rattle.std.specs.Prelude.{◌≡◌, ◌++◌, ◌<◌, ◌^◌, length, IfOk, OnOk};
ghost use Rattle.rd_num.specs.Number.{le_bytes};
ghost use Rattle.obj_core.specs.Object.{Each, field, kind_number, link_bytes, links_bytes, cuts_bytes, function_bytes, functions_bytes, slot_fields, slot_bytes, slots_bytes, header_bytes, object_bytes};
ghost use Rattle.obj_file.specs.Fits.{FunctionFits, CountsFit};

use obj_core::object::{CodeAt, Func, FuncKind, Link, Object, Slot};
use rd_num::bytes::{put_u32_le, put_u64_le};
use rd_num::list::List;
use rd_num::width::NoMemory;
use std::alloc::Global;

/// The bytes of an object's file, in format 2. Time and memory are linear in them.
pub fn write(alloc: Global, o: &Object) -> Result<List<u8>, NoMemory>
    requires { CountsFit o.now }
    ensures { IfOk result (λ l. l ≡ object_bytes o.now) }
{
    let mut out = List::new(alloc);
    put_header(&mut out, o)?;
    put_functions(&mut out, o.functions.as_slice())?;
    put_slots(&mut out, o.slots.as_slice())?;
    out.append(o.ro.as_slice())?;
    out.append(o.rw.as_slice())?;
    Ok(out)
}

/// The magic number, the format, both seeds and the four counts.
fn put_header(out: &mut List<u8>, o: &Object) -> Result<(), NoMemory>
    requires { CountsFit o.now }
    ensures { OnOk result (out.new ≡ out.old ++ header_bytes 2 o.now) }
{
    out.append(b"RDO1")?;
    put_field(out, 2)?;
    put_word(out, o.slot_seed)?;
    put_word(out, o.reg_seed)?;
    put_counts(out, o)?;
    Ok(())
}

fn put_counts(out: &mut List<u8>, o: &Object) -> Result<(), NoMemory>
    requires { CountsFit o.now }
    ensures { OnOk result (out.new ≡ out.old ++
        (field (length o.now.functions) ++ (field (length o.now.slots) ++
        (field (length o.now.ro) ++ field (length o.now.rw))))) }
{
    put_length(out, &o.functions)?;
    put_length(out, &o.slots)?;
    put_length(out, &o.ro)?;
    put_length(out, &o.rw)?;
    Ok(())
}

fn put_length<T>(out: &mut List<u8>, items: &List<T>) -> Result<(), NoMemory>
    requires { length items.now < 2 ^ 32 }
    ensures { OnOk result (out.new ≡ out.old ++ field (length items.now)) }
{
    put_field(out, items.len() as u32)
}

fn put_field(out: &mut List<u8>, n: u32) -> Result<(), NoMemory>
    ensures { OnOk result (out.new ≡ out.old ++ field n) }
{
    out.append(&put_u32_le(n))
}

fn put_word(out: &mut List<u8>, n: u64) -> Result<(), NoMemory>
    ensures { OnOk result (out.new ≡ out.old ++ le_bytes 8 n) }
{
    out.append(&put_u64_le(n))
}

fn put_functions(out: &mut List<u8>, functions: &[Func]) -> Result<(), NoMemory>
    requires { Each FunctionFits functions.now }
    ensures { OnOk result (out.new ≡ out.old ++
        functions_bytes function_bytes functions.now) }
{
    for function in functions {
        put_function(out, function)?;
    }
    Ok(())
}

fn put_function(out: &mut List<u8>, function: &Func) -> Result<(), NoMemory>
    requires { FunctionFits function.now }
    ensures { OnOk result (out.new ≡ out.old ++ function_bytes function.now) }
{
    put_kind(out, function.kind)?;
    put_length(out, &function.bytes)?;
    put_length(out, &function.links)?;
    put_length(out, &function.cuts)?;
    out.append(function.bytes.as_slice())?;
    put_links(out, function.links.as_slice())?;
    put_cuts(out, function.cuts.as_slice())?;
    Ok(())
}

fn put_kind(out: &mut List<u8>, kind: FuncKind) -> Result<(), NoMemory>
    ensures { OnOk result (out.new ≡ out.old ++ field (kind_number kind)) }
{
    match kind {
        FuncKind::Plain => put_field(out, 0),
        FuncKind::Saved => put_field(out, 1),
    }
}

fn put_links(out: &mut List<u8>, links: &[Link]) -> Result<(), NoMemory>
    ensures { OnOk result (out.new ≡ out.old ++ links_bytes links.now) }
{
    for link in links {
        put_link(out, *link)?;
    }
    Ok(())
}

fn put_cuts(out: &mut List<u8>, cuts: &[u32]) -> Result<(), NoMemory>
    ensures { OnOk result (out.new ≡ out.old ++ cuts_bytes cuts.now) }
{
    for cut in cuts {
        put_field(out, *cut)?;
    }
    Ok(())
}

fn put_link(out: &mut List<u8>, link: Link) -> Result<(), NoMemory>
    ensures { OnOk result (out.new ≡ out.old ++ link_bytes link) }
{
    put_field(out, link.at)?;
    put_field(out, link.slot)
}

fn put_slots(out: &mut List<u8>, slots: &[Slot]) -> Result<(), NoMemory>
    ensures { OnOk result (out.new ≡ out.old ++ slots_bytes slots.now) }
{
    for slot in slots {
        put_slot(out, *slot)?;
    }
    Ok(())
}

fn put_slot(out: &mut List<u8>, slot: Slot) -> Result<(), NoMemory>
    ensures { OnOk result (out.new ≡ out.old ++ slot_bytes slot) }
{
    match slot {
        Slot::Entry { target } => put_slot_fields(out, 0, target, NOWHERE),
        Slot::Jump { target } => put_slot_fields(out, 1, target, NOWHERE),
        Slot::Call { target, back } => put_slot_fields(out, 2, target, back),
        Slot::Indirect { back } => put_slot_fields(out, 3, 0, back),
        Slot::System { back } => put_slot_fields(out, 4, 0, back),
    }
}

/// What stands in the place of a way back where the kind has none.
const NOWHERE: CodeAt = CodeAt {
    function: 0,
    offset: 0,
};

fn put_slot_fields(out: &mut List<u8>, kind: u32, target: u32, back: CodeAt) -> Result<(), NoMemory>
    ensures { OnOk result (out.new ≡ out.old ++
        slot_fields kind target back.function back.offset) }
{
    put_field(out, kind)?;
    put_field(out, target)?;
    put_field(out, back.function)?;
    put_field(out, back.offset)?;
    Ok(())
}
