//! The image of an object: slots, data and code, each in a segment of its own.
//!
//! `lay` is the one call: a checked object and a layout seed in, an image out, or want of memory. What
//! its contract says of runs stands in `specs/Hidden.antt`, and which image it is in `Layout.antt` of
//! `obj_core`. Only `code` and `slots` see where code stands; nothing of it goes into data or the entry.

ghost use Rattle.std.specs.Prelude.{ℕ, ◌≡◌, ◌++◌, ◌<◌, ◌≤◌, ◌^◌, length, OnOk, IfOk, slice_index, if◌then◌else◌};
ghost use Rattle.std.specs.List.{sum_by};
ghost use Rattle.x86_core.specs.Data.{ro_start, rw_start, segment as segment_of};
ghost use Rattle.obj_core.specs.declared.object.Func.{Func};
ghost use Rattle.obj_core.specs.Slots.{positions as positions_of};
ghost use Rattle.obj_core.specs.WellFormed.{IsWellFormed, most_code, most_functions, most_slots};
ghost use Rattle.elf_file.specs.Sound.{IsSound};
ghost use Rattle.obj_core.specs.Layout.{present, layout};
ghost use Rattle.obj_lay.specs.Hidden.{HasDataOf, RepliesAsObject, ShowTheSame, ShowsObject};

use crate::code::{code_of, position};
use crate::slots::slot_segment;
use obj_core::address::SlotAddr;
use obj_core::checked::Checked;
use obj_core::object::Object;
use obj_core::readable::ReadBuilder;
use rd_draw::{perm, shuffle_known};
use rd_num::list::List;
use rd_num::width::NoMemory;
use std::alloc::Global;
use x86_core::image::{Image, RO_START, RW_START, Segment};

/// What the order of slots is drawn for.
const SLOT_PURPOSE: u32 = 2;

/// The image of an object for a layout seed, which is sound and hides where its code lies.
///
/// Time is linear in the image, with the logarithm of the number of pieces for each link, branch and slot;
/// memory is that of the image, and a constant a piece and a slot.
#[tactic(auto, unfolding(obj_core::specs::Layout::layout))]
pub fn lay(alloc: Global, o: &Checked, layout_seed: u64) -> Result<Image, NoMemory>
    ensures layout { IfOk result (λ image. image ≡ layout o.now.object layout_seed) }
    ensures sound { IfOk result IsSound }

    // No seed is in what may be read, and nothing that is shown tells one layout from another.
    ensures shows { IfOk result (λ image. ShowsObject image o.now.object) }
    ensures replies { IfOk result (λ image. RepliesAsObject image o.now.object) }
    ensures data_of { IfOk result (λ image. HasDataOf image o.now.object) }
    ensures lockstep { IfOk result (λ image. (other : ℕ) →
        ShowTheSame image (layout o.now.object other) o.now.object) }
{
    let object = o.object();
    sizes_known(object);
    let positions = slot_positions(alloc, object)?;
    let code = code_of(alloc, o, positions.as_slice(), layout_seed)?;
    let slots = slot_segment(alloc, o, &code.plan, positions.as_slice())?;
    let segments = four_segments(alloc, object, slots, code.segment)?;
    let entry = SlotAddr::at(position(positions.as_slice(), 0)).number();
    Ok(Image { entry, segments })
}

/// Makes it known to a proof how large a well-formed object is at most.
fn sizes_known(o: &Object)
    requires { ∥ IsWellFormed o.now ∥₁ }
    ensures functions { length o.now.functions ≤ most_functions }
    ensures slots { length o.now.slots ≤ most_slots }
    ensures code { sum_by (λ (f : Func). length f.bytes) o.now.functions ≤ most_code }
{}

/// The segments of an image, in the order of their addresses, without the empty ones.
fn four_segments(
    alloc: Global,
    o: &Object,
    slots: Segment,
    code: Segment,
) -> Result<List<Segment>, NoMemory>
    ensures { IfOk result (λ all. all ≡ present slots.start slots.bytes slots.rights.0 ++
        (present ro_start o.now.ro 4 ++ (present rw_start o.now.rw 6 ++
        present code.start code.bytes code.rights.0))) }
{
    let mut all = List::new(alloc);
    let ro = data(alloc, RO_START, o.ro.as_slice(), false)?;
    let rw = data(alloc, RW_START, o.rw.as_slice(), true)?;
    put_segment(&mut all, slots)?;
    put_segment(&mut all, ro)?;
    put_segment(&mut all, rw)?;
    put_segment(&mut all, code)?;
    Ok(all)
}

/// A readable segment of these bytes.
fn data(alloc: Global, start: u64, bytes: &[u8], writable: bool) -> Result<Segment, NoMemory>
    ensures { IfOk result (λ s. s ≡ segment_of start bytes.now (if writable then 6 else 4)) }
{
    let mut builder = ReadBuilder::new(alloc, start);
    builder.bytes(bytes)?;
    Ok(builder.finish(writable))
}

/// Puts a segment at the end, unless it is empty.
fn put_segment(all: &mut List<Segment>, segment: Segment) -> Result<(), NoMemory>
    ensures { OnOk result (all.new ≡ all.old ++
        present segment.start segment.bytes segment.rights.0) }
{
    if segment.bytes.is_empty() {
        return Ok(());
    }
    all.add(segment)
}

/// Where slots stand, by their numbers.
#[tactic(auto, unfolding(obj_core::specs::Slots::positions))]
fn slot_positions(alloc: Global, o: &Object) -> Result<List<u32>, NoMemory>
    requires { length o.now.slots ≤ most_slots }
    ensures value { IfOk result (λ all. all ≡ positions_of o.now) }
    ensures below { IfOk result (λ all. (k : ℕ) → slice_index all k < 2 ^ 20) }
{
    shuffle_known();
    perm(alloc, o.slot_seed, SLOT_PURPOSE, 0, o.slots.len() as u32)
}
