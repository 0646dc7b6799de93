//! Code whose addresses stay hidden: the plan that says where it stands, and the builder that writes it.
//!
//! An address of code is a `Hidden`. A plan makes it, and a builder fills it into a displacement of a
//! segment that may be run alone. No call gives it as a number; whoever holds the finished segment of
//! code can read it there, and what keeps it out of other segments is the contract of who lays out.

ghost use Rattle.std.specs.Prelude.{◌≡◌, ℕ, ◌+◌, ◌-◌, ◌*◌, ◌<◌, ◌≤◌, ◌^◌, [], ◌∷◌, length, IfOk, slice_index};
ghost use Rattle.std.specs.List.{sum_by};
ghost use Rattle.x86_core.specs.Data.{segment};
ghost use Rattle.obj_core.specs.declared.object.Object.{Object};
ghost use Rattle.obj_core.specs.declared.object.Func.{Func};
ghost use Rattle.obj_core.specs.Slots.{slot_base};
ghost use Rattle.obj_core.specs.Pieces.{piece_len};
ghost use Rattle.obj_core.specs.Placement.{filler, displacement_bytes, pieces_in, address};
ghost use Rattle.obj_core.specs.Runs.{end_of_runs, address_at, put_at, runs_from, slot_run};
ghost use Rattle.obj_core.specs.Plans.{IsPlan, fronts, planned};
ghost use Rattle.obj_core.specs.Layout.{bytes_in, code_from};
ghost use Rattle.obj_core.specs.WellFormed.{most_code};

use crate::address::{SLOT_BASE, SlotAddr};
use crate::bytes::{breakpoints, number_at, put_byte, way};
use crate::checked::Checked;
use crate::limits::{row_known, sizes_known};
use crate::object::{CodeAt, Func};
use crate::order::inverted;
use crate::piece::{Piece, pieces_of};
use crate::placed::placed_bytes;
use crate::row::{piece_order, row_of};
use crate::run::{Run, address_by};
use crate::runs::Runs;
use bitflags::Flags;
use rd_num::list::List;
use rd_num::width::NoMemory;
use std::alloc::Global;
use x86_core::image::{Rights, Segment};

/// The right to be run.
const EXECUTE: u8 = 1;

/// The address of a byte of code. No call gives it as a number; `CodeBuilder::branch` alone makes use of it.
#[derive(Clone, Copy)]
pub struct Hidden {
    address: u64,
}

/// Where the code of an object stands for a layout seed: its first address, how many bytes it takes, where
/// functions begin that are put end to end, the pieces by their numbers, the order in which they stand with
/// their starts, and each piece's run.
#[derive(Drop)]
pub struct CodePlan {
    base: u32,
    size: u32,
    fronts: List<u32>,
    pieces: List<Piece>,
    order: List<u32>,
    starts: List<u32>,
    runs: Runs,
}

impl CodePlan {
    /// The plan of an object for a layout seed. Time and memory are linear in functions and cuts.
    #[tactic(auto, unfolding(crate::specs::Plans::piece_runs, crate::specs::Plans::code_size, crate::specs::Placement::starts, crate::specs::Placement::order))]
    pub fn new(alloc: Global, o: &Checked, layout_seed: u64) -> Result<CodePlan, NoMemory>
        ensures { IfOk result (λ plan. IsPlan plan o.now.object layout_seed) }
    {
        let object = o.object();
        sizes_known(object);
        row_known(object, layout_seed);
        let functions = object.functions.as_slice();
        let fronts = fronts_of(alloc, functions)?;
        let pieces = pieces_of(alloc, functions)?;
        let order = piece_order(alloc, pieces.len() as u32, layout_seed)?;
        let row = row_of(alloc, pieces.as_slice(), order.as_slice(), layout_seed)?;
        let places = inverted(alloc, order.as_slice())?;
        let runs = runs_of(
            alloc,
            pieces.as_slice(),
            places.as_slice(),
            row.starts.as_slice(),
        )?;
        Ok(CodePlan {
            base: row.base,
            size: row.end - row.base,
            fronts,
            pieces,
            order,
            starts: row.starts,
            runs,
        })
    }

    /// The address that the layout gives a byte of a function, or 0 where the object has no such byte.
    /// Takes no memory, and time that is the logarithm of the number of pieces.
    pub fn place(&self, at: &CodeAt) -> Hidden
        ensures planned { result.address ≡ planned self.now at.now }
        ensures layout { (o : Object) (seed : ℕ) → IsPlan self.now o seed → result.address ≡
            address o seed at.now }
    {
        Hidden {
            address: self.address_of(at),
        }
    }

    /// The number of that address. Takes no memory.
    fn address_of(&self, at: &CodeAt) -> u64
        ensures { result ≡ planned self.now at.now }
    {
        let fronts = self.fronts.as_slice();
        let function = at.function as usize;
        let place = u64::from(number_at(fronts, function)) + u64::from(at.offset);
        if place < u64::from(number_at(fronts, function + 1)) {
            self.runs.address(place)
        } else {
            0
        }
    }
}

/// Where functions begin that are put end to end, and where the last one ends.
fn fronts_of(alloc: Global, functions: &[Func]) -> Result<List<u32>, NoMemory>
    requires { sum_by (λ (f : Func). length f.bytes) functions.now ≤ most_code }
    ensures { IfOk result (λ all. all ≡ fronts functions.now) }
{
    let mut all = List::new(alloc);
    let mut front = 0;
    for function in functions {
        all.add(front)?;
        front += function.bytes.len() as u32;
    }
    all.add(front)?;
    Ok(all)
}

/// The runs of pieces, where places are by their numbers and starts by their places.
fn runs_of(
    alloc: Global,
    pieces: &[Piece],
    places: &[u32],
    starts: &[u32],
) -> Result<Runs, NoMemory>
    requires { sum_by piece_len pieces.now ≤ most_code }
    ensures { IfOk result (λ all. all ≡ runs_from
        (λ k. slice_index starts.now (slice_index places.now k)) 0 0 pieces.now) }
{
    let mut all = List::new(alloc);
    let mut front = 0;
    for i in 0..pieces.len() {
        let end = front + pieces[i].to.saturating_sub(pieces[i].from);
        let place = number_at(places, i);
        let start = number_at(starts, place as usize);
        all.add(Run { front, end, start })?;
        front = end;
    }
    Ok(Runs::new(all))
}

/// A segment of code or slots that is being made: where it starts, where its places stand, and its bytes.
#[derive(Drop)]
pub struct CodeBuilder {
    start: u32,
    runs: Runs,
    bytes: List<u8>,
}

impl CodeBuilder {
    /// A segment for the slots of an object, all breakpoints; places count from its start.
    pub fn for_slots(alloc: Global, o: &Checked) -> Result<CodeBuilder, NoMemory>
        ensures { IfOk result (λ b. b ≡ record {
          start = slot_base;
          runs = slot_run (16 * length o.now.object.slots) ∷ [];
          bytes = filler (16 * length o.now.object.slots);
        }) }
    {
        let object = o.object();
        sizes_known(object);
        let end = 16 * object.slots.len() as u32;
        let mut all = List::new(alloc);
        all.add(Run {
            front: 0,
            end,
            start: SLOT_BASE,
        })?;
        let bytes = breakpoints(alloc, end)?;
        Ok(CodeBuilder {
            start: SLOT_BASE,
            runs: Runs::new(all),
            bytes,
        })
    }

    /// A segment for the code of a plan, all breakpoints; places count through the functions' bytes, put
    /// end to end in the object's order.
    pub fn for_code(alloc: Global, plan: &CodePlan) -> Result<CodeBuilder, NoMemory>
        ensures { IfOk result (λ b. b ≡ record {
          start = plan.now.base;
          runs = plan.now.runs;
          bytes = filler plan.now.size;
        }) }
    {
        let runs = plan.runs.copied(alloc)?;
        let bytes = breakpoints(alloc, plan.size)?;
        Ok(CodeBuilder {
            start: plan.base,
            runs,
            bytes,
        })
    }

    /// A segment for the code of a plan that has the bytes of functions as they are, each piece where the plan
    /// has it, and breakpoints between. Places count as in one that is all breakpoints.
    pub fn with_code(alloc: Global, plan: &CodePlan, o: &Checked) -> Result<CodeBuilder, NoMemory>
        ensures { IfOk result (λ b. b ≡ record {
          start = plan.now.base;
          runs = plan.now.runs;
          bytes = code_from (bytes_in o.now.object.functions) plan.now.base
              plan.now.starts (pieces_in plan.now.pieces plan.now.order);
        }) }
    {
        let runs = plan.runs.copied(alloc)?;
        let functions = o.object().functions.as_slice();
        let pieces = plan.pieces.as_slice();
        let order = plan.order.as_slice();
        let starts = plan.starts.as_slice();
        let bytes = placed_bytes(alloc, functions, pieces, order, starts, plan.base)?;
        Ok(CodeBuilder {
            start: plan.base,
            runs,
            bytes,
        })
    }

    /// Puts bytes at a place and on. Takes no memory.
    pub fn bytes(&mut self, at: u32, bytes: &[u8])
        requires { at + length bytes.now ≤ end_of_runs self.old.runs }
        ensures { self.new ≡ record self.old {
          bytes = put_at self.old.runs self.old.start
              self.old.bytes at bytes.now;
        } }
    {
        if bytes.is_empty() {
            return;
        }
        let mut run = self.runs.find(u64::from(at));
        for i in 0..bytes.len() {
            let place = u64::from(at) + i as u64;
            if place >= u64::from(run.end) {
                run = self.runs.find(place);
            }
            let address = address_by(&run, place);
            let index = address.saturating_sub(u64::from(self.start));
            put_byte(&mut self.bytes, index as usize, bytes[i]);
        }
    }

    /// Puts the displacement to a byte of code at a place, counted from behind its four bytes. Takes no memory.
    pub fn branch(&mut self, at: u32, to: &Hidden)
        requires { at + 4 ≤ end_of_runs self.old.runs }
        ensures { self.new ≡ record self.old {
          bytes = put_at self.old.runs self.old.start
              self.old.bytes at (displacement_bytes to.now.address
              (address_at self.old.runs (at + 3) + 1));
        } }
    {
        let bytes = way(to.address, self.behind(at));
        self.bytes(at, &bytes);
    }

    /// Puts the displacement to a slot at a place, counted from behind its four bytes. Takes no memory.
    pub fn branch_slot(&mut self, at: u32, to: &SlotAddr)
        requires { at + 4 ≤ end_of_runs self.old.runs }
        ensures { self.new ≡ record self.old {
          bytes = put_at self.old.runs self.old.start
              self.old.bytes at (displacement_bytes (slot_base + 16 * to.now.position)
              (address_at self.old.runs (at + 3) + 1));
        } }
    {
        let bytes = way(to.number(), self.behind(at));
        self.bytes(at, &bytes);
    }

    /// The segment, which may be run alone. Takes no memory.
    pub fn finish(self) -> Segment
        ensures { result ≡ segment self.start self.bytes 1 }
    {
        Segment {
            start: u64::from(self.start),
            bytes: self.bytes,
            rights: Rights::from_bits_retain(EXECUTE),
        }
    }

    /// The address behind four bytes at a place. Takes no memory.
    fn behind(&self, at: u32) -> u64
        requires { at + 4 ≤ end_of_runs self.now.runs }
        ensures { result ≡ address_at self.now.runs (at + 3) + 1 }
    {
        self.address(u64::from(at) + 3) + 1
    }

    /// The address of the byte at a place. Takes no memory.
    fn address(&self, at: u64) -> u64
        requires { at < end_of_runs self.now.runs }
        ensures value { result ≡ address_at self.now.runs at }
        ensures low { result < 2 ^ 63 }
    {
        let run = self.runs.find(at);
        address_by(&run, at)
    }
}
