//! Pieces where a plan has them, with the displacements to slots and to other pieces.
//!
//! A plan of `obj_core` says where each piece stands; a builder takes the functions' bytes as they are,
//! and knows no number of an address. Then branches of functions that are cut get the displacements to
//! the places where they go, and links, which are known to lie inside their functions, those to their
//! slots. What comes out is the segment of all code, and the plan for whoever writes the slots.

ghost use Rattle.std.specs.Prelude.{ℕ, ◌≡◌, ◌+◌, ◌-◌, ◌<◌, ◌≤◌, ◌^◌, ◌++◌, length, All, IfOk, slice_index};
ghost use Rattle.std.specs.List.{sum_by};
ghost use Rattle.x86_core.specs.Data.{segment};
ghost use Rattle.obj_core.specs.declared.object.Func.{Func};
ghost use Rattle.obj_core.specs.declared.object.Link.{Link};
ghost use Rattle.obj_core.specs.Disassembly.{instrs_in, size_of};
ghost use Rattle.obj_core.specs.Slots.{positions as positions_of};
ghost use Rattle.obj_core.specs.WellFormed.{displacement as displacement_of, most_code, most_functions};
ghost use Rattle.obj_core.specs.Placement.{code_base};
ghost use Rattle.obj_core.specs.Runs.{end_of_runs};
ghost use Rattle.obj_core.specs.Plans.{IsPlan, planned};
ghost use Rattle.obj_core.specs.Layout.{way_of, ways_of, branch_ways, link_ways, code_bytes};
ghost use Rattle.obj_lay.specs.Putting.{put_ways};

use crate::instr_at::{InstrAt, displacement, instr_at, moved_by};
use obj_core::address::SlotAddr;
use obj_core::checked::Checked;
use obj_core::code::{CodeBuilder, CodePlan};
use obj_core::object::{CodeAt, Func};
use rd_num::width::NoMemory;
use std::alloc::Global;
use x86_core::image::Segment;

/// Where code stands, and the segment of it.
#[derive(Drop)]
pub struct Code {
    pub plan: CodePlan,
    pub segment: Segment,
}

/// All code of an object for a layout seed, each piece written where the plan has it.
pub fn code_of(
    alloc: Global,
    o: &Checked,
    positions: &[u32],
    layout_seed: u64,
) -> Result<Code, NoMemory>
    requires few { length o.now.object.functions ≤ most_functions }
    requires little { sum_by (λ (f : Func). length f.bytes) o.now.object.functions ≤ most_code }
    requires positions { positions.now ≡ positions_of o.now.object }
    requires below { (k : ℕ) → slice_index positions.now k < 2 ^ 20 }
    ensures plan { IfOk result (λ c. IsPlan c.plan o.now.object layout_seed) }
    ensures segment { IfOk result (λ c. c.segment ≡
        segment (code_base layout_seed) (code_bytes o.now.object layout_seed) 1) }
{
    let plan = CodePlan::new(alloc, o, layout_seed)?;
    let functions = o.object().functions.as_slice();
    let mut builder = CodeBuilder::with_code(alloc, &plan, o)?;
    let mut front = 0;
    for i in 0..functions.len() {
        let function = &functions[i];
        fill_function(&mut builder, &plan, i as u32, front, function, positions);
        front += function.bytes.len() as u32;
    }
    Ok(Code {
        plan,
        segment: builder.finish(),
    })
}

/// Fills in the displacements of a function whose bytes begin at a place. Takes no memory.
fn fill_function(
    builder: &mut CodeBuilder,
    plan: &CodePlan,
    number: u32,
    front: u32,
    function: &Func,
    positions: &[u32],
)
    requires small { front + length function.now.bytes ≤ most_code }
    requires room { front + length function.now.bytes ≤ end_of_runs builder.old.runs }
    requires links { All (λ (l : Link). l.at + 4 ≤ length function.now.bytes) function.now.links }
    requires below { (k : ℕ) → slice_index positions.now k < 2 ^ 20 }
    ensures { builder.new ≡ record builder.old {
      bytes = put_ways builder.old.runs builder.old.start front
          (branch_ways (planned plan.now) number function.now function.now.cuts ++
          link_ways positions.now function.now.links) builder.old.bytes;
    } }
{
    fill_cut(builder, plan, number, front, function);
    fill_links(builder, front, function, positions);
}

/// Fills in the displacements of the branches of a function, if it is cut. Takes no memory.
fn fill_cut(builder: &mut CodeBuilder, plan: &CodePlan, number: u32, front: u32, function: &Func)
    requires small { front + length function.now.bytes ≤ most_code }
    requires room { front + length function.now.bytes ≤ end_of_runs builder.old.runs }
    ensures { builder.new ≡ record builder.old {
      bytes = put_ways builder.old.runs builder.old.start front
          (branch_ways (planned plan.now) number function.now function.now.cuts)
          builder.old.bytes;
    } }
{
    if function.cuts.is_empty() {
        return;
    }
    fill_branches(builder, plan, number, front, function);
}

/// Fills in the displacements of the links. Takes no memory.
fn fill_links(builder: &mut CodeBuilder, front: u32, function: &Func, positions: &[u32])
    requires small { front + length function.now.bytes ≤ most_code }
    requires room { front + length function.now.bytes ≤ end_of_runs builder.old.runs }
    requires links { All (λ (l : Link). l.at + 4 ≤ length function.now.bytes) function.now.links }
    requires below { (k : ℕ) → slice_index positions.now k < 2 ^ 20 }
    ensures { builder.new ≡ record builder.old {
      bytes = put_ways builder.old.runs builder.old.start front
          (link_ways positions.now function.now.links) builder.old.bytes;
    } }
{
    for link in function.links.as_slice() {
        let slot = SlotAddr::at(position(positions, link.slot));
        builder.branch_slot(front + link.at, &slot);
    }
}

/// Fills in the displacements of the branches, which are found by decoding. Takes no memory.
fn fill_branches(
    builder: &mut CodeBuilder,
    plan: &CodePlan,
    number: u32,
    front: u32,
    function: &Func,
)
    requires small { front + length function.now.bytes ≤ most_code }
    requires room { front + length function.now.bytes ≤ end_of_runs builder.old.runs }
    ensures { builder.new ≡ record builder.old {
      bytes = put_ways builder.old.runs builder.old.start front
          (ways_of (planned plan.now) number function.now (instrs_in function.now.bytes))
          builder.old.bytes;
    } }
{
    let bytes = function.bytes.as_slice();
    let mut at = 0;
    while at < bytes.len() {
        match instr_at(bytes, at) {
            Some(here) => {
                fill_branch(builder, plan, number, front, function, &here);
                at = here.end as usize;
            }
            None => return,
        }
    }
}

/// Fills in the displacement of an instruction, if it is a branch that goes into its function. Takes no memory.
fn fill_branch(
    builder: &mut CodeBuilder,
    plan: &CodePlan,
    number: u32,
    front: u32,
    function: &Func,
    here: &InstrAt,
)
    requires whole { here.now.end ≡ here.now.at + size_of here.now.instr }
    requires inside { here.now.end ≤ length function.now.bytes }
    requires small { front + length function.now.bytes ≤ most_code }
    requires room { front + length function.now.bytes ≤ end_of_runs builder.old.runs }
    ensures { builder.new ≡ record builder.old {
      bytes = put_ways builder.old.runs builder.old.start front
          (way_of (planned plan.now) number function.now
          (record { at = here.now.at; instr = here.now.instr })
          (displacement_of here.now.instr)) builder.old.bytes;
    } }
{
    if let Some(by) = displacement(&here.instr) {
        let to = moved_by(here.end, by);
        if to < function.bytes.len() as u64 {
            let goal = plan.place(&CodeAt {
                function: number,
                offset: to as u32,
            });
            builder.branch(front + (here.end - 4), &goal);
        }
    }
}

/// The position of a slot, or 0 where there is none. Takes no memory.
pub fn position(positions: &[u32], slot: u32) -> u32
    ensures { result ≡ slice_index positions.now slot }
{
    match positions.get(slot as usize) {
        Some(n) => *n,
        None => 0,
    }
}
