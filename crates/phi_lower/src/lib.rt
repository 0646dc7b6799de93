//! Takes the phis out of a module: a valid module in, a program of moves out.
//!
//! A block with phis loses them, and each edge to it gets a chunk of its own, in which all values
//! of the edge are put aside before the first is taken up; so a swap, a cycle and a phi that reads
//! itself come out right. Blocks without phis are entered as before. Time and size are near linear
//! in instructions, edges and entries of phis, each by the length of its names: blocks, entries and
//! edges are found by sets of names, and edges from one block to another share one chunk.
//! `specs/Lowered` has what stands where, `specs/Bound` how long a run becomes. What a program of
//! moves means stands in `low_core`.
#![tactic(auto)]

ghost use Rattle.std.specs.Prelude.{◌≡◌, ◌+◌, ◌≤◌, All, IfOk};
ghost use Rattle.behavior.specs.Preserves.{Preserves, ReachesWithin};
ghost use Rattle.ir_core.specs.Run.{source_run};
ghost use Rattle.ir_core.specs.Counts.{code_count};
ghost use Rattle.low_core.specs.Plain.{plain, moves_run};
ghost use Rattle.low_core.specs.Shaped.{IsBody, IsLow, returns_of, local_calls_of};
ghost use Rattle.low_core.specs.Weights.{weight};
ghost use Rattle.phi_lower.specs.Lowered.{bodies_without_phis};
ghost use Rattle.phi_lower.specs.Bound.{most_steps};

pub mod edges;
pub mod firsts;
pub mod function;
pub mod phi;

use crate::function::lower_functions;
use ir_core::valid::Valid;
use low_core::moves::Low;
use rd_num::width::NoMemory;
use std::alloc::Global;

/// A program without phis that means what a valid module means.
///
/// `bodies` says which it is. A step of the module is met by at least one step and at most so many
/// as `most_steps` says.
pub fn lower<'a>(alloc: Global, valid: &'a Valid) -> Result<Low<'a>, NoMemory>
    ensures base { IfOk result (λ low. low.base.now ≡ valid.now.kept) }
    ensures bodies { IfOk result (λ low. low.bodies ≡ bodies_without_phis valid.now.kept) }
    ensures made { IfOk result (λ low. All IsBody low.bodies) }
    ensures shaped { IfOk result IsLow }
    ensures keeps { IfOk result (λ low.
        Preserves (source_run valid.now.kept) (moves_run low.base.now low.bodies)) }
    ensures within { IfOk result (λ low. ReachesWithin 0 (most_steps valid.now.kept)
        (source_run valid.now.kept) (moves_run low.base.now low.bodies)) }
    ensures weighs { IfOk result (λ low.
        weight (plain low.base.now low.bodies) + 512 ≤ code_count valid.now.kept) }
    ensures returns { IfOk result (λ low.
        returns_of (plain low.base.now low.bodies) ≤ returns_of valid.now.kept) }
    ensures calls { IfOk result (λ low.
        local_calls_of (plain low.base.now low.bodies) ≤ local_calls_of valid.now.kept) }
{
    let base = valid.module();
    let bodies = lower_functions(alloc, base)?;
    Ok(Low { base, bodies })
}
