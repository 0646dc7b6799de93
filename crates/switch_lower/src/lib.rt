//! Takes the switches out of a program without phis, and puts compare trees in their place.
//!
//!     switch i8 %v, label %d [ i8 -1, label %a   i8 1, label %b ]
//!
//! becomes a test of `%v` against 1 that goes to `%b` or on to a test against 255, which goes to
//! `%a` or to `%d`. Where there are more than four cases, unsigned comparisons lead to rows of at
//! most four tests each. Time goes by n log n in the cases and is linear in all else, each by the
//! length of its names; size is linear. `specs/Bodies` has what stands where, `specs/Bound` how long
//! a run becomes. What both programs mean stands in `low_core`.
#![tactic(auto)]

ghost use Rattle.std.specs.Prelude.{◌≡◌, ◌≤◌, IfOk};
ghost use Rattle.behavior.specs.Preserves.{Preserves, ReachesWithin};
ghost use Rattle.low_core.specs.Plain.{plain, moves_run};
ghost use Rattle.low_core.specs.Shaped.{IsLow, IsLean, returns_of, local_calls_of};
ghost use Rattle.low_core.specs.Weights.{weight};
ghost use Rattle.switch_lower.specs.Bodies.{bodies_without_switches};
ghost use Rattle.switch_lower.specs.Bound.{most_steps};

pub mod body;
pub mod copy;
pub mod fresh;
pub mod tree;
pub mod ways;

use crate::body::lower_program;
use low_core::moves::{Lean, Low};
use rd_num::width::NoMemory;
use std::alloc::Global;

/// A program without switches that means what a program without phis means.
///
/// `bodies` says which it is. A step of the program is met by at least one step and at most so many
/// as `most_steps` says.
pub fn lower<'a>(alloc: Global, low: &Low<'a>) -> Result<Lean<'a>, NoMemory>
    requires { IsLow low.now }
    ensures base { IfOk result (λ lean. lean.base.now ≡ low.now.base.now) }
    ensures bodies { IfOk result (λ lean. lean.bodies ≡
        bodies_without_switches low.now.base.now low.now.bodies) }
    ensures shaped { IfOk result IsLean }
    ensures keeps { IfOk result (λ lean. Preserves (moves_run low.now.base.now low.now.bodies)
        (moves_run lean.base.now lean.bodies)) }
    ensures within { IfOk result (λ lean. ReachesWithin 0 (most_steps low.now.bodies)
        (moves_run low.now.base.now low.now.bodies) (moves_run lean.base.now lean.bodies)) }
    ensures weighs { IfOk result (λ lean.
        weight (plain lean.base.now lean.bodies) ≤ weight (plain low.now.base.now low.now.bodies)) }
    ensures returns { IfOk result (λ lean. returns_of (plain lean.base.now lean.bodies)
        ≤ returns_of (plain low.now.base.now low.now.bodies)) }
    ensures calls { IfOk result (λ lean. local_calls_of (plain lean.base.now lean.bodies)
        ≤ local_calls_of (plain low.now.base.now low.now.bodies)) }
{
    let base = low.base;
    let bodies = lower_program(alloc, base, &low.bodies)?;
    Ok(Lean { base, bodies })
}
