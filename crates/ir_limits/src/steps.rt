//! How many instructions and terminators functions have, each and together.

ghost use Rattle.std.specs.Prelude.{◌≡◌, map};
ghost use Rattle.ir_core.specs.declared.module.Function.{Function as OneFunction};
ghost use Rattle.ir_core.specs.Counts.{told, steps_in, total_count};
ghost use Rattle.ir_core.specs.declared.limit.TheConstants.{MAX_INSTRUCTIONS as MOST};
ghost use Rattle.ir_limits.specs.Past.{first_past};

use crate::gauge::past;
use crate::sum::plus;
use ir_core::limit::MAX_INSTRUCTIONS;
use ir_core::module::{Block, Function, Module};

/// The instructions and terminators of blocks. Takes no memory.
#[tactic(auto, using(crate::proofs::ToldLaws::told_more))]
fn steps(blocks: &[Block]) -> u64
    ensures { result ≡ told (steps_in blocks.now) }
{
    let mut sum = 0;
    for b in blocks {
        sum = plus(sum, plus(b.insts.len() as u64, 1));
    }
    sum
}

/// Those of a module. Takes no memory.
#[tactic(auto, using(crate::proofs::ToldLaws::told_more))]
pub fn total(whole: &Module) -> u64
    ensures { result ≡ told (total_count whole.now) }
{
    let mut sum = 0;
    for f in whole.functions.as_slice() {
        sum = plus(sum, steps(f.blocks.as_slice()));
    }
    sum
}

/// The first function's count that is past the limit.
#[tactic(auto, using(crate::proofs::PastLaws::count_laws))]
pub fn past_steps(functions: &[Function]) -> Option<u64>
    ensures { result ≡ first_past MOST
        (map (λ (f : OneFunction). told (steps_in f.blocks)) functions.now) }
{
    for f in functions {
        match past(steps(f.blocks.as_slice()), MAX_INSTRUCTIONS) {
            Some(count) => return Some(count),
            None => {}
        }
    }
    None
}
