//! How many parameters functions and declarations have, and how many arguments calls have.

ghost use Rattle.std.specs.Prelude.{◌≡◌, ◌∷◌, ◌<◌, ◌^◌, [], ℕ, List as Row, length, max};
ghost use Rattle.std.specs.List.{flat_map};
ghost use Rattle.ir_core.specs.declared.module.Block.{Block as OneBlock};
ghost use Rattle.ir_core.specs.declared.instruction.Inst.{Inst as OneInst};
ghost use Rattle.ir_core.specs.Counts.{argument_counts, call_counts, parameter_counts, greatest};
ghost use Rattle.ir_core.specs.declared.limit.TheConstants.{MAX_PARAMETERS as MOST};
ghost use Rattle.ir_limits.specs.Past.{first_past};

use crate::gauge::past;
use ir_core::instruction::{Inst, Op};
use ir_core::limit::MAX_PARAMETERS;
use ir_core::module::{Block, Extern, Function, Module};

/// What has parameters or arguments.
trait Counted {
    ghost counts_of: { Self → Row ℕ };

    /// The first count of them that is past the limit.
    fn past_counts(&self) -> Option<u64>
        ensures { result ≡ first_past MOST (counts_of self.now) };
}

/// The first count of items that is past the limit.
#[tactic(auto, using(crate::proofs::PastLaws::count_laws))]
fn past_all<T: Counted>(items: &[T]) -> Option<u64>
    ensures { result ≡ first_past MOST (flat_map T.counts_of items.now) }
{
    for item in items {
        match item.past_counts() {
            Some(count) => return Some(count),
            None => {}
        }
    }
    None
}

impl Counted for Inst {
    ghost counts_of = { λ i. argument_counts i.op };

    #[tactic(auto, using(crate::proofs::PastLaws::count_laws))]
    fn past_counts(&self) -> Option<u64> {
        match &self.op {
            Op::Call(_, _, args) => past(args.len() as u64, MAX_PARAMETERS),
            _ => None,
        }
    }
}

impl Counted for Block {
    ghost counts_of = { λ b. flat_map (λ (i : OneInst). argument_counts i.op) b.insts };

    fn past_counts(&self) -> Option<u64> {
        past_all(self.insts.as_slice())
    }
}

impl Counted for Function {
    ghost counts_of = { λ f. length f.params ∷ call_counts f };

    #[tactic(auto, using(crate::proofs::PastLaws::count_laws))]
    fn past_counts(&self) -> Option<u64> {
        past(self.params.len() as u64, MAX_PARAMETERS).or(past_all(self.blocks.as_slice()))
    }
}

impl Counted for Extern {
    ghost counts_of = { λ e. length e.params ∷ [] };

    fn past_counts(&self) -> Option<u64> {
        past(self.params.len() as u64, MAX_PARAMETERS)
    }
}

/// The first count of a module that is past the limit.
#[tactic(auto, using(crate::proofs::PastLaws::count_laws))]
pub fn past_params(whole: &Module) -> Option<u64>
    ensures { result ≡ first_past MOST (parameter_counts whole.now) }
{
    past_all(whole.externs.as_slice()).or(past_all(whole.functions.as_slice()))
}

/// The arguments of an instruction, if it is a call. Takes no memory.
fn arguments(op: &Op) -> usize
    ensures { result ≡ greatest (argument_counts op.now) }
{
    match op {
        Op::Call(_, _, args) => args.len(),
        _ => 0,
    }
}

/// The greater of two counts. Takes no memory.
fn greater(a: usize, b: usize) -> usize
    ensures { result ≡ max a b }
{
    a.max(b)
}

/// The most arguments that one of some instructions has. Takes no memory.
fn most_in_block(insts: &[Inst]) -> usize
    ensures { result ≡ greatest (flat_map (λ (i : OneInst). argument_counts i.op) insts.now) }
{
    let mut most = 0;
    for i in insts {
        most = greater(most, arguments(&i.op));
    }
    most
}

/// The most arguments that a call in some blocks has. Takes no memory.
pub fn most_arguments(blocks: &[Block]) -> usize
    ensures { result ≡ greatest (flat_map (λ (b : OneBlock).
        flat_map (λ (i : OneInst). argument_counts i.op) b.insts) blocks.now) }
{
    let mut most = 0;
    for b in blocks {
        most = greater(most, most_in_block(b.insts.as_slice()));
    }
    most
}
