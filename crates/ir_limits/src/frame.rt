//! How much of the stack a call of a function takes, and how much memory globals take.
//!
//! A frame has a part of one size, and a place of 16 bytes for each parameter, for each argument that
//! a call passes on the stack, for each result and once more for each phi. Objects come on top.

ghost use Rattle.std.specs.Prelude.{◌≡◌, ◌+◌, map, ℕ, Option as Maybe, List as Row};
ghost use Rattle.std.specs.List.{sum_by};
ghost use Rattle.ir_core.specs.Counts.{told, spaced, result_count, phi_count, alloca_bytes as bytes_of_alloca, inst_frame, stack_arguments as passed_on, frame_count, bytes_count};
ghost use Rattle.ir_core.specs.declared.module.Block.{Block as OneBlock};
ghost use Rattle.ir_core.specs.declared.limit.TheConstants.{MAX_FRAME as MOST};
ghost use Rattle.ir_limits.specs.Past.{first_past};

use crate::gauge::past;
use crate::params::most_arguments;
use crate::sum::{plus, times, with_gap};
use ir_core::instruction::{Inst, Op};
use ir_core::limit::{MAX_FRAME, REGISTER_PARAMETERS};
use ir_core::module::{Block, Function, Module};
use ir_core::size::Sizes;

/// The part of a frame that each has.
const FRAME: u64 = 256;

/// The place of a parameter, an argument or a result.
const PLACE: u64 = 16;

/// How many places an instruction takes. Takes no memory.
fn places(i: &Inst) -> u64
    ensures { result ≡ result_count i.now.result + phi_count i.now.op }
{
    let of_result = match i.result {
        Some(_) => 1,
        None => 0,
    };
    let of_phi = match i.op {
        Op::Phi(_, _) => 1,
        _ => 0,
    };
    of_result + of_phi
}

/// The bytes of the objects that an instruction makes. Takes no memory.
fn alloca_bytes(sizes: &Sizes, op: &Op) -> u64
    ensures { result ≡ told (bytes_of_alloca sizes.now op.now) }
{
    match op {
        Op::Alloca(ty, count) => with_gap(times(u64::from(*count), sizes.size(ty))),
        _ => 0,
    }
}

/// What instructions take. Takes no memory.
#[tactic(auto, using(crate::proofs::ToldLaws::told_more))]
fn insts_frame(sizes: &Sizes, insts: &[Inst]) -> u64
    ensures { result ≡ told (sum_by (inst_frame sizes.now) insts.now) }
{
    let mut sum = 0;
    for i in insts {
        sum = plus(sum, inst_bytes(sizes, i));
    }
    sum
}

/// What one instruction takes. Takes no memory.
fn inst_bytes(sizes: &Sizes, i: &Inst) -> u64
    ensures { result ≡ told (inst_frame sizes.now i.now) }
{
    plus(PLACE * places(i), alloca_bytes(sizes, &i.op))
}

/// What blocks take. Takes no memory.
#[tactic(auto, using(crate::proofs::ToldLaws::told_more))]
fn blocks_frame(sizes: &Sizes, blocks: &[Block]) -> u64
    ensures { result ≡ told (sum_by
        (λ (b : OneBlock). sum_by (inst_frame sizes.now) b.insts) blocks.now) }
{
    let mut sum = 0;
    for b in blocks {
        sum = plus(sum, insts_frame(sizes, b.insts.as_slice()));
    }
    sum
}

/// The most arguments that a call of a function passes on the stack. Takes no memory.
fn stack_arguments(f: &Function) -> u64
    ensures { result ≡ passed_on f.now }
{
    (most_arguments(f.blocks.as_slice()) as u64).saturating_sub(u64::from(REGISTER_PARAMETERS))
}

/// The frame of a function, as far as 2^64 - 1. Takes no memory.
fn frame(sizes: &Sizes, f: &Function) -> u64
    ensures { result ≡ frame_count sizes.now f.now }
{
    let of_params = plus(FRAME, times(PLACE, f.params.len() as u64));
    let passed = plus(of_params, times(PLACE, stack_arguments(f)));
    plus(passed, blocks_frame(sizes, f.blocks.as_slice()))
}

/// The first frame that is past the limit.
#[tactic(auto, using(crate::proofs::PastLaws::count_laws))]
pub fn past_frames(sizes: &Sizes, functions: &[Function]) -> Option<u64>
    ensures { result ≡ first_past MOST (map (frame_count sizes.now) functions.now) }
{
    for f in functions {
        match past(frame(sizes, f), MAX_FRAME) {
            Some(count) => return Some(count),
            None => {}
        }
    }
    None
}

/// The bytes of globals, as far as 2^64 - 1. Takes no memory.
#[tactic(auto, using(crate::proofs::ToldLaws::told_more))]
pub fn global_bytes(sizes: &Sizes, whole: &Module) -> u64
    requires { sizes.now ≡ whole.now.types }
    ensures { result ≡ bytes_count whole.now }
{
    let mut sum = 0;
    for g in whole.globals.as_slice() {
        sum = plus(sum, with_gap(sizes.size(&g.ty)));
    }
    sum
}
