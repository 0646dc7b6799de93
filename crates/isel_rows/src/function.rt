//! Functions on numbered registers.

ghost use Rattle.std.specs.Prelude.{◌≡◌, ◌+◌, ◌-◌, [], map, max, IfOk};
ghost use Rattle.std.specs.List.{flat_map};
ghost use Rattle.ir_core.specs.declared.instruction.Inst.{Inst as OneInst};
ghost use Rattle.ir_core.specs.declared.module.Block.{Block as OneBlock};
ghost use Rattle.ir_core.specs.Counts.{greatest, argument_counts};
ghost use Rattle.ir_core.specs.Definitions.{repeated};
ghost use Rattle.low_core.specs.declared.moves.Chunk.{Chunk as OneChunk};
ghost use Rattle.low_core.specs.Plain.{op_of, inst_of, block_of, with_blocks};
ghost use Rattle.isel_rows.specs.Variables.{registers_count as registers_count_of};
ghost use Rattle.isel_rows.specs.Functions.{numbers_from, function_selected};

use crate::selector::Selector;
use crate::variables::{Variables, farther, small};
use ir_context::context::Context;
use ir_core::instruction::Op;
use ir_core::limit::REGISTER_PARAMETERS;
use ir_core::module::Function;
use ir_core::names::NameSet;
use low_core::moves::{Body, Chunk, Move, MoveOp};
use low_core::sel::SelFun;
use rd_num::list::List;
use rd_num::width::NoMemory;
use std::alloc::Global;

/// The greater one. Takes no memory.
fn greater(a: usize, b: usize) -> usize
    ensures { result ≡ max a b }
{
    if a < b { b } else { a }
}

/// How many arguments an instruction passes. Takes no memory.
fn op_arguments(op: &Op) -> usize
    ensures { result ≡ greatest (argument_counts op.now) }
{
    match op {
        Op::Call(_, _, args) => args.len(),
        Op::Bin(_, _, _, _) => 0,
        Op::Compare(_, _, _, _) => 0,
        Op::Cast(_, _, _, _) => 0,
        Op::Select(_, _, _, _, _) => 0,
        Op::Freeze(_, _) => 0,
        Op::Alloca(_, _) => 0,
        Op::Load(_, _) => 0,
        Op::Store(_, _, _) => 0,
        Op::Gep(_, _, _) => 0,
        Op::Phi(_, _) => 0,
    }
}

/// How many arguments a move passes. Takes no memory.
fn move_arguments(op: &MoveOp) -> usize
    ensures { result ≡ greatest (argument_counts (op_of op.now)) }
{
    match op {
        MoveOp::Keep(own) => op_arguments(own),
        MoveOp::Copy(_, _) => 0,
    }
}

/// The most arguments that one of moves passes. Takes no memory.
#[tactic(auto, using(crate::proofs::CountLaws::greatest_append))]
fn most_arguments(moves: &[Move]) -> usize
    ensures { result ≡ greatest (flat_map (λ (i : OneInst). argument_counts i.op)
        (map inst_of moves.now)) }
{
    let mut most = 0;
    for x in moves {
        most = greater(most, move_arguments(&x.op));
    }
    most
}

/// The most arguments that a move of chunks passes. Takes no memory.
#[tactic(auto, using(crate::proofs::CountLaws::greatest_append))]
fn most_arguments_in(chunks: &[Chunk]) -> usize
    ensures { result ≡ greatest (flat_map (λ (b : OneBlock).
        flat_map (λ (i : OneInst). argument_counts i.op) b.insts)
        (map block_of chunks.now)) }
{
    let mut most = 0;
    for c in chunks {
        most = greater(most, most_arguments(c.moves.as_slice()));
    }
    most
}

/// How many registers a function with these chunks has.
fn registers_count(variables: &Variables, f: &Function, b: &Body) -> Result<u32, NoMemory>
    ensures { IfOk result (λ n. n ≡ registers_count_of variables.now
        (with_blocks f.now (map block_of b.now.chunks))) }
{
    let most = most_arguments_in(b.chunks.as_slice());
    let own = variables.argument_register(REGISTER_PARAMETERS)?;
    farther(
        own,
        small(most.saturating_sub(REGISTER_PARAMETERS as usize))?,
    )
}

/// The labels of chunks, none of which stands twice.
fn labels_of<'a>(alloc: Global, chunks: &'a [Chunk]) -> Result<NameSet<'a>, NoMemory>
    requires { repeated [] (map (λ (c : OneChunk). c.label) chunks.now) ≡ [] }
    ensures { IfOk result (λ s. s ≡ map (λ (c : OneChunk). c.label) chunks.now) }
{
    let mut labels = NameSet::new(alloc);
    for c in chunks {
        labels.add(&c.label)?;
    }
    Ok(labels)
}

/// So many numbers, from 0 on.
#[tactic(auto, using(crate::proofs::CountLaws::numbers_end))]
fn numbers(alloc: Global, count: usize) -> Result<List<u32>, NoMemory>
    ensures { IfOk result (λ l. l ≡ numbers_from 0 count) }
{
    let mut all = List::new(alloc);
    for k in 0..count {
        all.add(small(k)?)?;
    }
    Ok(all)
}

/// A function with this body.
pub fn select_function(
    alloc: Global,
    context: &Context,
    f: &Function,
    b: &Body,
) -> Result<SelFun, NoMemory>
    requires { repeated [] (map (λ (c : OneChunk). c.label) b.now.chunks) ≡ [] }
    ensures { IfOk result (λ s. s ≡ function_selected context.now
        (with_blocks f.now (map block_of b.now.chunks))) }
{
    let variables = Variables::of(alloc, f, b)?;
    let labels = labels_of(alloc, b.chunks.as_slice())?;
    let selector = Selector {
        alloc,
        context,
        variables: &variables,
    };
    let mut frame = 0;
    let blocks = selector.blocks(&labels, &mut frame, b.chunks.as_slice())?;
    let params = numbers(alloc, f.params.len())?;
    let registers = registers_count(&variables, f, b)?;
    Ok(SelFun {
        params,
        registers,
        frame,
        blocks,
    })
}
