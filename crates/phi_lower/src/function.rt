//! Functions without phis.

ghost use Rattle.std.specs.Prelude.{◌≡◌, ◌++◌, [], IfOk, OnOk, map, take, drop};
ghost use Rattle.std.specs.List.{flat_map};
ghost use Rattle.std.specs.Option.{option_copied};
ghost use Rattle.ir_core.specs.Definitions.{label_names, repeated, doubled};
ghost use Rattle.low_core.specs.Plain.{move_of};
ghost use Rattle.phi_lower.specs.Lowered.{behind_phis as insts_behind_phis, chunk_of_block, phis_or_none, chunk_to, chunks_to, chunks_of_block, body_of, bodies_without_phis};

use crate::edges::{Edges, edge_label, targets};
use crate::phi::{Phi, edge_moves};
use ir_core::instruction::{Inst, Op, Term};
use ir_core::module::{Block, Function, Module};
use ir_core::names::NameSet;
use ir_core::ty::Name;
use low_core::copies::{copy_move, copy_name};
use low_core::moves::{Body, Chunk, Move};
use rd_num::list::List;
use rd_num::width::NoMemory;
use std::alloc::Global;

/// Adds the moves of instructions.
fn add_moves(alloc: Global, all: &mut List<Move>, insts: &[Inst]) -> Result<(), NoMemory>
    ensures { OnOk result (all.new ≡ all.old ++ map move_of insts.now) }
{
    for i in insts {
        let own = copy_move(alloc, i)?;
        all.add(own)?;
    }
    Ok(())
}

/// The instructions behind the phis of a block. Takes no memory.
fn behind_phis(insts: &[Inst]) -> &[Inst]
    ensures { result.now ≡ insts_behind_phis insts.now }
{
    let mut count = 0;
    for i in insts {
        match &i.op {
            Op::Phi(_, _) => count += 1,
            _ => return &insts[count..],
        }
    }
    &insts[count..]
}

/// A block without its phis.
fn chunk_of(alloc: Global, edges: &Edges, b: &Block) -> Result<Chunk, NoMemory>
    ensures { IfOk result (λ c. c ≡ chunk_of_block edges.now b.now) }
{
    let label = copy_name(alloc, &b.label)?;
    let mut moves = List::new(alloc);
    add_moves(alloc, &mut moves, behind_phis(b.insts.as_slice()))?;
    let end = edges.with_ways(alloc, &b.label, &b.end)?;
    Ok(Chunk { label, moves, end })
}

/// Adds the chunk of an edge to a block with these phis, where there are some.
fn add_chunk(
    alloc: Global,
    all: &mut List<Chunk>,
    from: &Name,
    to: &Name,
    phis: &[Phi],
) -> Result<(), NoMemory>
    ensures { OnOk result (all.new ≡ all.old ++ chunk_to from.now to.now phis.now) }
{
    if phis.is_empty() {
        return Ok(());
    }
    let label = edge_label(alloc, from, to)?;
    let moves = edge_moves(alloc, from, phis)?;
    let to = copy_name(alloc, to)?;
    all.add(Chunk {
        label,
        moves,
        end: Term::Br(to),
    })
}

/// Adds the chunk of an edge, by the phis of the block to which it goes.
fn add_edge(
    alloc: Global,
    all: &mut List<Chunk>,
    from: &Name,
    to: &Name,
    phis: Option<&List<Phi>>,
) -> Result<(), NoMemory>
    ensures { OnOk result (all.new ≡ all.old ++
        chunk_to from.now to.now (phis_or_none (option_copied phis.entry))) }
{
    match phis {
        Some(own) => add_chunk(alloc, all, from, to, own.as_slice()),
        None => Ok(()),
    }
}

/// Adds the chunk of the edge to the label of a number; there may be none.
fn add_edge_at(
    alloc: Global,
    all: &mut List<Chunk>,
    edges: &Edges,
    from: &Name,
    targets: &NameSet,
    k: usize,
) -> Result<(), NoMemory>
    ensures { OnOk result (all.new ≡ all.old ++ chunks_to edges.now from.now
        (take 1 (drop k targets.now))) }
{
    match targets.get(k) {
        Some(to) => {
            add_edge(alloc, all, from, to, edges.phis_to(to))?;
            Ok(())
        }
        None => Ok(()),
    }
}

/// Adds the chunks of the edges to labels.
fn add_edges(
    alloc: Global,
    all: &mut List<Chunk>,
    edges: &Edges,
    from: &Name,
    targets: &NameSet,
) -> Result<(), NoMemory>
    ensures { OnOk result (all.new ≡ all.old ++ chunks_to edges.now from.now targets.now) }
{
    for k in 0..targets.len() {
        add_edge_at(alloc, all, edges, from, targets, k)?;
    }
    Ok(())
}

/// Adds a block without its phis and the chunks of its edges.
fn add_block(alloc: Global, all: &mut List<Chunk>, edges: &Edges, b: &Block) -> Result<(), NoMemory>
    ensures { OnOk result (all.new ≡ all.old ++ chunks_of_block edges.now b.now) }
{
    let own = chunk_of(alloc, edges, b)?;
    all.add(own)?;
    let to = targets(alloc, &b.end)?;
    add_edges(alloc, all, edges, &b.label, &to)?;
    Ok(())
}

/// Blocks without their phis, with the chunks of their edges.
fn chunks_of(alloc: Global, edges: &Edges, blocks: &[Block]) -> Result<List<Chunk>, NoMemory>
    ensures { IfOk result (λ cs. cs ≡ flat_map (chunks_of_block edges.now) blocks.now) }
{
    let mut all = List::new(alloc);
    for b in blocks {
        add_block(alloc, &mut all, edges, b)?;
    }
    Ok(all)
}

/// A function without phis.
fn lower_function(alloc: Global, f: &Function) -> Result<Body, NoMemory>
    requires { repeated [] (label_names f.now) ≡ [] }
    ensures { IfOk result (λ b. b ≡ body_of f.now) }
{
    let edges = Edges::new(alloc, f.blocks.as_slice())?;
    let chunks = chunks_of(alloc, &edges, f.blocks.as_slice())?;
    Ok(Body { chunks })
}

/// The functions of a module without phis.
pub fn lower_functions(alloc: Global, m: &Module) -> Result<List<Body>, NoMemory>
    requires { doubled m.now ≡ [] }
    ensures { IfOk result (λ bs. bs ≡ bodies_without_phis m.now) }
{
    let mut all = List::new(alloc);
    for f in m.functions.as_slice() {
        let own = lower_function(alloc, f)?;
        all.add(own)?;
    }
    Ok(all)
}
