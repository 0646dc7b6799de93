//! Bodies without switches.

ghost use Rattle.std.specs.Prelude.{◌≡◌, ◌++◌, IfOk, OnOk, length};
ghost use Rattle.ir_core.specs.declared.instruction.Term.TheVariants.{Switch as SwitchEnd};
ghost use Rattle.switch_lower.specs.Bodies.{chunks_by, chunks_for, chunks_from, body_of, bodies_of, bodies_without_switches};

use crate::copy::{copy_chunk, copy_moves};
use crate::fresh::{chunk_name, padding};
use crate::tree::Switch;
use crate::ways::ways;
use ir_core::instruction::{Case, Term};
use ir_core::module::{Function, Module};
use low_core::copies::copy_name;
use low_core::moves::{Body, Chunk};
use rd_num::list::List;
use rd_num::width::NoMemory;
use std::alloc::Global;

/// Adds a chunk that ends in this switch, without the switch, and the compare tree behind it.
fn add_switch(
    alloc: Global,
    all: &mut List<Chunk>,
    c: &Chunk,
    switch: &Switch,
    cases: &[Case],
) -> Result<(), NoMemory>
    ensures { OnOk result (all.new ≡ all.old ++ chunks_by switch.now.padding (length all.old) c.now
        (SwitchEnd switch.now.ty switch.now.value switch.now.default cases.now)) }
{
    let at = all.as_slice().len() as u64;
    let label = copy_name(alloc, &c.label)?;
    let moves = copy_moves(alloc, c.moves.as_slice())?;
    let to = chunk_name(alloc, switch.padding, at + 1)?;
    all.add(Chunk {
        label,
        moves,
        end: Term::Br(to),
    })?;
    let own = ways(alloc, switch.ty, cases)?;
    switch.add(alloc, all, own.as_slice())
}

/// Adds what stands in the place of a chunk.
fn add_chunk(
    alloc: Global,
    all: &mut List<Chunk>,
    padding: usize,
    c: &Chunk,
) -> Result<(), NoMemory>
    ensures { OnOk result (all.new ≡ all.old ++ chunks_for padding (length all.old) c.now) }
{
    match &c.end {
        Term::Switch(ty, value, default, cases) => {
            let switch = Switch {
                ty,
                value,
                default,
                padding,
            };
            add_switch(alloc, all, c, &switch, cases.as_slice())
        }
        _ => {
            let own = copy_chunk(alloc, c)?;
            all.add(own)
        }
    }
}

/// What stands in the place of chunks.
fn lower_chunks(alloc: Global, padding: usize, chunks: &[Chunk]) -> Result<List<Chunk>, NoMemory>
    ensures { IfOk result (λ cs. cs ≡ chunks_from padding 0 chunks.now) }
{
    let mut all = List::new(alloc);
    for c in chunks {
        add_chunk(alloc, &mut all, padding, c)?;
    }
    Ok(all)
}

/// The body of a function without switches.
fn lower_body(alloc: Global, f: &Function, b: &Body) -> Result<Body, NoMemory>
    ensures { IfOk result (λ r. r ≡ body_of f.now b.now) }
{
    let chunks = lower_chunks(alloc, padding(f, b), b.chunks.as_slice())?;
    Ok(Body { chunks })
}

/// The bodies of a program without switches.
pub fn lower_program(
    alloc: Global,
    base: &Module,
    bodies: &List<Body>,
) -> Result<List<Body>, NoMemory>
    ensures { IfOk result (λ bs. bs ≡ bodies_without_switches base.now bodies.now) }
{
    lower_bodies(alloc, base.functions.as_slice(), bodies.as_slice())
}

/// The bodies of functions without switches.
fn lower_bodies(
    alloc: Global,
    functions: &[Function],
    bodies: &[Body],
) -> Result<List<Body>, NoMemory>
    ensures { IfOk result (λ bs. bs ≡ bodies_of functions.now bodies.now) }
{
    let mut all = List::new(alloc);
    for k in 0..functions.len() {
        if k >= bodies.len() {
            return Ok(all);
        }
        let own = lower_body(alloc, &functions[k], &bodies[k])?;
        all.add(own)?;
    }
    Ok(all)
}
