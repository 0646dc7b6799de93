//! The bytes of the two parts of data: what globals hold, with zeros up to multiples of 16.

ghost use Rattle.std.specs.Prelude.{◌≡◌, ◌-◌, ◌++◌, map, replicate, length, IfOk, OnOk};
ghost use Rattle.ir_core.specs.Shapes.{rounded};
ghost use Rattle.low_core.specs.Contents.{cell_byte};
ghost use Rattle.low_core.specs.Placing.{bytes_in_part, part_bytes};
ghost use Rattle.data_place.specs.Placed.{addresses_in};
ghost use Rattle.data_place.specs.Starts.{told_content};

use crate::words::Words;
use ir_context::context::Context;
use ir_core::memory::Cell;
use ir_core::module::GlobalVar;
use ir_globals::cells::put_init;
use rd_num::list::List;
use rd_num::width::NoMemory;
use std::alloc::Global;

/// Puts the bytes of cells at the end.
fn put_cells(words: &Words, cells: &[Cell], bytes: &mut List<u8>) -> Result<(), NoMemory>
    ensures { OnOk result (bytes.new ≡ bytes.old ++
        map (cell_byte (addresses_in words.now.globals.now words.now.pointers.now)) cells.now) }
{
    for c in cells {
        bytes.add(words.byte(*c))?;
    }
    Ok(())
}

/// How many bytes there are up to the next multiple of 16.
#[tactic(auto, using(crate::proofs::PartLaws::gap_sixteen))]
fn gap(size: usize) -> usize
    ensures { result ≡ rounded size 16 - size }
{
    (16 - size % 16) % 16
}

/// Puts so many zeros at the end.
fn put_zeros(bytes: &mut List<u8>, count: usize) -> Result<(), NoMemory>
    ensures { OnOk result (bytes.new ≡ bytes.old ++ replicate count 0) }
{
    for _one in 0..count {
        bytes.add(0)?;
    }
    Ok(())
}

/// Puts what a global holds at the end of a part, if it lies in that.
fn put_global(
    alloc: Global,
    context: &Context,
    words: &Words,
    constant: bool,
    g: &GlobalVar,
    bytes: &mut List<u8>,
) -> Result<(), NoMemory>
    ensures { OnOk result (bytes.new ≡ bytes.old ++ bytes_in_part constant
        (told_content context.now (addresses_in words.now.globals.now words.now.pointers.now) g.now)) }
{
    if g.constant != constant {
        return Ok(());
    }
    let mut cells = Vec::new(alloc);
    put_init(alloc, context, &mut cells, &g.init, &g.ty)?;
    put_cells(words, cells.as_slice(), bytes)?;
    put_zeros(bytes, gap(cells.len()))
}

/// The part of the constants, or that of the others.
pub(crate) fn part(
    alloc: Global,
    context: &Context,
    words: &Words,
    constant: bool,
    globals: &[GlobalVar],
) -> Result<List<u8>, NoMemory>
    ensures { IfOk result (λ bytes. bytes ≡ part_bytes constant (map (told_content context.now
        (addresses_in words.now.globals.now words.now.pointers.now)) globals.now)) }
{
    let mut bytes = List::new(alloc);
    for g in globals {
        put_global(alloc, context, words, constant, g, &mut bytes)?;
    }
    Ok(bytes)
}
