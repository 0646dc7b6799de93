//! What initialisers hold, as cells, to any depth that a module has: 64 levels at most.
//!
//! Each function puts its cells behind those that are there already. Gaps between the fields of
//! structs are zeros.

ghost use Rattle.std.specs.Prelude.{◌≡◌, ◌+◌, ◌-◌, ◌≤◌, ◌++◌, [], length, map, ◌∷◌, OnOk, IfOk};
ghost use Rattle.ir_core.specs.declared.memory.Cell.TheVariants.{Byte as ByteCell};
ghost use Rattle.ir_core.specs.Sizes.{align_bytes};
ghost use Rattle.ir_core.specs.Shapes.{rounded};
ghost use Rattle.ir_core.specs.Kinds.{kind_of};
ghost use Rattle.ir_core.specs.Memory.{cells_of};
ghost use Rattle.ir_core.specs.Globals.{zeros, end_to_end, spread};
ghost use Rattle.ir_context.specs.Origins.{origin_of};
ghost use Rattle.ir_globals.specs.Told.{origin_cells, behind_gap, told_cells, told_part};

use ir_context::context::Context;
use ir_context::origin::Origin;
use ir_core::init::{Elem, Init};
use ir_core::kind::Kind;
use ir_core::memory::{Cell, Value};
use ir_core::names::NameSet;
use ir_core::operand::Operand;
use ir_core::size::Align;
use ir_core::ty::Ty;
use ir_memory::cells::stored_as;
use rd_num::width::NoMemory;
use std::alloc::Global;

/// Puts a cell at the end.
fn put_cell(cells: &mut Vec<Cell>, cell: Cell) -> Result<(), NoMemory>
    ensures { OnOk result (cells.new.items ≡ cells.old.items ++ cell ∷ []) }
{
    match cells.push(cell) {
        Ok(()) => Ok(()),
        Err(_) => Err(NoMemory),
    }
}

/// So many zero bytes.
#[tactic(auto, using(crate::proofs::Steps::zeros_step))]
fn put_zeros(cells: &mut Vec<Cell>, count: u64) -> Result<(), NoMemory>
    ensures { OnOk result (cells.new.items ≡ cells.old.items ++ zeros count) }
{
    for _one in 0..count {
        put_cell(cells, Cell::Byte(0))?;
    }
    Ok(())
}

/// The bytes of a text.
fn put_text(cells: &mut Vec<Cell>, bytes: &[u8]) -> Result<(), NoMemory>
    ensures { OnOk result (cells.new.items ≡ cells.old.items ++ map ByteCell bytes.now) }
{
    for byte in bytes {
        put_cell(cells, Cell::Byte(*byte))?;
    }
    Ok(())
}

/// The cells of a value.
fn put_value(cells: &mut Vec<Cell>, v: Value) -> Result<(), NoMemory>
    ensures { OnOk result (cells.new.items ≡ cells.old.items ++ cells_of v) }
{
    let stored = stored_as(v);
    match cells.extend_from_slice(&stored.cells[..stored.count]) {
        Ok(()) => Ok(()),
        Err(_) => Err(NoMemory),
    }
}

/// A value that is known, or so many zeros.
fn put_origin(cells: &mut Vec<Cell>, size: u64, origin: Origin) -> Result<(), NoMemory>
    ensures { OnOk result (cells.new.items ≡ cells.old.items ++ origin_cells size origin) }
{
    match origin {
        Origin::Known(v) => put_value(cells, v),
        Origin::Register(_) => put_zeros(cells, size),
        Origin::Unset => put_zeros(cells, size),
        Origin::Malformed => put_zeros(cells, size),
    }
}

/// Where an operand outside of all functions comes from.
fn origin(alloc: Global, context: &Context, ty: &Ty, v: &Operand) -> Result<Origin, NoMemory>
    ensures { IfOk result (λ o. o ≡ origin_of context.now [] (kind_of ty.now) v.now) }
{
    let nothing = NameSet::new(alloc);
    context.origin(alloc, &nothing, Kind::of(ty), v)
}

/// The bytes up to the next multiple of an alignment.
#[tactic(auto, using(crate::proofs::Steps::gap_two, crate::proofs::Steps::gap_four, crate::proofs::Steps::gap_eight, crate::proofs::Steps::gap_one))]
fn gap(at: u64, align: Align) -> u64
    ensures { result ≡ rounded at (align_bytes align) - at }
{
    match align {
        Align::One => 0,
        Align::Two => at % 2,
        Align::Four => (4 - at % 4) % 4,
        Align::Eight => (8 - at % 8) % 8,
    }
}

/// Elements end to end.
#[cycle(cells)]
fn put_elements(
    alloc: Global,
    context: &Context,
    cells: &mut Vec<Cell>,
    elements: &[Elem],
) -> Result<(), NoMemory>
    ensures { OnOk result (cells.new.items ≡ cells.old.items ++
        end_to_end (map (told_part context.now) elements.now)) }
{
    for e in elements {
        put_init(alloc, context, cells, &e.init, &e.ty)?;
    }
    Ok(())
}

/// A field behind the gap in front of it, in a struct that begins behind so many cells.
#[cycle(cells)]
fn put_field(
    alloc: Global,
    context: &Context,
    cells: &mut Vec<Cell>,
    start: usize,
    e: &Elem,
) -> Result<(), NoMemory>
    requires { start ≤ length cells.old.items }
    ensures { OnOk result (cells.new.items ≡ cells.old.items ++
        behind_gap (length cells.old.items - start) (told_part context.now e.now)) }
{
    let at = (cells.len() - start) as u64;
    put_zeros(cells, gap(at, context.extent(&e.ty).align))?;
    put_init(alloc, context, cells, &e.init, &e.ty)
}

/// The fields of a struct of so many bytes.
#[cycle(cells)]
fn put_fields(
    alloc: Global,
    context: &Context,
    cells: &mut Vec<Cell>,
    size: u64,
    elements: &[Elem],
) -> Result<(), NoMemory>
    ensures { OnOk result (cells.new.items ≡ cells.old.items ++
        spread 0 size (map (told_part context.now) elements.now)) }
{
    let start = cells.len();
    for e in elements {
        put_field(alloc, context, cells, start, e)?;
    }
    put_zeros(cells, size.saturating_sub((cells.len() - start) as u64))
}

/// An initialiser of a type.
#[cycle(cells)]
pub fn put_init(
    alloc: Global,
    context: &Context,
    cells: &mut Vec<Cell>,
    init: &Init,
    ty: &Ty,
) -> Result<(), NoMemory>
    ensures { OnOk result (cells.new.items ≡ cells.old.items ++
        told_cells context.now init.now ty.now) }
{
    match init {
        Init::Value(v) => put_origin(
            cells,
            context.extent(ty).size,
            origin(alloc, context, ty, v)?,
        ),
        Init::Zero => put_zeros(cells, context.extent(ty).size),
        Init::Text(bytes) => put_text(cells, bytes.as_slice()),
        Init::Array(elements) => put_elements(alloc, context, cells, elements.as_slice()),
        Init::Packed(elements) => put_elements(alloc, context, cells, elements.as_slice()),
        Init::Struct(elements) => {
            put_fields(
                alloc,
                context,
                cells,
                context.extent(ty).size,
                elements.as_slice(),
            )
        }
    }
}
