//! Operands, alone and behind their types.

ghost use Rattle.std.specs.Prelude.{◌≡◌, ◌++◌, OnOk, codes};
ghost use Rattle.ir_print.specs.Names.{global_text};
ghost use Rattle.ir_print.specs.Types.{type_text};
ghost use Rattle.ir_print.specs.Values.{literal_indices_text, place_text, operand_text};
ghost use Rattle.ir_print.specs.Instructions.{typed_text};

use crate::names::{put_global_name, put_integer, put_local};
use crate::types::put_type;
use ir_core::operand::{Index0, Operand, Place0};
use ir_core::ty::Ty;
use rd_num::list::List;
use rd_num::width::NoMemory;

// Appends literal indices with a comma in front of each.
#[tactic(auto, unfolding(crate::specs::Names::after_commas, crate::specs::Values::literal_indices_text))]
fn put_literal_indices(text: &mut List<u8>, indices: &[Index0]) -> Result<(), NoMemory>
    ensures { OnOk result (text.new ≡ text.old ++ literal_indices_text indices.now) }
{
    for index in indices {
        text.append(b", ")?;
        put_type(text, &index.ty)?;
        text.append(b" ")?;
        put_integer(text, index.value)?;
    }
    Ok(())
}

// Appends a place in a global, by its parts.
fn put_parts(
    text: &mut List<u8>,
    source: &Ty,
    base: &[u8],
    indices: &[Index0],
) -> Result<(), NoMemory>
    ensures { OnOk result (text.new ≡ text.old ++
        codes "getelementptr (" ++ type_text source.now ++ codes ", ptr " ++ global_text base.now ++
        literal_indices_text indices.now ++ codes ")") }
{
    text.append(b"getelementptr (")?;
    put_type(text, source)?;
    text.append(b", ptr ")?;
    put_global_name(text, base)?;
    put_literal_indices(text, indices)?;
    text.append(b")")
}

// Appends a place in a global.
#[tactic(auto, unfolding(crate::specs::Values::place_text))]
fn put_place(text: &mut List<u8>, place: &Place0) -> Result<(), NoMemory>
    ensures { OnOk result (text.new ≡ text.old ++ place_text place.now) }
{
    put_parts(
        text,
        &place.source,
        place.base.as_slice(),
        place.indices.as_slice(),
    )
}

/// Appends an operand.
#[tactic(auto, unfolding(crate::specs::Values::operand_text))]
pub fn put_operand(text: &mut List<u8>, operand: &Operand) -> Result<(), NoMemory>
    ensures { OnOk result (text.new ≡ text.old ++ operand_text operand.now) }
{
    match operand {
        Operand::Int(n) => put_integer(text, *n),
        Operand::Bool(true) => text.append(b"true"),
        Operand::Bool(false) => text.append(b"false"),
        Operand::Null => text.append(b"null"),
        Operand::Undef => text.append(b"undef"),
        Operand::Poison => text.append(b"poison"),
        Operand::Local(name) => put_local(text, name.as_slice()),
        Operand::Global(name) => put_global_name(text, name.as_slice()),
        Operand::Const(place) => put_place(text, place),
    }
}

/// Appends an operand behind its type.
#[tactic(auto, unfolding(crate::specs::Instructions::typed_text))]
pub fn put_typed(text: &mut List<u8>, ty: &Ty, operand: &Operand) -> Result<(), NoMemory>
    ensures { OnOk result (text.new ≡ text.old ++ typed_text ty.now operand.now) }
{
    put_type(text, ty)?;
    text.append(b" ")?;
    put_operand(text, operand)
}
