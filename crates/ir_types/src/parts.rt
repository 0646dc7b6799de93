//! Where indices lead in a type, for instructions and for constant places.
//!
//! The first index counts whole ones of the type; each later one goes into an array, or into a struct
//! where it is a literal that names a field. Names are replaced as often as types may nest.

ghost use Rattle.std.specs.Prelude.{◌≡◌, ℕ, Option as Maybe, option_map, map};
ghost use Rattle.ir_core.specs.Typing.{known_arg, known_index, leads_from, leads_into};
ghost use Rattle.ir_types.specs.Fitting.{field_part, part_in};
ghost use Rattle.ir_types.specs.Standing.{stood};

use crate::kinds::named_field;
use ir_core::instruction::Arg;
use ir_core::kind::Kind;
use ir_core::limit::MAX_NESTING;
use ir_core::operand::{Index0, Operand};
use ir_core::tables::Tables;
use ir_core::ty::Ty;
use rd_num::list::List;

/// A type to which indices have led, and how often names can still be replaced in it.
#[derive(Clone, Copy)]
struct Stand<'a> {
    ty: &'a Ty,
    names: u32,
}

/// Into one more part: the field of a known number, or an element of an array.
fn into_part<'a>(
    tables: &Tables<'a>,
    ty: &'a Ty,
    names: u32,
    known: Option<u32>,
) -> Option<Stand<'a>>
    ensures { option_map stood result ≡ part_in tables.now.types known names ty.now }
{
    match ty {
        Ty::Array(_, of) => Some(Stand {
            ty: of.get(),
            names,
        }),
        Ty::Struct(fields) => into_field(fields, names, known),
        Ty::Packed(fields) => into_field(fields, names, known),
        Ty::Named(name) => {
            if names == 0 {
                return None;
            }
            match tables.named_type(name) {
                Some(named) => into_part(tables, &named.fields, names - 1, known),
                None => None,
            }
        }
        Ty::Void | Ty::Int(_) | Ty::Ptr => None,
    }
}

/// Into the field of a known number.
fn into_field<'a>(fields: &'a List<Ty>, names: u32, known: Option<u32>) -> Option<Stand<'a>>
    ensures { option_map stood result ≡ field_part fields.now names known }
{
    match known {
        Some(i) => match fields.get(i as usize) {
            Some(field) => Some(Stand { ty: field, names }),
            None => None,
        },
        None => None,
    }
}

/// Whether indices behind the first lead to a part of a type, by the literals among them.
fn lead_on<'a, T: Index>(tables: &Tables<'a>, ty: &'a Ty, rest: &[T]) -> bool
    ensures { result ≡ leads_into tables.now.types ty.now (map T.known_of rest.now) }
{
    let mut at = Stand {
        ty,
        names: MAX_NESTING,
    };
    for index in rest {
        match into_part(tables, at.ty, at.names, index.known()) {
            Some(next) => at = next,
            None => return false,
        }
    }
    true
}

/// An index of an instruction or of a constant place.
pub trait Index {
    ghost known_of: { Self → Maybe ℕ };

    /// The field that it names, where it is a literal that can name one. Takes no memory.
    fn known(&self) -> Option<u32>
        ensures { result ≡ known_of self.now };
}

impl Index for Index0 {
    ghost known_of = { known_index };

    fn known(&self) -> Option<u32> {
        named_field(Kind::of(&self.ty), self.value)
    }
}

impl Index for Arg {
    ghost known_of = { known_arg };

    fn known(&self) -> Option<u32> {
        match self.value {
            Operand::Int(n) => named_field(Kind::of(&self.ty), n),
            _ => None,
        }
    }
}

/// Whether indices lead from a pointer to a type to a part of it.
pub fn leads<'a, T: Index>(tables: &Tables<'a>, ty: &'a Ty, indices: &[T]) -> bool
    ensures { result ≡ leads_from tables.now.types ty.now (map T.known_of indices.now) }
{
    match indices {
        [] => true,
        [_, rest @ ..] => lead_on(tables, ty, rest),
    }
}
