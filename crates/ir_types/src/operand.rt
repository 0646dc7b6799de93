//! Whether operands fit the kinds in front of them.
//!
//! Operands of instructions go by the names of a function; those of initialisers and of cases know no
//! local. Both go by the symbol tables of the module.

ghost use Rattle.std.specs.Prelude.{◌≡◌};
ghost use Rattle.ir_core.specs.Typing.{operand_fits, place_fits, arg_fits};
ghost use Rattle.ir_core.specs.Valid.{env_of};
ghost use Rattle.std.specs.List.{list_all};
ghost use Rattle.ir_types.specs.Fitting.{no_locals, literals_fit, indices_fit};

use crate::kinds::{are_same, has_indices, has_values, is_kind, is_literal};
use crate::parts::leads;
use ir_core::instruction::Arg;
use ir_core::kind::Kind;
use ir_core::operand::{Index0, Operand, Place0};
use ir_core::scope::Scope;
use ir_core::tables::Tables;
use rd_num::width::Width;

/// Whether literal indices are of index types and fit them.
fn fits_literals(indices: &[Index0]) -> bool
    ensures { result ≡ literals_fit indices.now }
{
    for i in indices {
        let kind = Kind::of(&i.ty);
        if !(has_indices(kind) && is_literal(kind, i.value)) {
            return false;
        }
    }
    true
}

/// Whether a constant place starts at a global and its indices lead to a part of the type.
fn fits_place(tables: &Tables, place: &Place0) -> bool
    ensures { result ≡ place_fits tables.now place.now }
{
    let indices = place.indices.as_slice();
    tables.has_global(&place.base)
        && (fits_literals(indices) && leads(tables, &place.source, indices))
}

/// Whether an operand that isn't a local fits a kind.
pub fn fits_constant(tables: &Tables, kind: Kind, a: &Operand) -> bool
    ensures { result ≡ operand_fits tables.now no_locals kind a.now }
{
    match a {
        Operand::Int(n) => is_literal(kind, *n),
        Operand::Bool(_) => are_same(kind, Kind::Number(Width::W1)),
        Operand::Null => are_same(kind, Kind::Pointer),
        Operand::Undef | Operand::Poison => has_values(kind),
        Operand::Local(_) => false,
        Operand::Global(name) => {
            are_same(kind, Kind::Pointer) && (tables.has_global(name) || tables.has_function(name))
        }
        Operand::Const(place) => are_same(kind, Kind::Pointer) && fits_place(tables, place),
    }
}

/// Whether an operand of an instruction fits a kind.
pub fn fits_operand(tables: &Tables, scope: &Scope, kind: Kind, a: &Operand) -> bool
    ensures { result ≡ operand_fits tables.now (env_of scope.now) kind a.now }
{
    match a {
        Operand::Local(name) => has_values(kind) && is_kind(scope.kind(name), kind),
        _ => fits_constant(tables, kind, a),
    }
}

/// Whether arguments are of types with values and fit them.
pub fn fits_args(tables: &Tables, scope: &Scope, args: &[Arg]) -> bool
    ensures { result ≡ list_all (arg_fits tables.now (env_of scope.now)) args.now }
{
    for a in args {
        let kind = Kind::of(&a.ty);
        if !(has_values(kind) && fits_operand(tables, scope, kind, &a.value)) {
            return false;
        }
    }
    true
}

/// Whether indices are of index types and fit them.
pub fn fits_indices(tables: &Tables, scope: &Scope, indices: &[Arg]) -> bool
    ensures { result ≡ indices_fit tables.now (env_of scope.now) indices.now }
{
    for a in indices {
        let kind = Kind::of(&a.ty);
        if !(has_indices(kind) && fits_operand(tables, scope, kind, &a.value)) {
            return false;
        }
    }
    true
}
