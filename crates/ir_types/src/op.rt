//! The rules of types for single instructions, their results and the operands of terminators.
//!
//! What an instruction may be where it stands, as a phi behind others, is told in `flow`; calls are
//! apart in `call`.

ghost use Rattle.std.specs.Prelude.{◌≡◌};
ghost use Rattle.std.specs.List.{list_all};
ghost use Rattle.ir_core.specs.Typing.{operand_fits, op_fits, case_fits, term_fits};
ghost use Rattle.ir_core.specs.Valid.{env_of, op_rules, names_value};
ghost use Rattle.ir_types.specs.Fitting.{entries_typed};

use crate::call::fits_call;
use crate::kinds::{are_same, can_cast, can_operate, gives_nothing, has_numbers, has_values};
use crate::operand::{fits_constant, fits_indices, fits_operand};
use crate::parts::leads;
use ir_core::instruction::{Case, Entry, Op, Term};
use ir_core::kind::Kind;
use ir_core::scope::Scope;
use ir_core::tables::Tables;
use ir_core::ty::Name;
use rd_num::width::Width;

/// Whether the operands of a phi's entries fit its kind.
fn fits_entries(tables: &Tables, scope: &Scope, kind: Kind, entries: &[Entry]) -> bool
    ensures { result ≡ entries_typed tables.now (env_of scope.now) kind entries.now }
{
    for e in entries {
        if !fits_operand(tables, scope, kind, &e.value) {
            return false;
        }
    }
    true
}

/// Whether the operands and types of an instruction fit.
pub fn fits_op(tables: &Tables, scope: &Scope, op: &Op) -> bool
    ensures { result ≡ op_rules tables.now (env_of scope.now) op.now }
{
    match op {
        Op::Bin(op, ty, a, b) => {
            let kind = Kind::of(ty);
            can_operate(*op, kind)
                && (fits_operand(tables, scope, kind, a) && fits_operand(tables, scope, kind, b))
        }
        Op::Compare(_, ty, a, b) => {
            let kind = Kind::of(ty);
            has_values(kind)
                && (fits_operand(tables, scope, kind, a) && fits_operand(tables, scope, kind, b))
        }
        Op::Cast(op, from, a, to) => {
            let kind = Kind::of(from);
            can_cast(*op, kind, Kind::of(to)) && fits_operand(tables, scope, kind, a)
        }
        Op::Select(condition, ty, a, ty2, b) => {
            let kind = Kind::of(ty);
            let other = Kind::of(ty2);
            fits_operand(tables, scope, Kind::Number(Width::W1), condition)
                && ((has_values(kind) && are_same(kind, other))
                    && (fits_operand(tables, scope, kind, a)
                        && fits_operand(tables, scope, other, b)))
        }
        Op::Freeze(ty, a) => {
            let kind = Kind::of(ty);
            has_values(kind) && fits_operand(tables, scope, kind, a)
        }
        Op::Alloca(_, _) => true,
        Op::Load(ty, p) => {
            has_values(Kind::of(ty)) && fits_operand(tables, scope, Kind::Pointer, p)
        }
        Op::Store(ty, a, p) => {
            let kind = Kind::of(ty);
            has_values(kind)
                && (fits_operand(tables, scope, kind, a)
                    && fits_operand(tables, scope, Kind::Pointer, p))
        }
        Op::Gep(ty, p, indices) => {
            let indices = indices.as_slice();
            fits_operand(tables, scope, Kind::Pointer, p)
                && (fits_indices(tables, scope, indices) && leads(tables, ty, indices))
        }
        Op::Phi(ty, entries) => {
            let kind = Kind::of(ty);
            has_values(kind) && fits_entries(tables, scope, kind, entries.as_slice())
        }
        Op::Call(ret, callee, args) => fits_call(tables, scope, ret, callee, args.as_slice()),
    }
}

/// Whether only what gives a value has a result. Takes no memory.
pub fn fits_result(result_name: &Option<Name>, kind: Kind) -> bool
    ensures { result ≡ names_value result_name.now kind }
{
    match result_name {
        Some(_) => has_values(kind),
        None => true,
    }
}

/// Whether cases have the kind of their switch and fit it.
fn fits_cases(tables: &Tables, kind: Kind, cases: &[Case]) -> bool
    ensures { result ≡ list_all (case_fits tables.now kind) cases.now }
{
    for c in cases {
        if !(are_same(Kind::of(&c.ty), kind) && fits_constant(tables, kind, &c.value)) {
            return false;
        }
    }
    true
}

/// Whether the operands and types of a terminator fit, in a function that gives a kind.
pub fn fits_term(tables: &Tables, scope: &Scope, ret: Kind, end: &Term) -> bool
    ensures { result ≡ term_fits tables.now (env_of scope.now) ret end.now }
{
    match end {
        Term::Ret => gives_nothing(ret),
        Term::RetValue(ty, a) => {
            has_values(ret) && (are_same(Kind::of(ty), ret) && fits_operand(tables, scope, ret, a))
        }
        Term::Br(_) | Term::Unreachable => true,
        Term::BrIf(condition, _, _) => {
            fits_operand(tables, scope, Kind::Number(Width::W1), condition)
        }
        Term::Switch(ty, a, _, cases) => {
            let kind = Kind::of(ty);
            has_numbers(kind)
                && (fits_operand(tables, scope, kind, a)
                    && fits_cases(tables, kind, cases.as_slice()))
        }
    }
}
