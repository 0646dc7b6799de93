//! The rules of types for calls: of functions, of declarations, and through locals.

ghost use Rattle.std.specs.Prelude.{◌≡◌, map};
ghost use Rattle.ir_core.specs.Kinds.{kind_of};
ghost use Rattle.ir_core.specs.Calls.{same_kinds};
ghost use Rattle.ir_core.specs.Names.{same_name, first_where};
ghost use Rattle.ir_core.specs.Typing.{outer_fits};
ghost use Rattle.ir_core.specs.Valid.{env_of, same_ty, all_two, types_of, extern_fits, callee_rules, named_called, op_rules};
ghost use Rattle.ir_core.specs.declared.instruction.Op.TheVariants.{Call};
ghost use Rattle.ir_core.specs.declared.module.Param.{Param as OneParam};

use crate::kinds::{are_same, can_result, is_kind};
use crate::operand::fits_args;
use crate::same::is_same_ty;
use ir_core::instruction::Arg;
use ir_core::kind::Kind;
use ir_core::module::{Extern, Param};
use ir_core::operand::Operand;
use ir_core::outer::Outer;
use ir_core::scope::Scope;
use ir_core::tables::Tables;
use ir_core::ty::{Name, Ty};
use rd_num::width::Width;

/// Whether a declaration has the type of the outside function of its name.
pub fn fits_outside(e: &Extern) -> bool
    ensures { result ≡ extern_fits e.now }
{
    let ret = Kind::of(&e.ret);
    let params = e.params.as_slice();
    outside_takes(Outer::of(&e.name), ret, params) && can_result(&e.ret)
}

/// A number of 32 bits.
const WORD: Kind = Kind::Number(Width::W32);

/// A length, and whether a copy or a fill is volatile.
const LENGTH: Kind = Kind::Number(Width::W64);

const VOLATILE: Kind = Kind::Number(Width::W1);

/// Whether types are of kinds, one for each.
fn are_of(types: &[Ty], kinds: &[Kind]) -> bool
    ensures { result ≡ same_kinds (map kind_of types.now) kinds.now }
{
    if types.len() != kinds.len() {
        return false;
    }
    for i in 0..types.len() {
        if !are_same(Kind::of(&types[i]), kinds[i]) {
            return false;
        }
    }
    true
}

/// Whether an outside function gives a kind and takes types.
fn outside_takes(outer: Outer, ret: Kind, params: &[Ty]) -> bool
    ensures { result ≡ outer_fits outer ret (map kind_of params.now) }
{
    match outer {
        Outer::Putchar => are_same(ret, WORD) && are_of(params, &[WORD]),
        Outer::Getchar => are_same(ret, WORD) && are_of(params, &[]),
        Outer::Exit => are_same(ret, Kind::NoValue) && are_of(params, &[WORD]),
        Outer::Memcpy => {
            are_same(ret, Kind::NoValue)
                && are_of(params, &[Kind::Pointer, Kind::Pointer, LENGTH, VOLATILE])
        }
        Outer::Memset => {
            are_same(ret, Kind::NoValue)
                && are_of(
                    params,
                    &[Kind::Pointer, Kind::Number(Width::W8), LENGTH, VOLATILE],
                )
        }
        Outer::TrapNow => are_same(ret, Kind::NoValue) && are_of(params, &[]),
        Outer::Lifetime => {
            are_same(ret, Kind::NoValue)
                && (are_of(params, &[Kind::Pointer]) || are_of(params, &[LENGTH, Kind::Pointer]))
        }
        Outer::NoOuter => false,
    }
}

/// Whether types are those of arguments.
fn types_fit(types: &[Ty], args: &[Arg]) -> bool
    ensures { result ≡ all_two same_ty types.now (types_of args.now) }
{
    if types.len() != args.len() {
        return false;
    }
    for i in 0..types.len() {
        if !is_same_ty(&types[i], &args[i].ty) {
            return false;
        }
    }
    true
}

/// Whether the types of parameters are those of arguments.
fn params_fit(params: &[Param], args: &[Arg]) -> bool
    ensures { result ≡ all_two same_ty (map (λ (p : OneParam). p.ty) params.now)
        (types_of args.now) }
{
    if params.len() != args.len() {
        return false;
    }
    for i in 0..params.len() {
        if !is_same_ty(&params[i].ty, &args[i].ty) {
            return false;
        }
    }
    true
}

/// Whether a callee of a name has the types of a call.
fn fits_named(tables: &Tables, name: &Name, ret: &Ty, args: &[Arg]) -> bool
    ensures { result ≡ named_called tables.now name.now ret.now (types_of args.now)
        (first_where (λ f. same_name f.name name.now) tables.now.functions) }
{
    match tables.function(name) {
        Some(f) => is_same_ty(&f.ret, ret) && params_fit(f.params.as_slice(), args),
        None => match tables.external(name) {
            Some(e) => {
                fits_outside(e) && (is_same_ty(&e.ret, ret) && types_fit(e.params.as_slice(), args))
            }
            None => false,
        },
    }
}

/// Whether a callee fits the types of a call.
fn fits_callee(tables: &Tables, scope: &Scope, ret: &Ty, callee: &Operand, args: &[Arg]) -> bool
    ensures { result ≡ callee_rules tables.now (env_of scope.now) ret.now
        (types_of args.now) callee.now }
{
    match callee {
        Operand::Local(name) => is_kind(scope.kind(name), Kind::Pointer),
        Operand::Global(name) => fits_named(tables, name, ret, args),
        _ => false,
    }
}

/// Whether the types and operands of a call fit.
pub fn fits_call(tables: &Tables, scope: &Scope, ret: &Ty, callee: &Operand, args: &[Arg]) -> bool
    ensures { result ≡ op_rules tables.now (env_of scope.now) (Call ret.now callee.now args.now) }
{
    can_result(ret)
        && (fits_callee(tables, scope, ret, callee, args) && fits_args(tables, scope, args))
}
