//! Whether types and operands are the same as they are written.

ghost use Rattle.std.specs.Prelude.{◌≡◌};
ghost use Rattle.ir_core.specs.Names.{same_name};
ghost use Rattle.ir_core.specs.declared.operand.Operand.TheVariants.{Const};
ghost use Rattle.ir_core.specs.Valid.{same_ty, all_two, same_int, same_index, same_operand};

use crate::kinds::are_same;
use ir_core::kind::Kind;
use ir_core::operand::{Index0, Operand, Place0};
use ir_core::ty::{Name, Ty};

/// Whether two names are the same. Takes no memory.
pub fn is_same_name(a: &Name, b: &Name) -> bool
    ensures { result ≡ same_name a.now b.now }
{
    a.as_slice() == b.as_slice()
}

/// Whether two types are the same. Takes no memory.
#[cycle(same_ty)]
pub fn is_same_ty(a: &Ty, b: &Ty) -> bool
    ensures { result ≡ same_ty a.now b.now }
{
    match a {
        Ty::Void => match b {
            Ty::Void => true,
            _ => false,
        },
        Ty::Int(v) => match b {
            Ty::Int(w) => are_same(Kind::Number(*v), Kind::Number(*w)),
            _ => false,
        },
        Ty::Ptr => match b {
            Ty::Ptr => true,
            _ => false,
        },
        Ty::Array(m, e) => match b {
            Ty::Array(n, f) => *m == *n && is_same_ty(e.get(), f.get()),
            _ => false,
        },
        Ty::Struct(es) => match b {
            Ty::Struct(fs) => are_same_tys(es.as_slice(), fs.as_slice()),
            _ => false,
        },
        Ty::Packed(es) => match b {
            Ty::Packed(fs) => are_same_tys(es.as_slice(), fs.as_slice()),
            _ => false,
        },
        Ty::Named(m) => match b {
            Ty::Named(n) => is_same_name(m, n),
            _ => false,
        },
    }
}

/// Whether rows of types are the same.
#[cycle(same_ty)]
fn are_same_tys(a: &[Ty], b: &[Ty]) -> bool
    ensures { result ≡ all_two same_ty a.now b.now }
{
    if a.len() != b.len() {
        return false;
    }
    for i in 0..a.len() {
        if !is_same_ty(&a[i], &b[i]) {
            return false;
        }
    }
    true
}

/// Whether two numbers are the same. Takes no memory.
fn is_same_int(a: i128, b: i128) -> bool
    ensures { result ≡ same_int a b }
{
    a == b
}

/// Whether two indices are the same. Takes no memory.
fn is_same_index(a: &Index0, b: &Index0) -> bool
    ensures { result ≡ same_index a.now b.now }
{
    is_same_ty(&a.ty, &b.ty) && is_same_int(a.value, b.value)
}

/// Whether rows of indices are the same.
fn are_same_indices(a: &[Index0], b: &[Index0]) -> bool
    ensures { result ≡ all_two same_index a.now b.now }
{
    if a.len() != b.len() {
        return false;
    }
    for i in 0..a.len() {
        if !is_same_index(&a[i], &b[i]) {
            return false;
        }
    }
    true
}

/// Whether two constant places are the same.
fn is_same_place(a: &Place0, b: &Place0) -> bool
    ensures { result ≡ same_operand (Const a.now) (Const b.now) }
{
    is_same_ty(&a.source, &b.source)
        && (is_same_name(&a.base, &b.base)
            && are_same_indices(a.indices.as_slice(), b.indices.as_slice()))
}

/// Whether two operands are the same.
pub fn is_same_operand(a: &Operand, b: &Operand) -> bool
    ensures { result ≡ same_operand a.now b.now }
{
    match (a, b) {
        (Operand::Int(m), Operand::Int(n)) => is_same_int(*m, *n),
        (Operand::Bool(s), Operand::Bool(t)) => *s == *t,
        (Operand::Null, Operand::Null) => true,
        (Operand::Undef, Operand::Undef) => true,
        (Operand::Poison, Operand::Poison) => true,
        (Operand::Local(m), Operand::Local(n)) => is_same_name(m, n),
        (Operand::Global(m), Operand::Global(n)) => is_same_name(m, n),
        (Operand::Const(p), Operand::Const(q)) => is_same_place(p, q),
        _ => false,
    }
}
