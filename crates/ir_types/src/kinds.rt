//! Tests of kinds: which operations, casts and literals a kind has.

ghost use Rattle.std.specs.Prelude.{◌≡◌};
ghost use Rattle.rd_num.specs.Number.{bits};
ghost use Rattle.ir_core.specs.Kinds.{same_kind, kind_of};
ghost use Rattle.ir_core.specs.Typing.{is_value, is_number, is_index, is_result, int_fits, literal_field, bin_fits, cast_fits, has_kind, returns_nothing};

use ir_core::instruction::{BinOp, CastOp};
use ir_core::kind::Kind;
use ir_core::ty::Ty;
use rd_num::width::Width;

/// How many bits a width has. Takes no memory.
fn bit_count(w: Width) -> u8
    ensures { result ≡ bits w }
{
    match w {
        Width::W1 => 1,
        Width::W8 => 8,
        Width::W16 => 16,
        Width::W32 => 32,
        Width::W64 => 64,
    }
}

/// Whether two kinds are the same. Takes no memory.
pub fn are_same(a: Kind, b: Kind) -> bool
    ensures { result ≡ same_kind a b }
{
    match (a, b) {
        (Kind::NoValue, Kind::NoValue) => true,
        (Kind::Number(v), Kind::Number(w)) => bit_count(v) == bit_count(w),
        (Kind::Pointer, Kind::Pointer) => true,
        _ => false,
    }
}

/// Whether a kind is known and is another one. Takes no memory.
pub fn is_kind(known: Option<Kind>, b: Kind) -> bool
    ensures { result ≡ has_kind known b }
{
    match known {
        Some(a) => are_same(a, b),
        None => false,
    }
}

/// Whether a kind has values. Takes no memory.
pub fn has_values(kind: Kind) -> bool
    ensures { result ≡ is_value kind }
{
    match kind {
        Kind::NoValue => false,
        Kind::Number(_) | Kind::Pointer => true,
    }
}

/// Whether a kind is one of numbers. Takes no memory.
pub fn has_numbers(kind: Kind) -> bool
    ensures { result ≡ is_number kind }
{
    match kind {
        Kind::Number(_) => true,
        Kind::NoValue | Kind::Pointer => false,
    }
}

/// Whether a kind is one of indices. Takes no memory.
pub fn has_indices(kind: Kind) -> bool
    ensures { result ≡ is_index kind }
{
    match kind {
        Kind::NoValue | Kind::Pointer | Kind::Number(Width::W1) => false,
        Kind::Number(_) => true,
    }
}

/// Whether a function can give a type: void or a type with values. Takes no memory.
pub fn can_result(ty: &Ty) -> bool
    ensures { result ≡ is_result ty.now }
{
    match ty {
        Ty::Void | Ty::Int(_) | Ty::Ptr => true,
        Ty::Array(_, _) | Ty::Struct(_) | Ty::Packed(_) | Ty::Named(_) => false,
    }
}

/// Whether a function of a kind returns nothing. Takes no memory.
pub fn gives_nothing(kind: Kind) -> bool
    ensures { result ≡ returns_nothing kind }
{
    match kind {
        Kind::NoValue => true,
        Kind::Number(_) | Kind::Pointer => false,
    }
}

/// Whether a literal is a number of a kind. Takes no memory.
pub fn is_literal(kind: Kind, n: i128) -> bool
    ensures { result ≡ int_fits kind n }
{
    match kind {
        Kind::Number(Width::W1) => -1 <= n && n < 2,
        Kind::Number(Width::W8) => -128 <= n && n < 256,
        Kind::Number(Width::W16) => -32_768 <= n && n < 65_536,
        Kind::Number(Width::W32) => -2_147_483_648 <= n && n < 4_294_967_296,
        Kind::Number(Width::W64) => -9_223_372_036_854_775_808 <= n
            && n < 18_446_744_073_709_551_616,
        Kind::NoValue | Kind::Pointer => false,
    }
}

/// The field that a literal index names, where it is one of 32 bits and not below zero.
pub fn named_field(kind: Kind, n: i128) -> Option<u32>
    ensures { result ≡ literal_field kind n }
{
    match kind {
        Kind::Number(Width::W32) => {
            if 0 <= n && n < 2_147_483_648 {
                Some(n as u32)
            } else {
                None
            }
        }
        _ => None,
    }
}

/// Whether an operation is one on a kind. Takes no memory.
pub fn can_operate(op: BinOp, kind: Kind) -> bool
    ensures { result ≡ bin_fits op kind }
{
    match kind {
        Kind::Number(Width::W1) => match op {
            BinOp::And | BinOp::Or | BinOp::Xor => true,
            _ => false,
        },
        Kind::Number(_) => true,
        Kind::NoValue | Kind::Pointer => false,
    }
}

/// Whether a cast leads from one kind to another. Takes no memory.
pub fn can_cast(op: CastOp, from: Kind, to: Kind) -> bool
    ensures { result ≡ cast_fits op from to }
{
    match (from, to) {
        (Kind::Number(v), Kind::Number(w)) => match op {
            CastOp::Trunc => bit_count(w) < bit_count(v),
            CastOp::Zext | CastOp::Sext => bit_count(v) < bit_count(w),
        },
        _ => false,
    }
}
