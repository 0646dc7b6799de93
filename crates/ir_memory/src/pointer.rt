//! How pointers compare and how they move, as `specs/Pointers` of `ir_core` has it.
//!
//! A comparison that nothing is known of stops the run with its reason. Nothing here takes memory.

ghost use Rattle.std.specs.Prelude.{◌≡◌, ℕ, ◌%◌, ◌^◌, slice_get};
ghost use Rattle.ir_core.specs.declared.memory.Value.TheVariants.{At as PlaceAt};
ghost use Rattle.ir_core.specs.Pointers.{is_inside as inside_of, apart_if as apart, pointers_equal, reaches as reaches_in, pointers_ordered, pointers_compared as said_of, unmoved_pointer, moved_pointer};
ghost use Rattle.ir_core.specs.Answers.{answered};

use crate::arithmetic::compared;
use crate::object::Object;
use ir_core::instruction::Pred;
use ir_core::memory::{Reason, Value};
use ir_core::stop::Stop;
use rd_num::width::Width;

/// Whether an offset is inside of a live object.
fn is_inside(objects: &[Object], o: u64, d: u64) -> bool
    ensures { result ≡ inside_of objects.now o d }
{
    match objects.get(o as usize) {
        None => false,
        Some(x) => x.holds(d),
    }
}

/// Two pointers differ, where that is known.
fn apart_if(known: bool) -> Result<bool, Stop>
    ensures { answered result ≡ apart known }
{
    if known {
        Ok(false)
    } else {
        Err(Stop::Left(Reason::Equal))
    }
}

/// Whether two places are the same, where that is claimed.
fn places_equal(objects: &[Object], o: u64, d: u64, p: u64, e: u64) -> Result<bool, Stop>
    ensures { answered result ≡ pointers_equal objects.now (PlaceAt o d) (PlaceAt p e) }
{
    if o == p {
        Ok(d == e)
    } else {
        apart_if(is_inside(objects, o, d) && is_inside(objects, p, e))
    }
}

/// Whether two pointers are the same, where that is claimed.
fn equal(objects: &[Object], a: Value, b: Value) -> Result<bool, Stop>
    ensures { answered result ≡ pointers_equal objects.now a b }
{
    match a {
        Value::Num(_, _) => Err(Stop::Malformed),
        Value::Null => match b {
            Value::Num(_, _) => Err(Stop::Malformed),
            Value::Null => Ok(true),
            Value::Fun(_) => Ok(false),
            Value::At(p, e) => apart_if(is_inside(objects, p, e)),
        },
        Value::Fun(f) => match b {
            Value::Num(_, _) => Err(Stop::Malformed),
            Value::Null => Ok(false),
            Value::Fun(g) => Ok(f == g),
            Value::At(p, e) => apart_if(is_inside(objects, p, e)),
        },
        Value::At(o, d) => match b {
            Value::Num(_, _) => Err(Stop::Malformed),
            Value::Null | Value::Fun(_) => apart_if(is_inside(objects, o, d)),
            Value::At(p, e) => places_equal(objects, o, d, p, e),
        },
    }
}

/// Whether an offset is at most the size of an object, live or dead.
fn reaches(objects: &[Object], o: u64, d: u64) -> bool
    ensures { result ≡ reaches_in (slice_get objects.now o) d }
{
    match objects.get(o as usize) {
        None => false,
        Some(x) => d <= x.size(),
    }
}

/// The order of two offsets of one object, where both are at most its size.
fn offsets_ordered(
    pred: Pred,
    objects: &[Object],
    o: u64,
    d: u64,
    p: u64,
    e: u64,
) -> Result<bool, Stop>
    ensures { answered result ≡ pointers_ordered pred objects.now (PlaceAt o d) (PlaceAt p e) }
{
    if o == p && reaches(objects, o, d) && reaches(objects, o, e) {
        Ok(compared(pred, Width::W64, d, e))
    } else {
        Err(Stop::Left(Reason::Order))
    }
}

/// The order of two pointers, where that is claimed.
fn ordered(pred: Pred, objects: &[Object], a: Value, b: Value) -> Result<bool, Stop>
    ensures { answered result ≡ pointers_ordered pred objects.now a b }
{
    match a {
        Value::At(o, d) => match b {
            Value::At(p, e) => offsets_ordered(pred, objects, o, d, p, e),
            Value::Num(_, _) | Value::Null | Value::Fun(_) => Err(Stop::Left(Reason::Order)),
        },
        Value::Num(_, _) | Value::Null | Value::Fun(_) => Err(Stop::Left(Reason::Order)),
    }
}

/// What a comparison of two pointers says; signed order says nothing of them.
pub(crate) fn pointers_compared(
    pred: Pred,
    objects: &[Object],
    a: Value,
    b: Value,
) -> Result<bool, Stop>
    ensures { answered result ≡ said_of pred objects.now a b }
{
    match pred {
        Pred::Eq => equal(objects, a, b),
        Pred::Ne => {
            let same = equal(objects, a, b)?;
            Ok(!same)
        }
        Pred::Ult => ordered(Pred::Ult, objects, a, b),
        Pred::Ule => ordered(Pred::Ule, objects, a, b),
        Pred::Ugt => ordered(Pred::Ugt, objects, a, b),
        Pred::Uge => ordered(Pred::Uge, objects, a, b),
        Pred::Slt | Pred::Sle | Pred::Sgt | Pred::Sge => Err(Stop::Left(Reason::Order)),
    }
}

/// Null and functions can be moved by nothing alone.
fn unmoved(by: u64, v: Value) -> Result<Value, Stop>
    ensures { (n : ℕ) → n % 2 ^ 64 ≡ by → answered result ≡ unmoved_pointer n v }
{
    if by == 0 {
        Ok(v)
    } else {
        Err(Stop::Left(Reason::Gep))
    }
}

/// A pointer so many bytes on, modulo 2^64.
pub fn moved(by: u64, v: Value) -> Result<Value, Stop>
    ensures { (n : ℕ) → n % 2 ^ 64 ≡ by → answered result ≡ moved_pointer n v }
{
    match v {
        Value::Num(_, _) => Err(Stop::Malformed),
        Value::Null => unmoved(by, v),
        Value::Fun(_) => unmoved(by, v),
        Value::At(o, d) => Ok(Value::At(o, d.wrapping_add(by))),
    }
}
