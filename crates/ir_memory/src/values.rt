//! What a step makes of values of any kind, as `specs/Step`, `specs/Kinds` and `specs/Calls` of
//! `ir_core` have it.
//!
//! `Malformed` comes exactly where values aren't of the kinds that a step asks for, which no valid
//! module does. Nothing here takes memory.

ghost use Rattle.std.specs.Prelude.{◌≡◌, List, ℕ, Ok, if◌then◌else◌};
ghost use Rattle.ir_core.specs.Stops.{and_then};
ghost use Rattle.ir_core.specs.declared.kind.Kind.TheVariants.{Pointer as PointerKind};
ghost use Rattle.ir_core.specs.Calls.{last_result as last_stop};
ghost use Rattle.ir_core.specs.Step.{binary_value as binary_in, compared_value as compared_in, cast_value as cast_in, selected as selected_of, if_true};
ghost use Rattle.ir_core.specs.Answers.{stop_of, answered};

use crate::arithmetic::{binary, cast, compared};
use crate::memory::Memory;
use ir_core::instruction::{BinOp, CastOp, Pred};
use ir_core::kind::Kind;
use ir_core::memory::Value;
use ir_core::stop::Stop;
use ir_core::values::truth;

/// Two values of a kind by an operation.
pub fn binary_value(op: BinOp, kind: Kind, x: Value, y: Value) -> Result<Value, Stop>
    ensures { answered result ≡ binary_in op kind x y }
{
    match (kind, x, y) {
        (Kind::Number(w), Value::Num(_, a), Value::Num(_, b)) => {
            let n = binary(op, w, a, b)?;
            Ok(Value::Num(w, n))
        }
        _ => Err(Stop::Malformed),
    }
}

/// Two pointers compared.
fn pointers_said(objects: &Memory, pred: Pred, x: Value, y: Value) -> Result<Value, Stop>
    ensures { answered result ≡ compared_in objects.now pred PointerKind x y }
{
    let holds = objects.compared(pred, x, y)?;
    Ok(truth(holds))
}

/// Two values of a kind compared.
pub fn compared_value(
    objects: &Memory,
    pred: Pred,
    kind: Kind,
    x: Value,
    y: Value,
) -> Result<Value, Stop>
    ensures { answered result ≡ compared_in objects.now pred kind x y }
{
    match kind {
        Kind::Pointer => pointers_said(objects, pred, x, y),
        Kind::NoValue => Err(Stop::Malformed),
        Kind::Number(w) => match (x, y) {
            (Value::Num(_, a), Value::Num(_, b)) => Ok(truth(compared(pred, w, a, b))),
            _ => Err(Stop::Malformed),
        },
    }
}

/// A value as one of another width.
pub fn cast_value(op: CastOp, from: Kind, to: Kind, v: Value) -> Result<Value, Stop>
    ensures { answered result ≡ cast_in op from to v }
{
    match (from, to, v) {
        (Kind::Number(f), Kind::Number(t), Value::Num(_, n)) => {
            Ok(Value::Num(t, cast(op, f, t, n)))
        }
        _ => Err(Stop::Malformed),
    }
}

/// One of two values, by a truth value.
pub fn selected(condition: Value, taken: Value, other: Value) -> Result<Value, Stop>
    ensures { answered result ≡ selected_of condition taken other }
{
    match condition {
        Value::Num(_, n) => Ok(if n == 0 { other } else { taken }),
        Value::Null | Value::At(_, _) | Value::Fun(_) => Err(Stop::Malformed),
    }
}

/// Whether a branch by a truth value goes to its first label.
pub fn is_taken(condition: Value) -> Result<bool, Stop>
    ensures { (taken other : List ℕ) → and_then (answered result)
        (λ b. Ok (if b then taken else other)) ≡ if_true condition taken other }
{
    match condition {
        Value::Num(_, n) => Ok(n != 0),
        Value::Null | Value::At(_, _) | Value::Fun(_) => Err(Stop::Malformed),
    }
}

/// How the call with which a run began ends it.
pub fn last_result(given: Option<Value>) -> Stop
    ensures { stop_of result ≡ last_stop given }
{
    match given {
        Some(Value::Num(_, n)) => Stop::Ended((n % 256) as u8),
        Some(_) => Stop::Malformed,
        None => Stop::Malformed,
    }
}
