//! Values that are known before a run: numbers of a width, truth values and zeros, and indices as words.
//!
//! `Malformed` comes exactly where a value isn't of the kind that is asked for, which no valid module
//! does. Nothing here takes memory.

ghost use Rattle.std.specs.Prelude.{◌≡◌, ◌%◌, ◌^◌, ◌-◌};
ghost use Rattle.rd_num.specs.Number.{bits};
ghost use Rattle.ir_core.specs.Arithmetic.{modulus};
ghost use Rattle.ir_core.specs.Kinds.{signed_word as word_in, literal as literal_of, truth as truth_of, zero_of};
ghost use Rattle.ir_core.specs.Operands.{index_word as word_of, int_value};
ghost use Rattle.ir_core.specs.Answers.{answered};
ghost use Rattle.ir_core.specs.Words.{low_word};

use crate::kind::Kind;
use crate::memory::Value;
use crate::stop::Stop;
use rd_num::width::Width;

/// The greatest number of a width.
pub fn greatest(w: Width) -> u64
    ensures { result ≡ modulus w - 1 }
{
    match w {
        Width::W1 => 1,
        Width::W8 => 255,
        Width::W16 => 65_535,
        Width::W32 => 4_294_967_295,
        Width::W64 => u64::MAX,
    }
}

/// Half of the numbers of a width: the least that reads as a negative one.
pub fn half(w: Width) -> u64
    ensures { result ≡ 2 ^ (bits w - 1) }
{
    match w {
        Width::W1 => 1,
        Width::W8 => 128,
        Width::W16 => 32_768,
        Width::W32 => 2_147_483_648,
        Width::W64 => 9_223_372_036_854_775_808,
    }
}

/// A truth value as a number of one bit.
pub fn truth(holds: bool) -> Value
    ensures { result ≡ truth_of holds }
{
    if holds {
        Value::Num(Width::W1, 1)
    } else {
        Value::Num(Width::W1, 0)
    }
}

/// The number of a width that a literal stands for: two's complement below zero.
pub fn literal(w: Width, n: i128) -> u64
    ensures { result ≡ literal_of w n }
{
    let whole = u128::from(greatest(w)) + 1;
    if n < 0 {
        let below = (-(n + 1)) as u128;
        (whole - 1 - below % whole) as u64
    } else {
        (n as u128 % whole) as u64
    }
}

/// A literal as a number of a kind.
pub fn number(kind: Kind, n: i128) -> Result<Value, Stop>
    ensures { answered result ≡ int_value kind n }
{
    match kind {
        Kind::Number(w) => Ok(Value::Num(w, literal(w, n))),
        Kind::Pointer => Err(Stop::Malformed),
        Kind::NoValue => Err(Stop::Malformed),
    }
}

/// Zeros, as undef and poison are read.
pub fn zero(kind: Kind) -> Result<Value, Stop>
    ensures { answered result ≡ zero_of kind }
{
    match kind {
        Kind::NoValue => Err(Stop::Malformed),
        Kind::Number(w) => Ok(Value::Num(w, 0)),
        Kind::Pointer => Ok(Value::Null),
    }
}

/// An index as a number of bytes or elements modulo 2^64, below zero too.
pub fn index_word(v: Value) -> Result<u64, Stop>
    ensures { answered result ≡ low_word (word_of v) }
{
    match v {
        Value::Num(w, n) => Ok(signed_word(w, n)),
        Value::Null | Value::At(_, _) | Value::Fun(_) => Err(Stop::Malformed),
    }
}

/// A number of a width as a signed one, modulo 2^64.
fn signed_word(w: Width, n: u64) -> u64
    ensures { result ≡ word_in w n % 2 ^ 64 }
{
    if n < half(w) {
        n
    } else {
        n.wrapping_add(u64::MAX - greatest(w))
    }
}
