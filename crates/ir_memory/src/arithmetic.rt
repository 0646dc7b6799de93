//! Arithmetic on numbers of a width, as `specs/Arithmetic` of `ir_core` has it.
//!
//! Every call is exact for all words, also those past the width. None takes memory.
//! Source: LLVM Language Reference, "Binary Operations", "Bitwise Binary Operations", "icmp" and
//! "Conversion Operations".

ghost use Rattle.std.specs.Prelude.{◌≡◌, ◌^◌, ◌-◌, ◌+◌, ◌*◌, ◌%◌, ◌/◌, ◌<◌, ◌||◌};
ghost use Rattle.rd_num.specs.Number.{bits};
ghost use Rattle.ir_core.specs.Arithmetic.{modulus, is_negative as negative_in, negated as negated_in, magnitude as magnitude_in, signed_quotient as quotient_in, signed_remainder as remainder_in, sign_shifted, divides_by_zero, overflows, binary as binary_in, biased as biased_in, compared as compared_in, cast as cast_in};
ghost use Rattle.ir_core.specs.Answers.{answered};

use ir_core::instruction::{BinOp, CastOp, Pred};
use ir_core::stop::Stop;
use ir_core::values::{greatest, half};
use rd_num::width::{Width, wrap};

/// Whether a number stands for one below zero.
fn is_negative(w: Width, n: u64) -> bool
    ensures { result ≡ negative_in w n }
{
    half(w) <= n
}

/// How much the modulus of a width is above a number that isn't 0.
fn below_modulus(w: Width, n: u64) -> u64
    requires { 0 < n }
    ensures { result ≡ modulus w - n }
{
    if n > greatest(w) {
        0
    } else {
        greatest(w) - n + 1
    }
}

/// The number that stands for the one below zero.
fn negated(w: Width, n: u64) -> u64
    ensures { result ≡ negated_in w n }
{
    if n == 0 { 0 } else { below_modulus(w, n) }
}

/// How far a number is from zero.
fn magnitude(w: Width, n: u64) -> u64
    ensures { result ≡ magnitude_in w n }
{
    if is_negative(w, n) {
        below_modulus(w, n)
    } else {
        n
    }
}

#[tactic(auto, using(crate::proofs::Remainders::low_of_word))]
fn sum(w: Width, a: u64, b: u64) -> u64
    ensures { result ≡ (a + b) % modulus w }
{
    wrap(w, a.wrapping_add(b))
}

fn difference(w: Width, a: u64, b: u64) -> u64
    ensures { result ≡ (a + (modulus w - b)) % modulus w }
{
    if b == 0 {
        wrap(w, a)
    } else {
        sum(w, a, below_modulus(w, b))
    }
}

#[tactic(auto, using(crate::proofs::Remainders::low_of_word))]
fn product(w: Width, a: u64, b: u64) -> u64
    ensures { result ≡ a * b % modulus w }
{
    wrap(w, a.wrapping_mul(b))
}

/// Towards zero. The divisor isn't 0.
#[tactic(auto, using(crate::proofs::Remainders::by_nothing))]
fn signed_over(w: Width, a: u64, b: u64) -> u64
    requires { 0 < b }
    ensures { result ≡ quotient_in w a b }
{
    let by = magnitude(w, b);
    let quotient = if by == 0 { 0 } else { magnitude(w, a) / by };
    if is_negative(w, a) != is_negative(w, b) {
        negated(w, quotient)
    } else {
        quotient
    }
}

/// With the sign of the first. The divisor isn't 0.
#[tactic(auto, using(crate::proofs::Remainders::by_nothing))]
fn signed_rest(w: Width, a: u64, b: u64) -> u64
    requires { 0 < b }
    ensures { result ≡ remainder_in w a b }
{
    let by = magnitude(w, b);
    let number = magnitude(w, a);
    let rest = if by == 0 { number } else { number % by };
    if is_negative(w, a) {
        negated(w, rest)
    } else {
        rest
    }
}

/// How far a shift by a number goes.
fn distance(w: Width, by: u64) -> u32
    ensures value { result ≡ by % bits w }
    ensures small { result < 64 }
{
    match w {
        Width::W1 => 0,
        Width::W8 => (by % 8) as u32,
        Width::W16 => (by % 16) as u32,
        Width::W32 => (by % 32) as u32,
        Width::W64 => (by % 64) as u32,
    }
}

/// A number doubled so many times.
#[tactic(auto, using(crate::proofs::Remainders::low_of_word))]
fn doubled(w: Width, a: u64, times: u32) -> u64
    requires { times < 64 }
    ensures { result ≡ a * 2 ^ times % modulus w }
{
    wrap(w, a << times)
}

/// A shift to the right that keeps the sign.
fn halved_with_sign(w: Width, a: u64, times: u32) -> u64
    requires { times < 64 }
    ensures { result ≡ sign_shifted w a times }
{
    if is_negative(w, a) {
        let above = greatest(w).saturating_sub(a) >> times;
        greatest(w).saturating_sub(above)
    } else {
        a >> times
    }
}

/// Whether a signed division has no result: by 0, or the least number by -1.
fn has_no_quotient(w: Width, a: u64, b: u64) -> bool
    ensures { result ≡ (divides_by_zero b || overflows w a b) }
{
    b == 0 || a == half(w) && b == greatest(w)
}

fn unsigned_quotient(w: Width, a: u64, b: u64) -> Result<u64, Stop>
    ensures { answered result ≡ binary_in BinOp.Udiv w a b }
{
    if b == 0 { Err(Stop::Divide) } else { Ok(a / b) }
}

fn unsigned_remainder(w: Width, a: u64, b: u64) -> Result<u64, Stop>
    ensures { answered result ≡ binary_in BinOp.Urem w a b }
{
    if b == 0 { Err(Stop::Divide) } else { Ok(a % b) }
}

fn signed_quotient(w: Width, a: u64, b: u64) -> Result<u64, Stop>
    ensures { answered result ≡ binary_in BinOp.Sdiv w a b }
{
    if has_no_quotient(w, a, b) {
        Err(Stop::Divide)
    } else {
        Ok(signed_over(w, a, b))
    }
}

fn signed_remainder(w: Width, a: u64, b: u64) -> Result<u64, Stop>
    ensures { answered result ≡ binary_in BinOp.Srem w a b }
{
    if has_no_quotient(w, a, b) {
        Err(Stop::Divide)
    } else {
        Ok(signed_rest(w, a, b))
    }
}

/// The result of an operation on two numbers of a width.
///
/// `Divide` comes exactly where a division has no result; a shift's amount counts modulo the width.
pub fn binary(op: BinOp, w: Width, a: u64, b: u64) -> Result<u64, Stop>
    ensures { answered result ≡ binary_in op w a b }
{
    match op {
        BinOp::Add => Ok(sum(w, a, b)),
        BinOp::Sub => Ok(difference(w, a, b)),
        BinOp::Mul => Ok(product(w, a, b)),
        BinOp::Udiv => unsigned_quotient(w, a, b),
        BinOp::Sdiv => signed_quotient(w, a, b),
        BinOp::Urem => unsigned_remainder(w, a, b),
        BinOp::Srem => signed_remainder(w, a, b),
        BinOp::Shl => Ok(doubled(w, a, distance(w, b))),
        BinOp::Lshr => Ok(a >> distance(w, b)),
        BinOp::Ashr => Ok(halved_with_sign(w, a, distance(w, b))),
        BinOp::And => Ok(a & b),
        BinOp::Or => Ok(a | b),
        BinOp::Xor => Ok(a ^ b),
    }
}

/// Signed numbers are in the order of these.
fn biased(w: Width, n: u64) -> u64
    ensures { result ≡ biased_in w n }
{
    sum(w, n, half(w))
}

/// What a comparison of two numbers of a width says.
pub fn compared(pred: Pred, w: Width, a: u64, b: u64) -> bool
    ensures { result ≡ compared_in pred w a b }
{
    match pred {
        Pred::Eq => a == b,
        Pred::Ne => a != b,
        Pred::Ult => a < b,
        Pred::Ule => a <= b,
        Pred::Ugt => b < a,
        Pred::Uge => b <= a,
        Pred::Slt => biased(w, a) < biased(w, b),
        Pred::Sle => biased(w, a) <= biased(w, b),
        Pred::Sgt => biased(w, b) < biased(w, a),
        Pred::Sge => biased(w, b) <= biased(w, a),
    }
}

/// How much the modulus of one width is above that of another.
fn gap(from: Width, to: Width) -> u64
    ensures { result ≡ modulus to - modulus from }
{
    greatest(to).saturating_sub(greatest(from))
}

/// A number of one width as one of another.
pub fn cast(op: CastOp, from: Width, to: Width, n: u64) -> u64
    ensures { result ≡ cast_in op from to n }
{
    match op {
        CastOp::Trunc | CastOp::Zext => wrap(to, n),
        CastOp::Sext => {
            if is_negative(from, n) {
                sum(to, n, gap(from, to))
            } else {
                wrap(to, n)
            }
        }
    }
}
