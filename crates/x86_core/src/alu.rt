//! Operations on two numbers of a width: the result and the four flags.

ghost use Rattle.std.specs.Prelude.{◌≡◌, ◌^◌, ◌<◌};
ghost use Rattle.x86_core.specs.Arithmetic.{wide_bits, low, is_negative, flag_if, alu_result, carry, overflow, alu_flags, same_op, constant, is_written};

use crate::flags::{Flag, Flags};
use crate::instr::{AluOp, ImmOp, Wide};

/// The low bits of a word. Takes no memory.
pub fn low_bits(w: Wide, n: u64) -> u64
    ensures value { result ≡ low (wide_bits w) n }
    ensures small { result < 2 ^ wide_bits w }
{
    match w {
        Wide::W32 => n % 4294967296,
        Wide::W64 => n,
    }
}

/// The operation on registers that an operation with a constant does. Takes no memory.
pub fn operation(op: ImmOp) -> AluOp
    ensures { result ≡ same_op op }
{
    match op {
        ImmOp::Add => AluOp::Add,
        ImmOp::Or => AluOp::Or,
        ImmOp::And => AluOp::And,
        ImmOp::Sub => AluOp::Sub,
        ImmOp::Xor => AluOp::Xor,
        ImmOp::Cmp => AluOp::Cmp,
    }
}

/// A constant with its sign, in 64 bits. Takes no memory.
pub fn extended_constant(n: i32) -> u64
    ensures { result ≡ constant n }
{
    (n as i64).cast_unsigned()
}

/// Whether an operation writes its result, and not flags alone. Takes no memory.
pub fn writes(op: AluOp) -> bool
    ensures { result ≡ is_written op }
{
    match op {
        AluOp::Cmp | AluOp::Test => false,
        _ => true,
    }
}

/// The flag that a test decides. Takes no memory.
pub fn flag(b: bool) -> Flag
    ensures { result ≡ flag_if b }
{
    if b { Flag::One } else { Flag::Zero }
}

/// Whether the sign bit is set. Takes no memory.
pub fn negative(w: Wide, n: u64) -> bool
    ensures { result ≡ is_negative (wide_bits w) n }
{
    match w {
        Wide::W32 => n >= 2147483648,
        Wide::W64 => n >= 9223372036854775808,
    }
}

/// The result of an operation on two numbers of a width. Takes no memory.
pub fn result_of(op: AluOp, w: Wide, a: u64, b: u64) -> u64
    requires first { a < 2 ^ wide_bits w }
    requires second { b < 2 ^ wide_bits w }
    ensures { result ≡ alu_result op (wide_bits w) a b }
{
    match op {
        AluOp::Add => low_bits(w, a.wrapping_add(b)),
        AluOp::Sub | AluOp::Cmp => low_bits(w, a.wrapping_sub(b)),
        AluOp::And | AluOp::Test => a & b,
        AluOp::Or => a | b,
        AluOp::Xor => a ^ b,
    }
}

fn carries(op: AluOp, w: Wide, a: u64, b: u64) -> bool
    requires first { a < 2 ^ wide_bits w }
    requires second { b < 2 ^ wide_bits w }
    ensures { result ≡ carry op (wide_bits w) a b }
{
    match op {
        AluOp::Add => match w {
            Wide::W32 => a + b >= 4294967296,
            Wide::W64 => a > u64::MAX - b,
        },
        AluOp::Sub | AluOp::Cmp => a < b,
        _ => false,
    }
}

fn overflows(op: AluOp, w: Wide, a: u64, b: u64, r: u64) -> bool
    ensures { result ≡ overflow op (wide_bits w) a b r }
{
    let x = negative(w, a);
    let y = negative(w, b);
    let z = negative(w, r);
    match op {
        AluOp::Add => x == y && x != z,
        AluOp::Sub | AluOp::Cmp => x != y && x != z,
        _ => false,
    }
}

/// The four flags after an operation on two numbers of a width, by its result. Takes no memory.
pub fn flags_of(op: AluOp, w: Wide, a: u64, b: u64, r: u64) -> Flags
    requires first { a < 2 ^ wide_bits w }
    requires second { b < 2 ^ wide_bits w }
    ensures { result ≡ alu_flags op (wide_bits w) a b r }
{
    Flags {
        c: flag(carries(op, w, a, b)),
        z: flag(r == 0),
        s: flag(negative(w, r)),
        o: flag(overflows(op, w, a, b, r)),
    }
}
