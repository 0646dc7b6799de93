//! Shifts of a number of a width, and what they leave known of the flags.

ghost use Rattle.std.specs.Prelude.{◌≡◌, ◌^◌, ◌<◌};
ghost use Rattle.x86_core.specs.Arithmetic.{wide_bits, shift_count, shifted, shift_flags};

use crate::alu::{flag, low_bits, negative};
use crate::flags::{Flag, Flags};
use crate::instr::{ShiftOp, Wide};

/// How far a shift goes, by the low byte of a word. Takes no memory.
pub fn count(w: Wide, n: u64) -> u32
    ensures value { result ≡ shift_count (wide_bits w) n }
    ensures small { result < wide_bits w }
{
    match w {
        Wide::W32 => (n % 256 % 32) as u32,
        Wide::W64 => (n % 256 % 64) as u32,
    }
}

/// A number of a width, shifted. Takes no memory.
pub fn shift(op: ShiftOp, w: Wide, a: u64, by: u32) -> u64
    requires number { a < 2 ^ wide_bits w }
    requires count { by < wide_bits w }
    ensures { result ≡ shifted op (wide_bits w) a by }
{
    match op {
        ShiftOp::Shl => low_bits(w, a << by),
        ShiftOp::Shr => a >> by,
        ShiftOp::Sar => signed_right(w, a, by),
    }
}

fn signed_right(w: Wide, a: u64, by: u32) -> u64
    requires number { a < 2 ^ wide_bits w }
    requires count { by < wide_bits w }
    ensures { result ≡ shifted ShiftOp.Sar (wide_bits w) a by }
{
    match w {
        Wide::W32 => {
            if a < 2147483648 {
                a >> by
            } else {
                4294967295 - ((4294967295 - a) >> by)
            }
        }
        Wide::W64 => {
            if a < 9223372036854775808 {
                a >> by
            } else {
                18446744073709551615 - ((18446744073709551615 - a) >> by)
            }
        }
    }
}

/// The flags after a shift, by its count and its result. Takes no memory.
pub fn flags_after(w: Wide, by: u32, r: u64, flags: &Flags) -> Flags
    ensures { result ≡ shift_flags (wide_bits w) by r flags.now }
{
    if by == 0 {
        return *flags;
    }
    Flags {
        c: Flag::Unknown,
        z: flag(r == 0),
        s: flag(negative(w, r)),
        o: Flag::Unknown,
    }
}
