//! Division of a number of twice a width by one of the width.

ghost use Rattle.std.specs.Prelude.{◌≡◌, ◌^◌, ◌<◌, ◌≤◌, ◌*◌, ◌-◌};
ghost use Rattle.x86_core.specs.Arithmetic.{size_bits, low, division, unsigned_division, signed_division, is_negative, magnitude, with_sign, has_room};

use crate::instr::Size;

/// A quotient and a remainder.
#[derive(Clone, Copy)]
pub struct Division {
    pub quotient: u64,
    pub remainder: u64,
}

/// The low bits of a word. Takes no memory.
pub fn size_low(size: Size, n: u64) -> u64
    ensures value { result ≡ low (size_bits size) n }
    ensures small { result < 2 ^ size_bits size }
{
    match size {
        Size::W8 => n % 256,
        Size::W16 => n % 65536,
        Size::W32 => n % 4294967296,
        Size::W64 => n,
    }
}

/// The answer of a division; `None` exactly where it faults. Takes no memory.
pub fn divide(signed: bool, size: Size, n: u128, by: u64) -> Option<Division>
    requires number { n < 2 ^ (2 * size_bits size) }
    requires divisor { by < 2 ^ size_bits size }
    ensures { result ≡ division signed (size_bits size) n by }
{
    if signed {
        divide_signed(size, n, by)
    } else {
        divide_unsigned(size, n, by)
    }
}

// The largest number of a size.
fn largest(size: Size) -> u64
    ensures { result ≡ 2 ^ size_bits size - 1 }
{
    match size {
        Size::W8 => 255,
        Size::W16 => 65535,
        Size::W32 => 4294967295,
        Size::W64 => 18446744073709551615,
    }
}

fn divide_unsigned(size: Size, n: u128, by: u64) -> Option<Division>
    requires number { n < 2 ^ (2 * size_bits size) }
    requires divisor { by < 2 ^ size_bits size }
    ensures { result ≡ unsigned_division (size_bits size) n by }
{
    if by == 0 {
        return None;
    }
    let quotient = n / (by as u128);
    if quotient <= largest(size) as u128 {
        Some(Division {
            quotient: quotient as u64,
            remainder: (n % (by as u128)) as u64,
        })
    } else {
        None
    }
}

// Half of the numbers of a size: the first that reads as a negative one.
fn half(size: Size) -> u64
    ensures { result ≡ 2 ^ (size_bits size - 1) }
{
    match size {
        Size::W8 => 128,
        Size::W16 => 32768,
        Size::W32 => 2147483648,
        Size::W64 => 9223372036854775808,
    }
}

// How far a number of twice the size is from 0.
fn double_magnitude(size: Size, n: u128) -> u128
    requires { n < 2 ^ (2 * size_bits size) }
    ensures value { result ≡ magnitude (2 * size_bits size) n }
    ensures small { result ≤ 2 ^ (2 * size_bits size - 1) }
{
    match size {
        Size::W8 => if n >= 32768 { 65536 - n } else { n },
        Size::W16 => if n >= 2147483648 { 4294967296 - n } else { n },
        Size::W32 => if n >= 9223372036854775808 {
            18446744073709551616 - n
        } else {
            n
        },
        Size::W64 => {
            if n >= 170141183460469231731687303715884105728 {
                340282366920938463463374607431768211455 - n + 1
            } else {
                n
            }
        }
    }
}

fn double_negative(size: Size, n: u128) -> bool
    ensures { result ≡ is_negative (2 * size_bits size) n }
{
    match size {
        Size::W8 => n >= 32768,
        Size::W16 => n >= 2147483648,
        Size::W32 => n >= 9223372036854775808,
        Size::W64 => n >= 170141183460469231731687303715884105728,
    }
}

fn single_magnitude(size: Size, n: u64) -> u64
    requires { n < 2 ^ size_bits size }
    ensures value { result ≡ magnitude (size_bits size) n }
    ensures small { result ≤ 2 ^ (size_bits size - 1) }
{
    if n >= half(size) {
        largest(size) - n + 1
    } else {
        n
    }
}

// The number of a size with this magnitude and this sign.
fn signed_number(size: Size, negative: bool, n: u64) -> u64
    requires { n ≤ 2 ^ (size_bits size - 1) }
    ensures { result ≡ with_sign (size_bits size) negative n }
{
    if negative && n != 0 {
        largest(size) - n + 1
    } else {
        n
    }
}

// Whether a signed number of a size has this magnitude and this sign.
fn fits(size: Size, negative: bool, n: u128) -> bool
    ensures { result ≡ has_room (size_bits size) negative n }
{
    if negative {
        n <= half(size) as u128
    } else {
        n < half(size) as u128
    }
}

fn divide_signed(size: Size, n: u128, by: u64) -> Option<Division>
    requires number { n < 2 ^ (2 * size_bits size) }
    requires divisor { by < 2 ^ size_bits size }
    ensures { result ≡ signed_division (size_bits size) n by }
{
    if by == 0 {
        return None;
    }
    let above = double_negative(size, n);
    let below = by >= half(size);
    let a = double_magnitude(size, n);
    let b = single_magnitude(size, by) as u128;
    let quotient = a / b;
    let remainder = a % b;
    let negative = above != below;
    if fits(size, negative, quotient) {
        Some(Division {
            quotient: signed_number(size, negative, quotient as u64),
            remainder: signed_number(size, above, remainder as u64),
        })
    } else {
        None
    }
}
