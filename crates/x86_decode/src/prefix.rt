//! What stands before an opcode, and which rows take it.

ghost use Rattle.std.specs.Prelude.{◌≡◌, ◌≤◌, ◌<◌};
ghost use Rattle.x86_core.specs.Decoding.{wide_bit, reg_bit, rm_bit, prefix_size, is_plain, is_free, is_sized, is_narrow, is_long, is_byte, is_usual, wide_at, size_at, is_rex, rex_of};

use x86_core::instr::{Prefix, Size, Wide};

/// Whether a byte is a REX byte: 0100 W R 0 B.
pub fn is_rex_byte(n: u8) -> bool
    ensures { result ≡ is_rex n }
{
    n / 16 == 4 && n / 2 % 2 == 0
}

/// The bits of a REX byte.
pub fn rex_bits(n: u8) -> Prefix
    ensures { result ≡ rex_of n }
{
    Prefix::Rex {
        w: n / 8 % 2 == 1,
        r: n / 4 % 2 == 1,
        b: n % 2 == 1,
    }
}

/// The R bit.
pub fn reg(p: Prefix) -> bool
    ensures { result ≡ reg_bit p }
{
    match p {
        Prefix::Plain => false,
        Prefix::Rex { r, .. } => r,
        Prefix::Word { r, .. } => r,
    }
}

/// The B bit.
pub fn rm(p: Prefix) -> bool
    ensures { result ≡ rm_bit p }
{
    match p {
        Prefix::Plain => false,
        Prefix::Rex { b, .. } => b,
        Prefix::Word { b, .. } => b,
    }
}

/// How many bytes a prefix has.
pub fn size(p: Prefix) -> u8
    ensures value { result ≡ prefix_size p }
    ensures small { result ≤ 2 }
{
    match p {
        Prefix::Plain => 0,
        Prefix::Rex { .. } => 1,
        Prefix::Word { r, b } => if r || b { 2 } else { 1 },
    }
}

/// Whether there is no prefix.
pub fn plain(p: Prefix) -> bool
    ensures { result ≡ is_plain p }
{
    match p {
        Prefix::Plain => true,
        _ => false,
    }
}

/// Whether a row of 32 or 64 bits takes it.
pub fn free(p: Prefix) -> bool
    ensures { result ≡ is_free p }
{
    match p {
        Prefix::Plain => true,
        Prefix::Rex { w, r, b } => w || r || b,
        Prefix::Word { .. } => false,
    }
}

/// Whether a row of 16, 32 or 64 bits takes it.
pub fn sized(p: Prefix) -> bool
    ensures { result ≡ is_sized p }
{
    match p {
        Prefix::Plain => true,
        Prefix::Rex { w, r, b } => w || r || b,
        Prefix::Word { .. } => true,
    }
}

/// Whether a row with no W takes it.
pub fn narrow(p: Prefix) -> bool
    ensures { result ≡ is_narrow p }
{
    match p {
        Prefix::Plain => true,
        Prefix::Rex { w, r, b } => !w && (r || b),
        Prefix::Word { .. } => false,
    }
}

/// Whether a row with W takes it.
pub fn long(p: Prefix) -> bool
    ensures { result ≡ is_long p }
{
    match p {
        Prefix::Rex { w, .. } => w,
        _ => false,
    }
}

/// Whether a row that names bytes of registers takes it.
pub fn byte(p: Prefix) -> bool
    ensures { result ≡ is_byte p }
{
    match p {
        Prefix::Rex { w, .. } => !w,
        _ => false,
    }
}

/// Whether it doesn't begin with 66.
pub fn usual(p: Prefix) -> bool
    ensures { result ≡ is_usual p }
{
    match p {
        Prefix::Word { .. } => false,
        _ => true,
    }
}

/// The width of an operation on registers.
pub fn wide(p: Prefix) -> Wide
    ensures { result ≡ wide_at p }
{
    match p {
        Prefix::Rex { w: true, .. } => Wide::W64,
        _ => Wide::W32,
    }
}

/// The width of a division, a load or a store.
pub fn operand_size(p: Prefix) -> Size
    ensures { result ≡ size_at p }
{
    match p {
        Prefix::Plain => Size::W32,
        Prefix::Rex { w, .. } => if w { Size::W64 } else { Size::W32 },
        Prefix::Word { .. } => Size::W16,
    }
}
