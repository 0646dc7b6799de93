//! The widths of integers, and numbers taken modulo a width.

ghost use Rattle.std.specs.Prelude.{◌≡◌};
ghost use Rattle.rd_num.specs.Number.{wrapped, signed};

/// The width of an integer, in bits.
#[derive(Clone, Copy, PartialEq, Eq, Debug)]
pub enum Width {
    W1,
    W8,
    W16,
    W32,
    W64,
}

/// Want of memory: the one answer that no argument explains.
#[derive(Clone, Copy, PartialEq, Eq, Debug)]
pub struct NoMemory;

/// `n` modulo 2^width. Takes no memory.
pub fn wrap(w: Width, n: u64) -> u64
    ensures { result ≡ wrapped w n }
{
    match w {
        Width::W1 => n % 2,
        Width::W8 => n % 256,
        Width::W16 => n % 65536,
        Width::W32 => n % 4294967296,
        Width::W64 => n,
    }
}

/// The signed number that the low bits of `n` spell in two's complement. Takes no memory.
pub fn sign(w: Width, n: u64) -> i64
    ensures { result ≡ signed w n }
{
    match w {
        Width::W1 => -((n % 2).cast_signed()),
        Width::W8 => ((n % 256) as u8).cast_signed() as i64,
        Width::W16 => ((n % 65536) as u16).cast_signed() as i64,
        Width::W32 => ((n % 4294967296) as u32).cast_signed() as i64,
        Width::W64 => n.cast_signed(),
    }
}
