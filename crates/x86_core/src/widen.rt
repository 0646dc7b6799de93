//! Low bits of a word, with zeros or copies of their sign above them.

ghost use Rattle.std.specs.Prelude.{◌≡◌, ◌^◌, ◌<◌};
ghost use Rattle.x86_core.specs.Arithmetic.{widened, sign_extended, sign_fill, high_bits};

use crate::instr::{HighSize, WidenKind};

/// The low bits of a word, widened. Takes no memory.
pub fn widen(kind: WidenKind, n: u64) -> u64
    ensures { result ≡ widened kind n }
{
    match kind {
        WidenKind::Zero8 => n % 256,
        WidenKind::Zero16 => n % 65536,
        WidenKind::Sign8 => from_8(n),
        WidenKind::Sign16 => from_16(n),
        WidenKind::Sign32 => from_32(n),
    }
}

fn from_8(n: u64) -> u64
    ensures { result ≡ sign_extended 8 n }
{
    let low = n % 256;
    if low < 128 {
        low
    } else {
        low + 18446744073709551360
    }
}

fn from_16(n: u64) -> u64
    ensures { result ≡ sign_extended 16 n }
{
    let low = n % 65536;
    if low < 32768 {
        low
    } else {
        low + 18446744073709486080
    }
}

fn from_32(n: u64) -> u64
    ensures { result ≡ sign_extended 32 n }
{
    let low = n % 4294967296;
    if low < 2147483648 {
        low
    } else {
        low + 18446744069414584320
    }
}

/// As many ones as the width has bits where the low bits are negative, else zeros. Takes no memory.
pub fn fill(size: HighSize, n: u64) -> u64
    ensures { result ≡ sign_fill (high_bits size) n }
{
    match size {
        HighSize::W16 => if n % 65536 >= 32768 { 65535 } else { 0 },
        HighSize::W32 => if n % 4294967296 >= 2147483648 {
            4294967295
        } else {
            0
        },
        HighSize::W64 => if n >= 9223372036854775808 {
            18446744073709551615
        } else {
            0
        },
    }
}
