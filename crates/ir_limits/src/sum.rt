//! Sums and products of counts, as far as 2^64 - 1.

ghost use Rattle.std.specs.Prelude.{◌≡◌, ◌+◌, ◌*◌};
ghost use Rattle.ir_core.specs.Counts.{told, spaced};

/// What the bytes of an object are rounded up to a multiple of.
const GRAIN: u64 = 16;

/// A sum. Takes no memory.
pub fn plus(a: u64, b: u64) -> u64
    ensures { result ≡ told (a + b) }
{
    a.saturating_add(b)
}

/// A product. Takes no memory.
pub fn times(a: u64, b: u64) -> u64
    ensures { result ≡ told (a * b) }
{
    a.saturating_mul(b)
}

/// Bytes with the gap behind them up to the next multiple of 16. Takes no memory.
pub fn with_gap(bytes: u64) -> u64
    ensures { result ≡ told (spaced bytes) }
{
    if bytes <= u64::MAX - (GRAIN - 1) {
        (bytes + (GRAIN - 1)) / GRAIN * GRAIN
    } else {
        u64::MAX
    }
}
