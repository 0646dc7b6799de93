//! Up to sixteen bytes that are being put together, with zeros behind them.

ghost use Rattle.std.specs.Prelude.{◌≡◌, ◌∷◌, ◌++◌, ◌+◌, ◌-◌, ◌<◌, ◌≤◌, [], length, replicate};
ghost use Rattle.x86_core.specs.Encoding.{rex, rex_if, number32};
ghost use Rattle.rd_num.specs.Number.{le_bytes};

use std::marker::Model;

/// The bytes so far; contracts see the list of them.
#[derive(Drop)]
pub struct Spelling {
    bytes: [u8; 16],
    len: u8,
}

impl Model for Spelling {
    ghost use Rattle.std.specs.Prelude.{ℕ, List, take, drop, ◌≡◌, ◌≤◌, ◌-◌, replicate};

    ghost Value = { List ℕ };

    ghost view = { λ s. take s.len s.bytes };

    ghost invariant = { λ s. (s.len ≤ 16) × (drop s.len s.bytes ≡ replicate (16 - s.len) 0) };
}

impl Spelling {
    /// No byte. Takes no memory.
    pub fn new() -> Spelling
        ensures { result ≡ [] }
    {
        Spelling {
            bytes: [0; 16],
            len: 0,
        }
    }

    /// Puts a byte at the end. Takes no memory.
    #[tactic(auto, using(crate::proofs::Zeros::zeros_behind))]
    pub fn put(&mut self, b: u8)
        requires { length self.old < 16 }
        ensures put { self.new ≡ self.old ++ b ∷ [] }
        ensures len { length self.new ≡ length self.old + 1 }
    {
        self.bytes[self.len as usize] = b;
        self.len += 1;
    }

    /// The bytes with zeros after them, and their number. Takes no memory.
    #[tactic(auto, using(crate::proofs::Zeros::bytes_and_zeros))]
    pub fn finish(self) -> ([u8; 16], u8)
        ensures bytes { result.0 ≡ self ++ replicate (16 - length self) 0 }
        ensures len { result.1 ≡ length self }
        ensures small { result.1 ≤ 16 }
    {
        let bytes = self.bytes;
        (bytes, self.len)
    }
}
