//! Draws from a seed: the words of a keystream, and shuffles by them.
//!
//! A stream is named by a seed, a purpose and an index. Its words are those of ChaCha20 with a
//! 64-bit block counter (RFC 8439, "The ChaCha20 Block Function") under a key of these three
//! numbers, at stream 0 from place 0. A shuffle of the numbers below n takes the words in order.
//! Words have 32 bits; places count words from 0.
#![tactic(auto)]

ghost use Rattle.std.specs.Prelude.{◌≡◌, ℕ, ◌+◌, ◌-◌, ◌%◌, ◌^◌, ◌<◌, IfOk, length};
ghost use Rattle.std.specs.List.{swap, range_with_len, All, Contains};
ghost use Rattle.std.specs.List.Sorted.{IsPermutation};
ghost use Rattle.rd_draw.specs.Draw.{seed_bytes, stream_key, stream_word, keystream_word, swapped_down, shuffled, AreDistinct};

use rand_chacha::ChaCha20Rng;
use rand_core::SeedableRng;
use rand_core::utils::NextWord;
use rd_num::bytes::{put_u32_le, put_u64_le};
use rd_num::list::List;
use rd_num::width::NoMemory;
use std::alloc::Global;
use std::marker::Model;

/// A stream of words with the place of the next one.
#[derive(Drop)]
pub struct Draw {
    rng: ChaCha20Rng,
}

impl Model for Draw {
    ghost use Rattle.std.specs.Prelude.{◌≡◌};
    ghost use Rattle.rd_draw.specs.Draw.{Stream};

    ghost Value = { Stream };

    ghost view = { λ d. record { key = d.rng.key; place = d.rng.word_pos } };

    ghost invariant = { λ d. d.rng.stream ≡ 0 };
}

impl Draw {
    /// The stream of a seed, a purpose and an index, at its first word. Takes no memory.
    #[tactic(auto, unfolding(crate::specs::Draw::stream_key))]
    pub fn new(seed: u64, purpose: u32, index: u32) -> Draw
        ensures { result ≡ record { key = stream_key seed purpose index; place = 0 } }
    {
        Draw {
            rng: ChaCha20Rng::from_seed(key_bytes(seed, purpose, index)),
        }
    }

    /// The next word. The stream begins again after 2^68 words. Takes no memory.
    #[tactic(auto, unfolding(crate::specs::Draw::stream_word))]
    pub fn next(&mut self) -> u32
        ensures word { result ≡ stream_word self.old.key self.old.place }
        ensures moved { self.new
            ≡ record { key = self.old.key; place = (self.old.place + 1) % 2 ^ 68 } }
    {
        self.rng.next_word()
    }
}

/// The key of a stream, as bytes.
fn key_bytes(seed: u64, purpose: u32, index: u32) -> [u8; 32]
    ensures { result ≡ seed_bytes seed purpose index }
{
    let p = put_u32_le(purpose);
    let i = put_u32_le(index);
    let s = put_u64_le(seed);
    [
        p[0], p[1], p[2], p[3], i[0], i[1], i[2], i[3], s[0], s[1], s[2], s[3], s[4], s[5], s[6],
        s[7], 0, 0, 0, 0, 0, 0, 0, 0, 0, 0, 0, 0, 0, 0, 0, 0,
    ]
}

/// The numbers below `n`, shuffled by the stream of a seed, a purpose and an index.
#[tactic(auto, unfolding(crate::specs::Draw::shuffled))]
pub fn perm(
    alloc: Global,
    seed: u64,
    purpose: u32,
    index: u32,
    n: u32,
) -> Result<List<u32>, NoMemory>
    ensures { IfOk result (λ all. all ≡ shuffled (keystream_word seed purpose index) n) }
{
    let mut all = numbers_below(alloc, n)?;
    let mut draw = Draw::new(seed, purpose, index);
    shuffle(&mut all, &mut draw);
    Ok(all)
}

/// Makes it known to a proof that a shuffle is a permutation, whatever the words are.
pub fn shuffle_known()
    ensures permutes { (words : ℕ → ℕ) (n : ℕ) →
        IsPermutation (range_with_len 0 n) (shuffled words n) }
    ensures long { (words : ℕ → ℕ) (n : ℕ) → length (shuffled words n) ≡ n }
    ensures below { (words : ℕ → ℕ) (n : ℕ) → All (λ x. x < n) (shuffled words n) }
    ensures holds { (words : ℕ → ℕ) (n k : ℕ) → k < n → Contains (shuffled words n) k }
    ensures apart { (words : ℕ → ℕ) (n : ℕ) → AreDistinct (shuffled words n) }
{}

/// The numbers below `n` in order.
#[tactic(auto, using(crate::proofs::Numbers::numbers_more, crate::proofs::Numbers::numbers_long))]
fn numbers_below(alloc: Global, n: u32) -> Result<List<u32>, NoMemory>
    ensures items { IfOk result (λ all. all ≡ range_with_len 0 n) }
    ensures number { IfOk result (λ all. length all ≡ n) }
{
    let mut all = List::new(alloc);
    for i in 0..n {
        all.add(i)?;
    }
    Ok(all)
}

/// Shuffles a list by the words of a stream at its first word.
fn shuffle(all: &mut List<u32>, draw: &mut Draw)
    requires start { draw.old.place ≡ 0 }
    requires short { length all.old < 2 ^ 32 }
    ensures { all.new ≡ swapped_down (stream_word draw.old.key) (length all.old - 1) 0 all.old }
{
    let n = all.len();
    if n < 2 {
        return;
    }
    for i in (1..n).rev() {
        let other = draw.next() as usize % (i + 1);
        exchange(all, i, other);
    }
}

/// Puts two items in each other's place.
fn exchange(all: &mut List<u32>, i: usize, j: usize)
    requires i_in_bounds { i < length all.old }
    requires j_in_bounds { j < length all.old }
    ensures { all.new ≡ swap all.old i j }
{
    let at_i = all.as_slice()[i];
    let at_j = all.as_slice()[j];
    all.set(i, at_j);
    all.set(j, at_i);
}

#[cfg(test)]
mod tests;
