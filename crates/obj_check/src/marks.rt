//! Tables that mark places, a bit for each.
//!
//! A table is made for the places up to a size, and marks none at first. A mark past its end is
//! dropped, and no place there is marked. The verifier keeps the starts of instructions so, the ends
//! of branches with displacement 0, the links of one function, and registers by their numbers.

ghost use Rattle.std.specs.Prelude.{◌≡◌, ℕ, ◌<◌, ◌≤◌, ◌||◌, false, nat_eq, IfOk};
ghost use Rattle.obj_check.specs.Marked.{is_set, room, marked};

use rd_num::list::List;
use rd_num::width::NoMemory;
use std::alloc::Global;

/// Marks at places below a bound, in words of 64.
#[derive(Drop)]
pub struct Table {
    words: List<u64>,
}

/// A table with no mark, for the places up to a size.
pub fn blank(alloc: Global, size: usize) -> Result<Table, NoMemory>
    ensures room { IfOk result (λ t. size < room t) }
    ensures none { IfOk result (λ t. (k : ℕ) → marked t k ≡ false) }
{
    let mut words = List::new(alloc);
    for _ in 0..size / 64 + 1 {
        words.add(0)?;
    }
    Ok(Table { words })
}

/// A word with a bit set.
fn with_bit(word: u64, bit: u32) -> u64
    requires { bit < 64 }
    ensures { (i : ℕ) → is_set result i ≡ (nat_eq bit i || is_set word i) }
{
    word | 1 << bit
}

/// Whether a bit of a word is set.
fn has_bit(word: u64, bit: u32) -> bool
    requires { bit < 64 }
    ensures { result ≡ is_set word bit }
{
    (word >> bit) & 1 == 1
}

/// Marks a place, and nothing where the table has no room for it.
pub fn mark(table: &mut Table, place: usize)
    ensures room { room table.new ≡ room table.old }
    ensures marks { place < room table.old → (k : ℕ) → marked table.new k ≡
        (nat_eq place k || marked table.old k) }
    ensures past { room table.old ≤ place → table.new ≡ table.old }
{
    let at = place / 64;
    if at < table.words.len() {
        let word = with_bit(table.words.as_slice()[at], (place % 64) as u32);
        table.words.set(at, word);
    }
}

/// Whether a place is marked, which none is that a table has no room for.
pub fn is_marked(table: &Table, place: usize) -> bool
    ensures { result ≡ marked table.now place }
{
    let at = place / 64;
    at < table.words.len() && has_bit(table.words.as_slice()[at], (place % 64) as u32)
}
