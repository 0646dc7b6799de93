//! Homes by ranges: each range in turn gets the least colour that no earlier one still has.

ghost use Rattle.std.specs.Prelude.{◌≡◌, ℕ, ◌+◌, ◌<◌, ◌≤◌, ◌^◌, IfOk, MatchOption, length, get_or, OnOk, Some, slice_get};
ghost use Rattle.regalloc.specs.Ranges.{AreFrames, AreRanges, AreSeparate, AreOwnFrames, AreGapless, AreCrowded, IsOrder, IsRanged};

use crate::range::Range;
use low_core::sel::Home;
use rd_num::list::List;
use rd_num::width::NoMemory;
use std::alloc::Global;

/// How many colours there are.
const COLORS: usize = 5;

/// The least colour that is free at a position. Each is free from its position in `free_from` on.
fn free_color(free_from: &[u32; COLORS], low: u32) -> Option<usize>
    ensures { MatchOption result
        ((c : ℕ) → c < 5 → low < get_or free_from.now c 0)
        (λ c. (c < 5) × ((get_or free_from.now c 0 ≤ low) ×
        ((d : ℕ) → d < c → low < get_or free_from.now d 0))) }
{
    for c in 0..COLORS {
        if free_from[c] <= low {
            return Some(c);
        }
    }
    None
}

/// For each of so many registers the place of the frame of its own number.
fn frames(alloc: Global, count: u32) -> Result<List<Home>, NoMemory>
    ensures long { IfOk result (λ hs. length hs ≡ count) }
    ensures own { IfOk result (λ hs. AreFrames hs) }
{
    let mut homes = List::new(alloc);
    for r in 0..count {
        homes.add(Home::Frame(r))?;
    }
    Ok(homes)
}

/// The homes of registers that have these ranges, which get them in this order.
pub(crate) fn scan(
    alloc: Global,
    ranges: &[Option<Range>],
    order: &[u32],
) -> Result<List<Home>, NoMemory>
    requires few { length ranges.now < 2 ^ 32 }
    requires ranges { AreRanges ranges.now }
    requires order { IsOrder ranges.now order.now }
    ensures long { IfOk result (λ hs. length hs ≡ length ranges.now) }
    ensures frames { IfOk result (λ hs. AreOwnFrames hs) }
    ensures apart { IfOk result (λ hs. AreSeparate ranges.now hs) }
    ensures colors { IfOk result (λ hs. AreGapless (IsRanged ranges.now) hs) }
    ensures crowded { IfOk result (λ hs. AreCrowded ranges.now hs) }
{
    let mut homes = frames(alloc, ranges.len() as u32)?;
    let mut free_from = [0u32; COLORS];
    for r in order {
        let number = *r as usize;
        if let Some(range) = ranges[number] {
            if let Some(color) = free_color(&free_from, range.low) {
                free_from[color] = range.high + 1;
                homes.set(number, Home::Color(color as u32));
            }
        }
    }
    Ok(homes)
}
