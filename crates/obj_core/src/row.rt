//! Pieces in the order in which they stand, at gaps that the seed draws.
//!
//! A layout seed comes in with the pieces; out come the address where code begins, where each piece
//! starts, and where code ends, in bytes. Words of purpose 1 draw the order and words of purpose 5 the
//! base and the gaps, as `specs/Placement.antt` says. No byte of code is looked at.

ghost use Rattle.std.specs.Prelude.{◌≡◌, ◌≤◌, length, IfOk};
ghost use Rattle.std.specs.List.{sum_by};
ghost use Rattle.rd_draw.specs.Draw.{keystream_word, shuffled};
ghost use Rattle.obj_core.specs.Pieces.{piece_len};
ghost use Rattle.obj_core.specs.Placement.{piece_in, pieces_in, code_base, order_purpose, gap_purpose, starts_from};
ghost use Rattle.obj_core.specs.Plans.{end_from};
ghost use Rattle.obj_core.specs.WellFormed.{most_code, most_pieces};

use crate::bytes::round_up;
use crate::piece::Piece;
use rd_draw::{Draw, perm, shuffle_known};
use rd_num::list::List;
use rd_num::width::NoMemory;
use std::alloc::Global;

/// The lowest address where code may begin.
const CODE_BASE: u32 = 0x4000_0000;

/// What the order of pieces is drawn for, and what gaps.
const ORDER_PURPOSE: u32 = 1;

const GAP_PURPOSE: u32 = 5;

/// Where code begins, where each piece starts, in the order in which they stand, and where code ends.
#[derive(Drop)]
pub struct Row {
    pub base: u32,
    pub starts: List<u32>,
    pub end: u32,
}

/// The order of so many pieces.
pub fn piece_order(alloc: Global, count: u32, layout_seed: u64) -> Result<List<u32>, NoMemory>
    requires { count ≤ most_pieces }
    ensures { IfOk result (λ all. all ≡
        shuffled (keystream_word layout_seed order_purpose 0) count) }
{
    shuffle_known();
    perm(alloc, layout_seed, ORDER_PURPOSE, 0, count)
}

/// The pieces of these numbers, one behind the other.
pub fn row_of(alloc: Global, pieces: &[Piece], order: &[u32], seed: u64) -> Result<Row, NoMemory>
    requires few { length order.now ≤ most_pieces }
    requires little { sum_by piece_len (pieces_in pieces.now order.now) ≤ most_code }
    ensures base { IfOk result (λ r. r.base ≡ code_base seed) }
    ensures starts { IfOk result (λ r. r.starts ≡
        starts_from (keystream_word seed gap_purpose 0) 1 (code_base seed)
        (pieces_in pieces.now order.now)) }
    ensures end { IfOk result (λ r. r.end ≡ end_from (keystream_word seed gap_purpose 0) 1
        (code_base seed) (pieces_in pieces.now order.now)) }
    ensures ahead { IfOk result (λ r. r.base ≤ r.end) }
{
    let mut draw = Draw::new(seed, GAP_PURPOSE, 0);
    let base = CODE_BASE + 4096 * (draw.next() % 65536);
    let mut starts = List::new(alloc);
    let mut end = base;
    for number in order {
        let start = round_up(end) + 16 * (draw.next() % 32);
        starts.add(start)?;
        end = start + len_of(pieces, *number);
    }
    Ok(Row {
        base,
        starts,
        end: round_up(end),
    })
}

/// How many bytes the piece of a number has, or 0 where there is none. Takes no memory.
#[tactic(auto, unfolding(crate::specs::Placement::piece_in), using(crate::proofs::Pieces::get_some, crate::proofs::Pieces::get_none))]
pub fn len_of(pieces: &[Piece], number: u32) -> u32
    ensures { result ≡ piece_len (piece_in pieces.now number) }
{
    match pieces.get(number as usize) {
        Some(piece) => piece.to.saturating_sub(piece.from),
        None => 0,
    }
}
