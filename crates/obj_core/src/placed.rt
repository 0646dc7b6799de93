//! The bytes of pieces, each at its start.
//!
//! Functions' bytes come in, with the pieces in the order in which they stand and the addresses where
//! they start; out come the bytes from the first address of code on, breakpoints between pieces and up
//! to a multiple of 16. Bytes are copied piece by piece, and none is looked at.

ghost use Rattle.std.specs.Prelude.{◌≡◌, ◌≤◌, ◌-◌, take, drop, IfOk};
ghost use Rattle.obj_core.specs.Pieces.{piece_len};
ghost use Rattle.obj_core.specs.Placement.{piece_in, pieces_in, up16};
ghost use Rattle.obj_core.specs.Layout.{bytes_in, piece_bytes, code_from};

use crate::bytes::{number_at, pad};
use crate::object::Func;
use crate::piece::Piece;
use crate::row::len_of;
use rd_num::list::List;
use rd_num::width::NoMemory;
use std::alloc::Global;

/// The bytes of pieces in an order, each at its start, from an address on. Time is linear in them.
pub fn placed_bytes(
    alloc: Global,
    functions: &[Func],
    pieces: &[Piece],
    order: &[u32],
    starts: &[u32],
    base: u32,
) -> Result<List<u8>, NoMemory>
    ensures { IfOk result (λ all. all ≡ code_from (bytes_in functions.now) base
        starts.now (pieces_in pieces.now order.now)) }
{
    let mut all = List::new(alloc);
    let mut end = u64::from(base);
    let count = order.len().min(starts.len());
    for i in 0..count {
        let start = u64::from(starts[i]);
        pad(&mut all, start.saturating_sub(end))?;
        all.append(bytes_of(functions, pieces, order[i]))?;
        end = start + u64::from(len_of(pieces, order[i]));
    }
    pad(&mut all, rounded(end) - end)?;
    Ok(all)
}

/// The bytes of the piece of a number, as far as there are any. Takes no memory.
#[tactic(auto, using(crate::proofs::Parts::part_there, crate::proofs::Parts::part_of_none, crate::proofs::Parts::no_part))]
fn bytes_of<'a>(functions: &'a [Func], pieces: &[Piece], number: u32) -> &'a [u8]
    ensures { result.now ≡ piece_bytes (bytes_in functions.now) (piece_in pieces.now number) }
{
    match pieces.get(number as usize) {
        Some(piece) => match functions.get(piece.function as usize) {
            Some(function) => part(function.bytes.as_slice(), piece.from, piece.to),
            None => &[],
        },
        None => &[],
    }
}

/// The bytes from an offset up to another, as far as there are any. Takes no memory.
fn part(bytes: &[u8], from: u32, to: u32) -> &[u8]
    ensures { result.now ≡ take (to - from) (drop from bytes.now) }
{
    let front = bytes.len().min(from as usize);
    let rest = &bytes[front..];
    let len = rest.len().min(to.saturating_sub(from) as usize);
    &rest[..len]
}

/// The least multiple of 16 that is not below a number. Takes no memory.
fn rounded(n: u64) -> u64
    requires { n ≤ 0x2_0000_0000 }
    ensures value { result ≡ up16 n }
    ensures ahead { n ≤ result }
{
    (n + 15) / 16 * 16
}
