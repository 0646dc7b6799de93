//! Bytes and numbers that segments are made of: displacements, round numbers, breakpoints.
//!
//! What goes in and out are plain numbers and lists of bytes; no address is kept here. A displacement
//! is four bytes, little-endian, counted from the end of its instruction. What these bytes mean in a
//! layout stands in `specs/Placement.antt`; `row` and `code` put them where they belong.

ghost use Rattle.std.specs.Prelude.{◌≡◌, ◌<◌, ◌^◌, ◌++◌, slice_index, slice_set, IfOk, OnOk};
ghost use Rattle.obj_core.specs.Placement.{filler, up16, displacement_bytes};

use rd_num::bytes::put_u64_le;
use rd_num::list::List;
use rd_num::width::NoMemory;
use std::alloc::Global;

/// How many breakpoints are put at once.
const MANY_LEN: u64 = 512;

/// So many.
const MANY: [u8; 512] = [0xCC; 512];

/// The four bytes of a displacement from the end of an instruction. Takes no memory.
pub fn way(to: u64, from: u64) -> [u8; 4]
    ensures { result ≡ displacement_bytes to from }
{
    let bytes = put_u64_le(to.wrapping_sub(from));
    [bytes[0], bytes[1], bytes[2], bytes[3]]
}

/// The least multiple of 16 that is not below a number. Takes no memory.
pub fn round_up(n: u32) -> u32
    requires { n < 2 ^ 31 }
    ensures { result ≡ up16 n }
{
    (n + 15) / 16 * 16
}

/// The number at an index, or 0. Takes no memory.
pub fn number_at(numbers: &[u32], at: usize) -> u32
    ensures { result ≡ slice_index numbers.now at }
{
    match numbers.get(at) {
        Some(n) => *n,
        None => 0,
    }
}

/// So many breakpoints.
pub fn breakpoints(alloc: Global, count: u32) -> Result<List<u8>, NoMemory>
    ensures { IfOk result (λ all. all ≡ filler count) }
{
    let mut all = List::new(alloc);
    pad(&mut all, u64::from(count))?;
    Ok(all)
}

/// Puts so many breakpoints at the end.
#[tactic(auto, using(crate::proofs::Padded::pad_more, crate::proofs::Padded::pad_last))]
pub fn pad(all: &mut List<u8>, count: u64) -> Result<(), NoMemory>
    ensures { OnOk result (all.new ≡ all.old ++ filler count) }
{
    let mut left = count;
    while left > MANY_LEN {
        all.append(&MANY)?;
        left -= MANY_LEN;
    }
    all.append(&MANY[..left as usize])
}

/// Puts a byte over the one at an index, if there is one. Takes no memory.
pub fn put_byte(all: &mut List<u8>, at: usize, byte: u8)
    ensures { all.new ≡ slice_set all.old at byte }
{
    if at < all.len() {
        all.set(at, byte);
    }
}
