//! What a compiler decides before it writes code: its slots, and where data lies.
//!
//! The way back of a slot is a place in code that isn't written yet, so here it is a site: the jump to
//! the slot by its function and its number. Functions are named by their numbers in the object.

use crate::address::SlotAddr;
use rd_num::list::List;

/// A jump to a slot that comes back: how many such jumps stand before it in its function's bytes.
#[derive(Clone, Copy)]
pub struct Site {
    pub function: u32,
    pub number: u32,
}

/// A slot whose way back is a site.
#[derive(Clone, Copy)]
pub enum Slot0 {
    Entry { target: u32 },
    Jump { target: u32 },
    Call { target: u32, site: Site },
    Indirect { site: Site },
    System { site: Site },
}

/// The slots of an object in their order, the positions at which they stand, and for each function of
/// the module its address as a pointer. A function without a jump slot has the first slot's address
/// there, which nothing uses.
#[derive(Drop)]
pub struct SlotPlan {
    pub slots: List<Slot0>,
    pub positions: List<u32>,
    pub pointers: List<SlotAddr>,
}

/// The addresses of globals, and the data: that which is only read, and that which is written too.
#[derive(Drop)]
pub struct Placing {
    pub globals: List<u64>,
    pub ro: List<u8>,
    pub rw: List<u8>,
}
