//! The values of a run, and the objects that hold them. No object has an address.

use rd_num::list::List;
use rd_num::width::Width;

/// A value: a number below 2^width, null, a place, or a function of the module by its number.
///
/// A place is the number of an object and an offset into it. Objects are numbered as they are made,
/// from 0: the globals in the module's order, then each alloca; no number is used twice.
#[derive(Clone, Copy, PartialEq, Eq)]
pub enum Value {
    Num(Width, u64),
    Null,
    At(u64, u64),
    Fun(u32),
}

/// A byte of an object: not set, a number, or one of the eight pieces of a place or a function.
#[derive(Clone, Copy, PartialEq, Eq)]
pub enum Cell {
    Unset,
    Byte(u8),
    Piece(Value, u8),
}

/// An object. It has `size` cells while it is live, and none once it is dead.
#[derive(Drop)]
pub struct Object0 {
    pub live: bool,
    pub constant: bool,
    pub size: u64,
    pub cells: List<Cell>,
}

/// Why a run is left: the meaning of the module claims nothing past that step.
#[derive(Clone, Copy, PartialEq, Eq)]
pub enum Reason {
    Bounds,
    Dead,
    Constant,
    Unset,
    Mixed,
    Order,
    Equal,
    Callee,
    Overlap,
    Gep,
}
