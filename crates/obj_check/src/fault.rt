//! What is wrong with an object that isn't well formed.
//!
//! A rule by its number, the function or slot where it fails first, and an offset in bytes from the
//! function's start, 0 for slots and for the object as a whole. Rules are numbered as in
//! docs/object-format.md, and `Refused` hands the object back as it was.

use obj_core::object::Object;

/// The object as a whole, or one of its functions or slots, by number.
#[derive(Clone, Copy, PartialEq, Eq, Debug)]
pub enum ShapeSpot {
    Whole,
    Function(u32),
    Slot(u32),
}

/// The first rule that fails, where it fails first; or memory is wanting.
#[derive(Clone, Copy, PartialEq, Eq, Debug)]
pub enum ShapeFault {
    Rule {
        rule: u8,
        spot: ShapeSpot,
        offset: u32,
    },
    NoMemory,
}

/// An object that isn't taken, as it was, and why.
#[derive(Drop)]
pub struct Refused {
    pub object: Object,
    pub fault: ShapeFault,
}

/// A rule that fails, and where it fails first.
#[derive(Clone, Copy)]
pub struct Broken {
    pub rule: u8,
    pub spot: ShapeSpot,
    pub offset: u32,
}
