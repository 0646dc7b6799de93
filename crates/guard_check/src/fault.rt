//! What is wrong with an object that is not guarded: a rule by its number, and where it fails first.

/// A function or a slot, by number.
#[derive(Clone, Copy, PartialEq, Eq, Debug)]
pub enum GuardSpot {
    Function(u32),
    Slot(u32),
}

/// The first rule that fails, in it the first function or slot, and there the least offset in bytes
/// from the function's start, 0 for a slot.
#[derive(Clone, Copy, PartialEq, Eq, Debug)]
pub enum GuardFault {
    Rule {
        rule: u8,
        spot: GuardSpot,
        offset: u32,
    },
}
