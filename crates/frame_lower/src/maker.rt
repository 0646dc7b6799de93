//! What the code of a function is made by.

use frame_rows::spot::Spot;

/// Where registers live, the addresses of globals and functions, the frame, and the order of pushes.
#[derive(Clone, Copy)]
pub struct Maker<'a> {
    /// The home of each register.
    pub homes: &'a [Spot],
    pub globals: &'a [u64],
    pub functions: &'a [u64],
    /// The words of the frame below the function's own memory.
    pub words: u32,
    /// The bytes that the function makes room for.
    pub room: u32,
    /// The places of the five saved registers, in the order in which they are pushed.
    pub order: &'a [u32],
}
