//! Ranges of positions.

/// All positions from the lowest to the highest.
#[derive(Clone, Copy)]
pub struct Range {
    pub low: u32,
    pub high: u32,
}
