//! How a step stops a run.

use crate::memory::Reason;

/// How a step stops a run. `Malformed` comes only where a module that isn't valid has no step.
#[derive(Clone, Copy)]
pub enum Stop {
    Ended(u8),
    Divide,
    Trap,
    Depth,
    Left(Reason),
    Malformed,
}
