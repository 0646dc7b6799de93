//! Where a register of a program of registers lives.

use x86_core::reg::Reg;

/// A home: a processor register, or a word of the frame, by its number from the frame's lowest one.
#[derive(Clone, Copy)]
pub enum Spot {
    Own(Reg),
    Frame(u32),
}
