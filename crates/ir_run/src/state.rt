//! The calls and the memory of a run.

use crate::stack::Stack;
use ir_context::registers::Registers;
use ir_memory::memory::Memory;

/// A call that is active: where it stands, its registers, the objects that its allocas made, and
/// the register of its caller that gets its result.
#[derive(Drop)]
pub struct Frame {
    pub function: usize,
    pub block: usize,
    pub next: usize,
    pub registers: Registers,
    pub objects: Stack<u64>,
    pub into: Option<usize>,
}

/// A run: the innermost call, those that wait for it, the newest first, and all objects.
#[derive(Drop)]
pub struct State {
    pub frame: Frame,
    pub callers: Stack<Frame>,
    pub memory: Memory,
}

/// What a step asks of the outside: to print a byte, or to take one and give it to a register.
#[derive(Clone, Copy)]
pub enum Asked {
    Nothing,
    Print(u8),
    Take(Option<usize>),
}
