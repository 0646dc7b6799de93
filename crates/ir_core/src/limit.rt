//! The limits that a module has to keep, and the places at which the rules of types can fail.
//!
//! A compiled program stays within its module's counts, so that no later stage refuses a module.

/// What is limited, in the order in which the limits are tested.
#[derive(Clone, Copy, PartialEq, Eq)]
pub enum Limit {
    Nesting,
    Size,
    Functions,
    Instructions,
    Total,
    Parameters,
    Frame,
    Bytes,
    Code,
}

/// How deep arrays and structs stand one inside another, with names replaced.
pub const MAX_NESTING: u32 = 64;

/// Bytes of a type that is written.
pub const MAX_SIZE: u32 = 67_108_864;

/// Defined functions.
pub const MAX_FUNCTIONS: u32 = 4_096;

/// Instructions and terminators of a function.
pub const MAX_INSTRUCTIONS: u32 = 65_536;

/// Instructions and terminators of a module.
pub const MAX_TOTAL: u32 = 1_000_000;

/// Parameters of a function or a declaration, and arguments of a call.
pub const MAX_PARAMETERS: u32 = 32;

/// How many arguments of a call are passed without the stack.
pub const REGISTER_PARAMETERS: u32 = 6;

/// The count of a function's frame.
pub const MAX_FRAME: u32 = 65_536;

/// Bytes of all globals.
pub const MAX_BYTES: u32 = 67_108_864;

/// The count of a module's code.
pub const MAX_CODE: u32 = 67_108_864;

/// A place at which a rule of types can fail, by numbers from 0.
///
/// An instruction is named by its function, its block and its place in the block; the terminator
/// comes behind the last instruction.
#[derive(Clone, Copy, PartialEq, Eq)]
pub enum Spot {
    Global(u32),
    Extern(u32),
    Function(u32),
    Inst(u32, u32, u32),
}
