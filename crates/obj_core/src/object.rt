//! An object: functions, the slots that they call and jump by, and data. It has no code address.
//!
//! These are plain values that anybody may make; which of them are well formed is
//! `specs/WellFormed.antt`, and a `Checked` is one of those. Offsets count bytes from the start of a
//! function, and functions and slots are named by their numbers from 0. The bytes of an object's file
//! are `obj_file`'s.

use rd_num::list::List;

/// The most functions of a well-formed object.
pub const MOST_FUNCTIONS: usize = 4112;

/// The most pieces: functions and cuts together.
pub const MOST_PIECES: usize = 131_072;

/// The most slots.
pub const MOST_SLOTS: usize = 1_048_576;

/// The most bytes of code, of all functions together.
pub const MOST_CODE: usize = 67_108_864;

/// The most bytes of data, of both kinds together.
pub const MOST_DATA: usize = 67_108_864;

/// A program whose code is not laid out yet.
#[derive(Drop)]
pub struct Object {
    /// Draws the places of the slots.
    pub slot_seed: u64,
    /// Draws the names of saved registers and the order in which they are pushed.
    pub reg_seed: u64,
    pub functions: List<Func>,
    pub slots: List<Slot>,
    /// Data that may be read.
    pub ro: List<u8>,
    /// Data that may be read and written.
    pub rw: List<u8>,
}

/// A function's code, with the branches that go to slots and the offsets at which it is cut.
#[derive(Drop)]
pub struct Func {
    pub kind: FuncKind,
    pub bytes: List<u8>,
    pub links: List<Link>,
    /// A piece goes from 0 or a cut to the next cut or the end, and a layout places each on its own.
    pub cuts: List<u32>,
}

/// Whether a function saves the five registers that live across calls.
#[derive(Clone, Copy)]
pub enum FuncKind {
    Plain,
    Saved,
}

/// The four bytes at `at`, counted from the function's start, are a displacement to the start of a slot.
#[derive(Clone, Copy)]
pub struct Link {
    pub at: u32,
    pub slot: u32,
}

/// A trampoline of 16 bytes at a fixed address. Functions are named by their numbers.
#[derive(Clone, Copy)]
pub enum Slot {
    /// Where the program begins.
    Entry { target: u32 },
    /// A jump; its address serves as a pointer to the function.
    Jump { target: u32 },
    /// A call of a function, and the way back.
    Call { target: u32, back: CodeAt },
    /// A call of the function whose pointer is in r11, and the way back.
    Indirect { back: CodeAt },
    /// A system call, and the way back.
    System { back: CodeAt },
}

/// A byte of a function, counted from its start.
#[derive(Clone, Copy)]
pub struct CodeAt {
    pub function: u32,
    pub offset: u32,
}

/// Where the run of an object stands: at a byte of a function, or at one of a slot.
#[derive(Clone, Copy)]
pub enum Place {
    Code { function: u32, offset: u32 },
    Slot { slot: u32, at: u32 },
}
