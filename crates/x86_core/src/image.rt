//! The image of a program, and how a machine that runs it stands.

ghost use Rattle.std.specs.Prelude.{⊤, [], ◌∷◌, codes};

use bitflags::{Flag, Flags, bitflag_items};
use rd_num::list::List;

/// Where data stands that may be read.
pub const RO_START: u64 = 0x2000_0000;

/// Where data stands that may be read and written.
pub const RW_START: u64 = 0x3000_0000;

/// The lowest address of the stack.
pub const STACK_START: u64 = 0x9FFF_F000;

/// The address behind the stack.
pub const STACK_END: u64 = 0xC000_0000;

/// What may be done with the bytes of a segment: run, written, read.
#[derive(Clone, Copy, PartialEq, Eq)]
pub struct Rights(u8);

bitflag_items! {
    impl Rights: u8 {
        const X = 1;
        const W = 2;
        const R = 4;
    }
}

impl Flags for Rights {
    type Bits = u8;

    ghost exact = { ⊤ };

    ghost table = { (codes "X", 1) ∷ (codes "W", 2) ∷ (codes "R", 4) ∷ [] };

    ghost set_of = { λ p. p.0 };

    fn flags<'a>() -> &'a [Flag<Rights>] {
        Rights::FLAGS
    }

    fn bits(&self) -> u8 {
        self.0
    }

    fn from_bits_retain(bits: u8) -> Rights {
        Rights(bits)
    }
}

/// Bytes at an address, with the rights to them.
#[derive(Drop)]
pub struct Segment {
    pub start: u64,
    pub bytes: List<u8>,
    pub rights: Rights,
}

/// The segments of a program, and the address of its first instruction.
#[derive(Drop)]
pub struct Image {
    pub entry: u64,
    pub segments: List<Segment>,
}

/// How a machine stands: going on, or stopped, with the cause.
#[derive(Clone, Copy, PartialEq, Eq)]
pub enum MachOutcome {
    Going,
    Ended(u8),
    Divide,
    Invalid,
    Breakpoint,
    PageFault,
    NoForm,
    NoFlag,
    BadCall,
}
