//! One instruction at its offset in a function's bytes, and the displacement that it has as a branch.
//!
//! Offsets count from the function's start; `end` is the offset behind the instruction. What stands at
//! an offset is the decoder's answer, of `x86_decode`.

ghost use Rattle.std.specs.Prelude.{◌≡◌, ◌≤◌, length};
ghost use Rattle.obj_core.specs.WellFormed.{displacement, most_code};
ghost use Rattle.x86_core.specs.Arithmetic.{moved};
ghost use Rattle.obj_lay.specs.Putting.{IsNext};

use x86_core::instr::{Decoded, Instr};
use x86_decode::decode_one;

/// An instruction, where it starts and where it ends.
#[derive(Clone, Copy)]
pub struct InstrAt {
    pub at: u32,
    pub end: u32,
    pub instr: Instr,
}

/// The instruction that starts at an offset, or `None` where none does. Takes no memory.
pub fn instr_at(bytes: &[u8], at: usize) -> Option<InstrAt>
    requires within { at ≤ length bytes.now }
    requires few { length bytes.now ≤ most_code }
    ensures { IsNext bytes.now at result }
{
    match decode_one(&bytes[at..]) {
        Decoded::One { instr, len } => Some(InstrAt {
            at: at as u32,
            end: at as u32 + u32::from(len),
            instr,
        }),
        _ => None,
    }
}

/// The displacement of a branch. Takes no memory.
pub fn displacement(instr: &Instr) -> Option<i32>
    ensures { result ≡ displacement instr.now }
{
    match *instr {
        Instr::Jcc(_, by) => Some(by),
        Instr::Jmp(by) => Some(by),
        _ => None,
    }
}

/// An offset moved by a displacement, modulo 2^64. Takes no memory.
pub fn moved_by(offset: u32, by: i32) -> u64
    ensures { result ≡ moved offset by }
{
    u64::from(offset).wrapping_add_signed(i64::from(by))
}
