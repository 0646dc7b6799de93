//! One instruction at its offset in a function's bytes.
//!
//! Offsets count from the function's start; `end` is the offset behind the instruction. What stands at
//! an offset is the decoder's answer, of `x86_decode`; whether it may stand there is not asked here.

ghost use Rattle.std.specs.Prelude.{◌≤◌, length};
ghost use Rattle.obj_check.specs.Instrs.{IsInstrAt};
ghost use Rattle.obj_core.specs.WellFormed.{most_code};

use x86_core::instr::{Decoded, Instr};
use x86_decode::decode_one;

/// An instruction, where it starts and where it ends, counted from the function's start.
#[derive(Clone, Copy)]
pub struct InstrAt {
    pub at: u32,
    pub end: u32,
    pub instr: Instr,
}

/// The instruction that starts at an offset, or `None` where none does.
pub fn instr_at(bytes: &[u8], at: usize) -> Option<InstrAt>
    requires within { at ≤ length bytes.now }
    requires few { length bytes.now ≤ most_code }
    ensures { IsInstrAt bytes.now at result }
{
    match decode_one(&bytes[at..]) {
        Decoded::One { instr, len } => Some(InstrAt {
            at: at as u32,
            end: at as u32 + len as u32,
            instr,
        }),
        _ => None,
    }
}
