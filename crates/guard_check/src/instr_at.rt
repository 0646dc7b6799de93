//! One instruction at its offset in a function's bytes.

ghost use Rattle.std.specs.Prelude.{◌≡◌, ◌≤◌, drop, length};
ghost use Rattle.x86_core.specs.Decoding.{decode};
ghost use Rattle.obj_core.specs.WellFormed.{most_code};
ghost use Rattle.guard_check.specs.Checking.{placed};

use x86_core::instr::{Decoded, Instr};
use x86_decode::decode_one;

/// An instruction, where it starts and where it ends, counted in bytes from the function's start.
#[derive(Clone, Copy)]
pub struct InstrAt {
    pub at: usize,
    pub end: usize,
    pub instr: Instr,
}

/// The instruction that starts at an offset, or `None` where none does.
pub fn instr_at(bytes: &[u8], at: usize) -> Option<InstrAt>
    requires within { at ≤ length bytes.now }
    requires few { length bytes.now ≤ most_code }
    ensures { result ≡ placed at (decode (drop at bytes.now)) }
{
    match decode_one(&bytes[at..]) {
        Decoded::One { instr, len } => Some(InstrAt {
            at,
            end: at + len as usize,
            instr,
        }),
        _ => None,
    }
}
