//! The bytes of an instruction.
//!
//! `encode_one` gives them in an array that holds each instruction, `put` behind the bytes of a
//! list. Which bytes they are says `encoding` of `x86_core`; `row` has a function for each shape of
//! rows, `spelling` the few bytes that are being put together.
#![tactic(auto)]

ghost use Rattle.std.specs.Prelude.{◌≡◌, ◌++◌, ◌-◌, ◌≤◌, length, replicate, OnOk};
ghost use Rattle.x86_core.specs.Encoding.{encoding};

mod row;
mod spelling;

use rd_num::list::List;
use rd_num::width::NoMemory;
use x86_core::instr::Instr;

/// The bytes of an instruction with zeros after them, and their number, 1 to 10. Takes no memory.
#[tactic(auto, using(x86_core::proofs::Laws::some_bytes, x86_core::proofs::Laws::few_bytes))]
pub fn encode_one(instr: &Instr) -> ([u8; 16], u8)
    ensures bytes { result.0 ≡
        encoding instr.now ++ replicate (16 - length (encoding instr.now)) 0 }
    ensures len { result.1 ≡ length (encoding instr.now) }
    ensures some { 1 ≤ result.1 }
    ensures few { result.1 ≤ 10 }
{
    row::spelled(*instr).finish()
}

/// Puts the bytes of an instruction behind those of a list.
///
/// After want of memory the list has some prefix of them more.
pub fn put(all: &mut List<u8>, instr: &Instr) -> Result<(), NoMemory>
    ensures { OnOk result (all.new ≡ all.old ++ encoding instr.now) }
{
    let (bytes, len) = encode_one(instr);
    all.append(&bytes[..len as usize])
}

#[cfg(test)]
mod tests;
