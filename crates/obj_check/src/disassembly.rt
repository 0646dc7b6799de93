//! Functions disassembled, with what the rules ask of their instructions.
//!
//! Bytes come in, one function after the other; what goes out are notes of each, or the first function
//! that is no row of instructions with the offset where none begins. No instruction is kept. An empty
//! function has none, and is stuck at 0. Time is linear in the bytes.

ghost use Rattle.std.specs.Prelude.{◌≡◌, ◌≤◌, IfOk, length};
ghost use Rattle.obj_core.specs.WellFormed.{AreFew, most_code};
ghost use Rattle.obj_check.specs.Disassembled.{Answers, AnswersAll};

use crate::instr_at::instr_at;
use crate::notes::{Notes, no_notes, note};
use obj_core::object::Object;
use rd_num::list::List;
use rd_num::width::NoMemory;
use std::alloc::Global;

/// What is noted of a function's instructions, or the first offset at which none begins.
#[derive(Drop)]
pub enum Noted {
    Whole { notes: Notes },
    Stuck { offset: u32 },
}

/// Each function's notes, or the first function that has none, with the first offset at which no
/// instruction begins.
#[derive(Drop)]
pub enum AllNoted {
    All { noted: List<Notes> },
    Stuck { function: u32, offset: u32 },
}

/// The instructions that bytes are.
fn note_function(alloc: Global, bytes: &[u8]) -> Result<Noted, NoMemory>
    requires { length bytes.now ≤ most_code }
    ensures { IfOk result (λ r. Answers bytes.now r) }
{
    if bytes.is_empty() {
        return Ok(Noted::Stuck { offset: 0 });
    }
    let mut notes = no_notes(alloc, bytes.len())?;
    let mut at = 0;
    while at < bytes.len() {
        match instr_at(bytes, at) {
            Some(here) => {
                note(&mut notes, &here);
                at = here.end as usize;
            }
            None => return Ok(Noted::Stuck { offset: at as u32 }),
        }
    }
    Ok(Noted::Whole { notes })
}

/// The notes of each function, or the first function that has none.
pub fn note_all(alloc: Global, o: &Object) -> Result<AllNoted, NoMemory>
    requires { AreFew o.now }
    ensures { IfOk result (λ r. AnswersAll o.now.functions r) }
{
    let functions = o.functions.as_slice();
    let mut noted = List::new(alloc);
    for (n, function) in functions.iter().enumerate() {
        let bytes = function.bytes.as_slice();
        match note_function(alloc, bytes)? {
            Noted::Whole { notes } => noted.add(notes)?,
            Noted::Stuck { offset } => {
                return Ok(AllNoted::Stuck {
                    function: n as u32,
                    offset,
                });
            }
        }
    }
    Ok(AllNoted::All { noted })
}
