//! Putting a result at once: all its bytes are there before the first is put.

ghost use Rattle.rd_top.specs.Puts.{PutsWhole};
ghost use Rattle.rd_top.specs.World.{KeepsOut};

use crate::answer::Answer;
use rd_io::{PutFail, Sink};
use rd_num::list::List;

/// Puts all bytes in one call.
pub fn put_whole<O: Sink>(bytes: &List<u8>, out: &mut O) -> Answer
    ensures put { PutsWhole bytes.now (O.told out.old) (O.told out.new) result }
    ensures kept { KeepsOut (O.told out.old) (O.told out.new) result }
{
    match out.put(bytes.as_slice()) {
        Ok(()) => Answer::Done,
        Err(PutFail::Failed) => Answer::Out,
        Err(PutFail::NoMemory) => Answer::Memory,
    }
}
