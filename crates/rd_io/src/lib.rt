//! The outside: files by name, a source of bytes, and sinks, with counts of their faults.
//!
//! What an object tells of the outside is one record, `told`, which stands in `specs/Told.antt`: bytes,
//! which may be `None`, and that claims nothing, and how many of its calls have failed. A count
//! changes only by a call that answers that it failed, so a caller's own answer on a fault has its
//! cause in the count. `memory` has objects that fail at numbered calls, `sure` objects that never
//! fail, and `real` those over std, which tell no content.
#![tactic(auto)]

ghost use Rattle.rd_io.specs.Causes.{Caused, PutCaused, FileCaused};
ghost use Rattle.rd_io.specs.Outside.{Takes, Ends, Appends, Totals, IsCountOf, Reads};
ghost use Rattle.rd_io.specs.Told.{FilesTold, SourceTold, SinkTold};

use rd_num::list::List;
use std::alloc::Global;

pub mod memory;
pub mod real;
pub mod sure;

/// Why a file was not read.
#[derive(Clone, Copy, PartialEq, Debug)]
pub enum FileFail {
    /// The file could not be read.
    Failed,
    /// More bytes are held than the limit.
    TooLong,
    NoMemory,
}

/// Why bytes were not put whole.
#[derive(Clone, Copy, PartialEq, Debug)]
pub enum PutFail {
    /// The sink took a part of the bytes at most.
    Failed,
    NoMemory,
}

/// A fault of a source.
#[derive(Clone, Copy, PartialEq, Debug)]
pub struct Failed;

/// Why a run that takes and puts bytes did not reach its end.
#[derive(Clone, Copy, PartialEq, Debug)]
pub enum RunFault {
    /// The source failed.
    Input,
    /// The sink failed.
    Output,
    NoMemory,
}

/// Files by name.
pub trait Files {
    ghost told: { Self → FilesTold };

    /// The whole content under a name, where it has at most `limit` bytes.
    fn read(&mut self, alloc: Global, name: &str, limit: u64) -> Result<List<u8>, FileFail>
        ensures bytes { Reads ((told self.old).held name.now) limit result }
        ensures cause { FileCaused (told self.old) (told self.new) name.now result };
}

/// Bytes that are taken one by one.
pub trait Source {
    ghost told: { Self → SourceTold };

    /// The next byte, or `None` at the end. A failed call takes nothing. Takes no memory.
    fn take(&mut self) -> Result<Option<u8>, Failed>
        ensures bytes { Takes (told self.old).left (told self.new).left result }
        ensures end { Ends (told self.old).ended (told self.new).ended result }
        ensures cause { Caused (told self.old).faults (told self.new).faults result };
}

/// Where bytes are put.
pub trait Sink {
    ghost told: { Self → SinkTold };

    /// Appends bytes. After an error a prefix of them was appended.
    fn put(&mut self, bytes: &[u8]) -> Result<(), PutFail>
        ensures bytes { Appends (told self.old).written (told self.new).written bytes.now result }
        ensures number { Totals (told self.old).total (told self.new).total bytes.now result }
        ensures cause { PutCaused (told self.old).faults (told self.new).faults result };

    /// Where both are told, the number is that of the bytes.
    ghost counted: { (s : Self) → IsCountOf (told s).total (told s).written };
}

#[cfg(test)]
mod tests;
