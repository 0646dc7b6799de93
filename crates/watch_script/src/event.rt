//! What an observer does to a run: a read of memory, or a write.

ghost use Rattle.std.specs.Prelude.{◌≡◌};
ghost use Rattle.watch_script.specs.Events.{after_of, at_of};

use rd_num::copied::{Copied, copy_list};
use rd_num::list::List;
use rd_num::width::NoMemory;
use std::alloc::Global;

/// A read or a write, after a number of instructions.
#[derive(Drop)]
pub enum Event {
    /// A read of `len` bytes from the address `at` on.
    Read {
        after: u64,
        at: u64,
        len: u32,
    },
    /// A write of these bytes from the address `at` on.
    Write {
        after: u64,
        at: u64,
        bytes: List<u8>,
    },
}

impl Event {
    /// After how many instructions it comes. Takes no memory.
    pub fn after(&self) -> u64
        ensures { result ≡ after_of self.now }
    {
        match self {
            Event::Read { after, .. } => *after,
            Event::Write { after, .. } => *after,
        }
    }

    /// The first address that is read or written. Takes no memory.
    pub fn at(&self) -> u64
        ensures { result ≡ at_of self.now }
    {
        match self {
            Event::Read { at, .. } => *at,
            Event::Write { at, .. } => *at,
        }
    }
}

impl Copied for Event {
    fn copied(&self, alloc: Global) -> Result<Event, NoMemory> {
        match self {
            Event::Read { after, at, len } => Ok(Event::Read {
                after: *after,
                at: *at,
                len: *len,
            }),
            Event::Write { after, at, bytes } => {
                let bytes = copy_list(alloc, bytes.as_slice())?;
                Ok(Event::Write {
                    after: *after,
                    at: *at,
                    bytes,
                })
            }
        }
    }
}
