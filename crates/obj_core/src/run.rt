//! A run of bytes: where it stands among all functions' bytes, and where in an image.
//!
//! Places count through the bytes of all functions, put end to end in the object's order; starts are
//! addresses. A row of runs is looked up by place in `runs`.

ghost use Rattle.std.specs.Prelude.{◌≡◌, ◌+◌, ◌-◌, ◌<◌, ◌^◌};

use rd_num::copied::Copied;
use rd_num::width::NoMemory;
use std::alloc::Global;

/// Bytes that stand together, from place `front` up to place `end`, at the address `start` and on.
#[derive(Clone, Copy)]
pub struct Run {
    pub front: u32,
    pub end: u32,
    pub start: u32,
}

impl Copied for Run {
    fn copied(&self, alloc: Global) -> Result<Run, NoMemory> {
        Ok(*self)
    }
}

/// The address of a place by the run that holds it. Takes no memory.
pub fn address_by(run: &Run, at: u64) -> u64
    requires { at < run.now.end }
    ensures value { result ≡ run.now.start + (at - run.now.front) }
    ensures low { result < 2 ^ 33 }
{
    u64::from(run.start) + at.saturating_sub(u64::from(run.front))
}
