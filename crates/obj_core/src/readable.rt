//! Readable segments, which are made of plain bytes and addresses of slots alone.
//!
//! A program can read whatever stands here, and so can who looks on. So there is no call that takes a
//! `Hidden`, the address of code: to hand one over doesn't compile. Segments that may be run alone are
//! made by `code`. A start is an address, and rights are 4 to read and 6 to read and write.

ghost use Rattle.std.specs.Prelude.{◌≡◌, ◌+◌, ◌*◌, ◌++◌, [], OnOk, OnErr, if◌then◌else◌};
ghost use Rattle.rd_num.specs.Number.{le_bytes};
ghost use Rattle.x86_core.specs.Data.{segment};
ghost use Rattle.obj_core.specs.Slots.{slot_base};

use crate::address::SlotAddr;
use bitflags::Flags;
use rd_num::bytes::put_u64_le;
use rd_num::list::List;
use rd_num::width::NoMemory;
use std::alloc::Global;
use x86_core::image::{Rights, Segment};

/// A readable segment that is being made: where it begins, and its bytes so far.
#[derive(Drop)]
pub struct ReadBuilder {
    start: u64,
    bytes: List<u8>,
}

impl ReadBuilder {
    /// A segment without bytes. Takes no memory.
    pub fn new(alloc: Global, start: u64) -> ReadBuilder
        ensures { result ≡ record { start = start; bytes = [] } }
    {
        ReadBuilder {
            start,
            bytes: List::new(alloc),
        }
    }

    /// Puts bytes at the end. Where memory is wanting nothing changes.
    pub fn bytes(&mut self, bytes: &[u8]) -> Result<(), NoMemory>
        ensures put { OnOk result (self.new ≡
            record self.old { bytes = self.old.bytes ++ bytes.now }) }
        ensures unchanged { OnErr result (self.new ≡ self.old) }
    {
        self.bytes.append(bytes)
    }

    /// Puts the eight bytes of a slot's address at the end. Where memory is wanting nothing changes.
    pub fn slot(&mut self, to: &SlotAddr) -> Result<(), NoMemory>
        ensures put { OnOk result (self.new ≡
            record self.old {
              bytes = self.old.bytes ++
                  le_bytes 8 (slot_base + 16 * to.now.position);
            }) }
        ensures unchanged { OnErr result (self.new ≡ self.old) }
    {
        self.bytes.append(&put_u64_le(to.number()))
    }

    /// The segment, which may be read, and written where that is asked for. Takes no memory.
    pub fn finish(self, writable: bool) -> Segment
        ensures { result ≡ segment self.start self.bytes (if writable then 6 else 4) }
    {
        let rights = if writable { 6 } else { 4 };
        Segment {
            start: self.start,
            bytes: self.bytes,
            rights: Rights::from_bits_retain(rights),
        }
    }
}
