//! One segment of an image in memory, and the two tests that every access makes.

ghost use Rattle.std.specs.Prelude.{◌≡◌, ◌-◌, ◌+◌, ◌&&◌, nat_le, IfOk, IsTrue, MatchOption, None, Some, take, drop, length};
ghost use Rattle.x86_core.specs.Memory.{covers, reads, writes, executes, with_bytes};
ghost use Rattle.xom_memory.specs.Access.{outline_of, where_readable, lent};

use crate::lent::{Lent, ReadableSegment};
use bitflags::Flags;
use rd_num::width::NoMemory;
use std::alloc::Global;
use std::marker::Model;
use x86_core::image::{Rights, Segment};

/// Whether `len` bytes from the address `at` on are among the `size` bytes from `start` on.
#[inline]
pub(crate) fn is_within(start: u64, size: usize, at: u64, len: usize) -> bool
    ensures { result ≡ (nat_le start at && nat_le (at + len) (start + size)) }
{
    if at < start {
        return false;
    }
    let before = at - start;
    before <= size as u64 && len as u64 <= size as u64 - before
}

/// Whether bytes with these rights may be read.
#[tactic(auto, using(crate::proofs::Rights::read_tested))]
pub fn may_read(rights: Rights) -> bool
    ensures { result ≡ reads rights }
{
    rights.contains(Rights::R)
}

/// Whether bytes with these rights may be written.
#[tactic(auto, using(crate::proofs::Rights::write_tested))]
pub fn may_write(rights: Rights) -> bool
    ensures { result ≡ writes rights }
{
    rights.contains(Rights::W)
}

/// Whether bytes with these rights may be executed.
pub fn may_execute(rights: Rights) -> bool
    ensures { result ≡ executes rights }
{
    rights.contains(Rights::X)
}

/// A segment of an image whose bytes can change; contracts see it as the segment.
#[derive(Drop)]
pub struct Part {
    start: u64,
    bytes: Vec<u8>,
    rights: Rights,
}

impl Model for Part {
    ghost use Rattle.x86_core.specs.declared.image.Segment.{Segment as Shown};

    ghost Value = { Shown };

    ghost view = { λ p. record { start = p.start; bytes = p.bytes.items; rights = p.rights } };
}

impl Part {
    /// A copy of a segment.
    pub fn copy_of(alloc: Global, segment: &Segment) -> Result<Part, NoMemory>
        ensures { IfOk result (λ p. p ≡ segment.now) }
    {
        match Vec::from_slice(alloc, segment.bytes.as_slice()) {
            Ok(bytes) => Ok(Part {
                start: segment.start,
                bytes,
                rights: segment.rights,
            }),
            Err(_) => Err(NoMemory),
        }
    }

    /// The first address, the length and the rights.
    pub fn outline(&self) -> (u64, u64, Rights)
        ensures { result ≡ outline_of self.now }
    {
        (self.start, self.bytes.len() as u64, self.rights)
    }

    /// The whole segment, where it may be read.
    pub fn readable(&self) -> Option<ReadableSegment<'_>>
        ensures { MatchOption result (where_readable self.now ≡ None)
            (λ s. where_readable self.now ≡ Some (lent s)) }
    {
        if !may_read(self.rights) {
            return None;
        }
        Some(ReadableSegment {
            start: self.start,
            bytes: Lent::Whole(self.bytes.as_slice()),
            rights: self.rights,
        })
    }

    /// What may be done with the bytes.
    #[inline]
    pub fn rights(&self) -> Rights
        ensures { result ≡ self.now.rights }
    {
        self.rights
    }

    /// Whether the whole range of `len` bytes from the address `at` on is in the segment.
    #[inline]
    pub fn covers(&self, at: u64, len: usize) -> bool
        ensures { result ≡ covers self.now at len }
    {
        is_within(self.start, self.bytes.len(), at, len)
    }

    /// The bytes of a range that is in the segment.
    #[inline]
    pub fn range(&self, at: u64, len: usize) -> &[u8]
        requires { IsTrue (covers self.now at len) }
        ensures { result.now ≡ take len (drop (at - self.now.start) self.now.bytes) }
    {
        let from = (at - self.start) as usize;
        &self.bytes[from..from + len]
    }

    /// The bytes from an address in the segment on, up to sixteen of them.
    pub fn code(&self, at: u64) -> &[u8]
        requires { IsTrue (covers self.now at 1) }
        ensures { result.now ≡ take 16 (drop (at - self.now.start) self.now.bytes) }
    {
        let from = (at - self.start) as usize;
        let left = self.bytes.len() - from;
        let count = left.min(16);
        &self.bytes[from..from + count]
    }

    /// Puts bytes in the place of others, in a range that is in the segment.
    #[inline]
    pub fn put(&mut self, at: u64, bytes: &[u8])
        requires { IsTrue (covers self.old at (length bytes.now)) }
        ensures { self.new ≡ with_bytes self.old at bytes.now }
    {
        let from = (at - self.start) as usize;
        self.bytes[from..from + bytes.len()].copy_from_slice(bytes);
    }
}
