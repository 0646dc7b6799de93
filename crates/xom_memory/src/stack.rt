//! The stack: 512 MiB and 4,096 bytes that are zero at first and may be read and written.
//!
//! It is kept in pages, so that it takes memory for the pages that were written to and no others.

ghost use Rattle.std.specs.Prelude.{◌≡◌, ◌-◌, ◌+◌, ◌*◌, ◌^◌, ◌<◌, ◌≤◌, ◌++◌, IfOk, IsTrue, MatchResult, take, drop, length, replicate};
ghost use Rattle.rd_num.specs.Number.{le_number};
ghost use Rattle.x86_core.specs.Memory.{covers};
ghost use Rattle.x86_core.specs.Data.{stack_bytes, stack_start, segment};
ghost use Rattle.xom_memory.specs.Access.{outline_of, lent};
ghost use Rattle.xom_memory.specs.Pages.{put_at};
ghost use Rattle.xom_memory.specs.Taking.{TakesInto};

use crate::lent::{Lent, ReadableSegment};
use crate::memory::TakeFault;
use crate::page::{PAGE_BYTES, Page};
use crate::pages;
use crate::segment::is_within;
use bitflags::Flags;
use rd_io::Source;
use rd_num::width::NoMemory;
use std::alloc::Global;
use std::marker::Model;
use x86_core::image::{Rights, STACK_END, STACK_START};

/// How many bytes the stack has.
pub const STACK_BYTES: usize = (STACK_END - STACK_START) as usize;

/// How many pages that are.
pub(crate) const STACK_PAGES: usize = STACK_BYTES / PAGE_BYTES;

/// The bytes of the stack; contracts see the list of them.
#[derive(Drop)]
pub struct Stack {
    alloc: Global,
    pages: Vec<Option<Page>>,
}

impl Model for Stack {
    ghost use Rattle.std.specs.Prelude.{ℕ, List};
    ghost use Rattle.xom_memory.specs.Pages.{laid, stack_pages};

    ghost Value = { List ℕ };

    ghost view = { λ s. laid stack_pages s.pages.items };
}

impl Stack {
    /// A stack of zeros. Takes no memory.
    #[tactic(auto, using(crate::proofs::Laid::new_stack))]
    pub fn new(alloc: Global) -> Stack
        ensures { result ≡ stack_bytes }
    {
        let pages = Vec::new(alloc);
        Stack { alloc, pages }
    }

    // How many bytes the stack has.
    #[tactic(auto, using(crate::proofs::Laid::length_laid))]
    fn size(&self) -> usize
        ensures value { result ≡ length self.now }
        ensures known { result ≡ STACK_BYTES }
    {
        let _ = &self.pages;
        STACK_BYTES
    }

    /// The first address, the length and the rights.
    pub fn outline(&self) -> (u64, u64, Rights)
        ensures { result ≡ outline_of (segment stack_start self.now 6) }
    {
        (STACK_START, self.size() as u64, Rights::R.union(Rights::W))
    }

    /// The whole stack, which may be read.
    pub fn lent(&self) -> ReadableSegment<'_>
        ensures { lent result ≡ segment stack_start self.now 6 }
    {
        ReadableSegment {
            start: STACK_START,
            bytes: Lent::Paged(self.pages.as_slice()),
            rights: Rights::R.union(Rights::W),
        }
    }

    /// Whether the whole range of `len` bytes from the address `at` on is in the stack.
    #[inline]
    pub fn covers(&self, at: u64, len: usize) -> bool
        ensures { result ≡ covers (segment stack_start self.now 6) at len }
    {
        is_within(STACK_START, self.size(), at, len)
    }

    /// Reads the bytes of a range that is in the stack. Takes no memory.
    #[tactic(auto, using(crate::proofs::Laid::length_laid))]
    pub fn read(&self, at: u64, out: &mut [u8])
        requires { IsTrue (covers (segment stack_start self.now 6) at (length out.old)) }
        ensures { out.new ≡ take (length out.old) (drop (at - stack_start) self.now) }
    {
        let from = (at - STACK_START) as usize;
        pages::read(self.pages.as_slice(), STACK_PAGES, from, out);
    }

    /// The word that so many bytes spell, in a range that is in the stack. Takes no memory.
    #[inline(always)]
    #[tactic(auto, using(crate::proofs::Laid::length_laid))]
    pub fn word<const N: usize>(&self, at: u64) -> u64
        requires within { IsTrue (covers (segment stack_start self.now 6) at N) }
        requires some { 0 < N }
        requires few { N ≤ 8 }
        ensures { result ≡ le_number (take N (drop (at - stack_start) self.now)) }
    {
        let from = (at - STACK_START) as usize;
        pages::word::<N>(self.pages.as_slice(), STACK_PAGES, from)
    }

    /// Makes the pages of a range that is in the stack; its bytes stay as they are.
    #[tactic(auto, using(crate::proofs::Laid::length_laid))]
    pub fn prepare(&mut self, at: u64, len: usize) -> Result<(), NoMemory>
        requires within { IsTrue (covers (segment stack_start self.old 6) at len) }
        requires some { 0 < len }
        ensures { self.new ≡ self.old }
    {
        let from = (at - STACK_START) as usize;
        pages::prepare(self.alloc, &mut self.pages, STACK_PAGES, from, len)
    }

    /// Puts bytes in the place of others, in a range that is in the stack. Its pages are made first.
    #[inline(always)]
    #[tactic(auto, using(crate::proofs::Laid::length_laid))]
    pub fn write(&mut self, at: u64, bytes: &[u8]) -> Result<(), NoMemory>
        requires within { IsTrue (covers (segment stack_start self.old 6) at (length bytes.now)) }
        requires some { 0 < length bytes.now }
        ensures { MatchResult result
            (λ _. self.new ≡ put_at self.old (at - stack_start) bytes.now)
            (λ _. self.new ≡ self.old) }
    {
        let from = (at - STACK_START) as usize;
        if pages::put_once(self.pages.as_mut_slice(), STACK_PAGES, from, bytes) {
            return Ok(());
        }
        pages::prepare(self.alloc, &mut self.pages, STACK_PAGES, from, bytes.len())?;
        pages::put(self.pages.as_mut_slice(), STACK_PAGES, from, bytes);
        Ok(())
    }

    /// Takes a byte to an address in the stack. Its page is made before the source is asked.
    #[tactic(auto, using(crate::proofs::Laid::length_laid))]
    pub fn take<I: Source>(&mut self, at: u64, input: &mut I) -> Result<Option<u8>, TakeFault>
        requires { IsTrue (covers (segment stack_start self.old 6) at 1) }
        ensures { TakesInto result (at - stack_start) self.old self.new
            (I.told input.old) (I.told input.new) }
    {
        let from = (at - STACK_START) as usize;
        match pages::prepare(self.alloc, &mut self.pages, STACK_PAGES, from, 1) {
            Ok(()) => {}
            Err(_) => return Err(TakeFault::NoMemory),
        }
        match input.take() {
            Ok(Some(byte)) => {
                pages::put(self.pages.as_mut_slice(), STACK_PAGES, from, &[byte]);
                Ok(Some(byte))
            }
            Ok(None) => Ok(None),
            Err(_) => Err(TakeFault::Failed),
        }
    }
}
