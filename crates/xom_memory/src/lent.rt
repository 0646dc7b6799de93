//! A segment that is lent whole, which is read page by page.

ghost use Rattle.std.specs.Prelude.{◌≡◌, ◌*◌, ◌<◌, ◌≤◌, length, take, MatchOption};
ghost use Rattle.xom_memory.specs.Access.{lent, page_in};
ghost use Rattle.xom_memory.specs.Pages.{zeros};

use crate::page::{PAGE_BYTES, Page};
use crate::pages;
use crate::stack::{STACK_BYTES, STACK_PAGES};
use x86_core::image::Rights;

/// Bytes that are lent: in one piece, or in pages, the last one first.
#[derive(Clone, Copy)]
pub enum Lent<'a> {
    Whole(&'a [u8]),
    Paged(&'a [Option<Page>]),
}

/// A segment that may be read, lent for as long as its memory stays unchanged.
#[derive(Clone, Copy)]
pub struct ReadableSegment<'a> {
    pub start: u64,
    pub bytes: Lent<'a>,
    pub rights: Rights,
}

// A page of bytes that are in one piece.
fn page_of(bytes: &[u8], i: usize) -> &[u8]
    requires { 4096 * i < length bytes.now }
    ensures { result.now ≡ page_in bytes.now i }
{
    let from = PAGE_BYTES * i;
    let left = bytes.len() - from;
    let count = left.min(PAGE_BYTES);
    &bytes[from..from + count]
}

impl<'a> ReadableSegment<'a> {
    /// How many bytes the segment has.
    #[tactic(auto, using(crate::proofs::Laid::length_laid))]
    pub fn len(&self) -> u64
        ensures { result ≡ length (lent self.now).bytes }
    {
        match self.bytes {
            Lent::Whole(bytes) => bytes.len() as u64,
            Lent::Paged(_) => STACK_BYTES as u64,
        }
    }

    /// The index of a page before which all bytes are zero.
    #[tactic(auto, using(crate::proofs::Laid::length_laid, crate::proofs::Laid::no_zeros))]
    pub fn first_page(&self) -> usize
        ensures blank { take (4096 * result) (lent self.now).bytes ≡ zeros (4096 * result) }
        ensures within { 4096 * result ≤ length (lent self.now).bytes }
    {
        match self.bytes {
            Lent::Whole(_) => 0,
            Lent::Paged(pages) => pages::unmade(pages, STACK_PAGES),
        }
    }

    /// The page with an index: 4,096 bytes, or as many as are left. `None` stands for zeros alone.
    #[tactic(auto, using(crate::proofs::Laid::length_laid))]
    pub fn page(&self, i: usize) -> Option<&'a [u8]>
        requires { 4096 * i < length (lent self.now).bytes }
        ensures { let page = page_in (lent self.now).bytes i in
            MatchOption result (page ≡ zeros 4096) (λ b. b.now ≡ page) }
    {
        match self.bytes {
            Lent::Whole(bytes) => Some(page_of(bytes, i)),
            Lent::Paged(pages) => pages::page(pages, STACK_PAGES, i),
        }
    }
}
