//! A page: 4,096 bytes that are zero at first.

ghost use Rattle.std.specs.Prelude.{◌≡◌, ◌+◌, ◌≤◌, IfOk, length};
ghost use Rattle.xom_memory.specs.Pages.{zeros, put_at};

use rd_num::width::NoMemory;
use std::alloc::Global;
use std::marker::Model;

/// How many bytes a page has.
pub const PAGE_BYTES: usize = 4096;

/// The bytes of a page; contracts see the list of them.
#[derive(Drop)]
pub struct Page {
    bytes: Vec<u8>,
}

impl Model for Page {
    ghost use Rattle.std.specs.Prelude.{◌≡◌, ℕ, List, length};

    ghost Value = { List ℕ };

    ghost view = { λ p. p.bytes.items };

    ghost invariant = { λ p. length p.bytes.items ≡ 4096 };
}

// As many zeros.
#[tactic(auto, unfolding(crate::specs::Pages::zeros))]
fn zero_bytes(alloc: Global, count: usize) -> Result<Vec<u8>, NoMemory>
    ensures zeros { IfOk result (λ v. v.items ≡ zeros count) }
    ensures count { IfOk result (λ v. length v.items ≡ count) }
{
    match Vec::from_elem(alloc, 0, count) {
        Ok(bytes) => Ok(bytes),
        Err(_) => Err(NoMemory),
    }
}

impl Page {
    /// A page of zeros.
    pub fn new(alloc: Global) -> Result<Page, NoMemory>
        ensures { IfOk result (λ p. p ≡ zeros 4096) }
    {
        let bytes = zero_bytes(alloc, PAGE_BYTES)?;
        Ok(Page { bytes })
    }

    /// All bytes.
    #[inline]
    pub fn bytes(&self) -> &[u8]
        ensures value { result.now ≡ self.now }
        ensures count { length self.now ≡ 4096 }
    {
        self.bytes.as_slice()
    }

    /// Puts bytes in the place of others.
    #[inline]
    pub fn put(&mut self, offset: usize, bytes: &[u8])
        requires { offset + length bytes.now ≤ 4096 }
        ensures value { self.new ≡ put_at self.old offset bytes.now }
        ensures count { length self.old ≡ 4096 }
    {
        self.bytes[offset..offset + bytes.len()].copy_from_slice(bytes);
    }
}
