//! A table of instructions that were decoded, each at an address where no write can change it.
//!
//! Several addresses share an entry, and the last one keeps it: an address that is not in the table
//! is decoded anew. The table is made with its first entry, where there is memory for it.

ghost use Rattle.std.specs.Prelude.{◌≡◌, List, IfOk, IfSome, Some, None, replicate, All};
ghost use Rattle.x86_core.specs.declared.image.Segment.{Segment};

use rd_num::width::NoMemory;
use std::alloc::Global;
use std::marker::Model;
use x86_core::instr::Instr;

/// The instruction at an address, with its length in bytes.
#[derive(Clone, Copy)]
pub struct Known {
    pub at: u64,
    pub instr: Instr,
    pub len: u8,
}

/// The table; contracts see the list of its entries.
#[derive(Drop)]
pub struct Codes {
    alloc: Global,
    size: usize,
    mask: u64,
    entries: Vec<Option<Known>>,
}

impl Model for Codes {
    ghost use Rattle.std.specs.Prelude.{List, Option};
    ghost use Rattle.xom_memory.specs.declared.codes.Known.{Known as Entry};

    ghost Value = { List (Option Entry) };

    ghost view = { λ c. c.entries.items };
}

// As many entries without an instruction.
fn blanks(alloc: Global, count: usize) -> Result<Vec<Option<Known>>, NoMemory>
    ensures { IfOk result (λ v. All (λ e. e ≡ None) v.items) }
{
    let mut entries = match Vec::with_capacity(alloc, count) {
        Ok(entries) => entries,
        Err(_) => return Err(NoMemory),
    };
    for _ in 0..count {
        match entries.push(None) {
            Ok(()) => {}
            Err(_) => return Err(NoMemory),
        }
    }
    Ok(entries)
}

impl Codes {
    ghost use Rattle.std.specs.Prelude.{[]};
    ghost use Rattle.xom_memory.specs.Codes.{IsTold, AreTold};

    /// A table for so many bytes of code, without an entry. Takes no memory.
    pub fn new(alloc: Global, count: u64) -> Codes
        ensures { result ≡ [] }
    {
        let size = if count <= 2048 {
            4096
        } else if count <= 8192 {
            16384
        } else {
            131072
        };
        let mask = size as u64 - 1;
        let entries = Vec::new(alloc);
        Codes {
            alloc,
            size,
            mask,
            entries,
        }
    }

    // Where the entry of an address stands.
    #[inline]
    fn place(&self, at: u64) -> usize {
        (at.wrapping_add(at >> 20) & self.mask) as usize
    }

    /// The instruction at an address, where the table has it. Takes no memory.
    #[inline]
    pub fn find(&self, at: u64) -> Option<Known>
        ensures { (segments : List Segment) → AreTold segments self.now →
            IfSome result (λ k. (k.at ≡ at) × IsTold segments (Some k)) }
    {
        match self.entries.get(self.place(at)) {
            Some(Some(known)) if known.at == at => Some(*known),
            _ => None,
        }
    }

    /// Gives the table an entry, unless memory for it is wanting.
    pub fn keep(&mut self, known: Known)
        ensures { (segments : List Segment) → AreTold segments self.old →
            IsTold segments (Some known) → AreTold segments self.new }
    {
        if self.entries.is_empty() {
            match blanks(self.alloc, self.size) {
                Ok(entries) => self.entries = entries,
                Err(_) => return,
            }
        }
        let i = self.place(known.at);
        if i < self.entries.len() {
            self.entries[i] = Some(known);
        }
    }
}
