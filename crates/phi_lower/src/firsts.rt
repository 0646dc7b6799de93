//! The first entries of a phi, found by the labels of their blocks in constant time.

ghost use Rattle.std.specs.Prelude.{◌≡◌, IfOk};
ghost use Rattle.std.specs.Option.{option_copied};
ghost use Rattle.ir_core.specs.declared.instruction.Entry.{Entry as OneEntry};
ghost use Rattle.ir_core.specs.Names.{same_name, first_where};

use ir_core::instruction::Entry;
use ir_core::names::NameSet;
use ir_core::ty::Name;
use rd_num::list::List;
use rd_num::width::NoMemory;
use std::alloc::Global;
use std::marker::Model;

/// Entries of a phi, of which the first for each block is found by its label.
#[derive(Drop)]
pub struct Firsts<'a> {
    whole: &'a [Entry],
    names: NameSet<'a>,
    entries: List<&'a Entry>,
}

impl<'a> Model for Firsts<'a> {
    ghost use Rattle.std.specs.Prelude.{◌≡◌, List, map};
    ghost use Rattle.std.specs.Coded.{codes};
    ghost use Rattle.ir_core.specs.contracts.ty.Ty as ty;
    ghost use Rattle.ir_core.specs.declared.instruction.Entry.{Entry as OneEntry};
    ghost use Rattle.phi_lower.specs.Entries.{entry_names, firsts_in};

    ghost Value = { List OneEntry };

    ghost coded = { Prim.hlevel (codes, ty.the_row.coded) };

    ghost view = { λ f. f.whole.now };

    ghost invariant = { λ f. (map (λ r. r.now) f.entries ≡ firsts_in f.whole.now)
        × (f.names ≡ entry_names (map (λ r. r.now) f.entries)) };
}

impl<'a> Firsts<'a> {
    /// The entries of a phi.
    pub fn new(alloc: Global, whole: &'a [Entry]) -> Result<Firsts<'a>, NoMemory>
        ensures { IfOk result (λ f. f ≡ whole.now) }
    {
        let mut names = NameSet::new(alloc);
        let mut entries = List::new(alloc);
        for e in whole {
            if names.add(&e.from)? {
                entries.add(e)?;
            }
        }
        Ok(Firsts {
            whole,
            names,
            entries,
        })
    }

    /// The first entry for a block. Takes no memory.
    pub fn entry(&self, block: &Name) -> Option<&'a Entry>
        ensures { option_copied result ≡ first_where (λ (g : OneEntry). same_name g.from block.now)
            self.now }
    {
        match self.names.number(block) {
            Some(k) => self.entries.get(k).copied(),
            None => None,
        }
    }
}
