//! Sets of names, which number the names in the order in which they were added.
//!
//! Names are lent and never copied. Numbers count from 0. A lookup takes constant time.

ghost use Rattle.std.specs.Prelude.{◌≡◌, ◌∷◌, ◌++◌, IfOk, List, ℕ, [], length, map, not, slice_get, if◌then◌else◌};
ghost use Rattle.std.specs.List.{list_any};
ghost use Rattle.std.specs.Option.{option_copied};
ghost use Rattle.ir_core.specs.Definitions.{repeated};
ghost use Rattle.ir_core.specs.Names.{same_name, number_where};

use crate::ty::Name;
use indexmap::IndexSet;
use rd_num::width::NoMemory;
use std::alloc::Global;
use std::marker::Model;

/// A set of names, in the order in which they were added.
#[derive(Drop)]
pub struct NameSet<'a> {
    kept: IndexSet<&'a Name>,
}

impl<'a> Model for NameSet<'a> {
    ghost use Rattle.std.specs.Prelude.{ℕ, List, map};

    ghost Value = { List (List ℕ) };

    ghost view = { λ s. map (λ k. k.now) s.kept.keys };
}

/// What has a name.
pub trait Named {
    ghost name_of: { Self → List ℕ };

    /// The name, without its mark. Takes no memory.
    fn name(&self) -> &Name
        ensures { result.now ≡ name_of self.now };
}

impl<'a> NameSet<'a> {
    /// The empty set. Takes no memory.
    pub fn new(alloc: Global) -> NameSet<'a>
        ensures { result ≡ [] }
    {
        NameSet {
            kept: IndexSet::new(alloc),
        }
    }

    /// Adds a name, and answers whether it is new.
    pub fn add(&mut self, name: &'a Name) -> Result<bool, NoMemory>
        ensures new { IfOk result (λ r. r ≡ not (list_any (same_name name.now) self.old)) }
        ensures added { IfOk result (λ r. self.new ≡
            (if r then self.old ++ name.now ∷ [] else self.old)) }
    {
        match self.kept.insert_full(name) {
            Ok((_, new)) => Ok(new),
            Err(_) => Err(NoMemory),
        }
    }

    /// The number of a name, or `None` where it isn't in the set. Takes no memory.
    pub fn number(&self, name: &Name) -> Option<usize>
        ensures { result ≡ number_where (λ n. same_name n name.now) self.now }
    {
        self.kept.get_index_of(&name)
    }

    /// Whether a name is in the set. Takes no memory.
    pub fn has(&self, name: &Name) -> bool
        ensures { result ≡ list_any (same_name name.now) self.now }
    {
        self.kept.contains(&name)
    }

    /// The name of a number, or `None` past the last one. Takes no memory.
    pub fn get(&self, k: usize) -> Option<&'a Name>
        ensures { option_copied result ≡ slice_get self.now k }
    {
        self.kept.get_index(k).copied()
    }

    /// How many names there are. Takes no memory.
    pub fn len(&self) -> usize
        ensures { result ≡ length self.now }
    {
        self.kept.len()
    }

    /// Adds names until one is in the set already, and answers that one. Without one all are added.
    pub fn add_all<T: Named>(&mut self, items: &'a [T]) -> Result<Option<&'a Name>, NoMemory>
        ensures first { IfOk result (λ r. option_copied r ≡
            slice_get (repeated self.old (map T.name_of items.now)) 0) }
        ensures added { IfOk result (λ r. r ≡ None → self.new ≡ self.old ++
            map T.name_of items.now) }
    {
        for item in items {
            let name = item.name();
            if !self.add(name)? {
                return Ok(Some(name));
            }
        }
        Ok(None)
    }
}

/// The names of items, none of which stands twice.
pub fn names_of<'a, T: Named>(alloc: Global, items: &'a [T]) -> Result<NameSet<'a>, NoMemory>
    requires { repeated [] (map T.name_of items.now) ≡ [] }
    ensures { IfOk result (λ s. s ≡ map T.name_of items.now) }
{
    let mut names = NameSet::new(alloc);
    let _none = names.add_all(items)?;
    Ok(names)
}
