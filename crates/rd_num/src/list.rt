//! A growing list, which contracts see as the list of its items.

ghost use Rattle.std.specs.Prelude.{◌≡◌, [], ◌∷◌, ◌++◌, ◌<◌, length, slice_get, MatchResult, OnOk, OnErr, OnSome, All, slice_set, IsTrue, ◌↔◌};
ghost use Rattle.std.specs.Option.{option_copied};

use crate::bytes::bytes_known;
use crate::width::NoMemory;
use std::alloc::Global;
use std::marker::Model;

/// A list of items, which grows at its end.
#[derive(Debug, Drop)]
pub struct List<T> {
    kept: Vec<T>,
}

impl<T> Model for List<T> {
    ghost use Rattle.std.specs.Prelude.{List as Row};
    ghost use Rattle.std.specs.Coded.{coded_list};

    ghost Value = { Row T };

    ghost coded = { coded_list T.code };

    ghost view = { λ l. l.kept.items };
}

impl<T> List<T> {
    /// The empty list. Takes no memory.
    pub fn new(alloc: Global) -> List<T>
        ensures { result ≡ [] }
    {
        List {
            kept: Vec::new(alloc),
        }
    }

    /// How many items there are. Takes no memory.
    pub fn len(&self) -> usize
        ensures { result ≡ length self.now }
    {
        self.kept.len()
    }

    /// Whether there is no item. Takes no memory.
    pub fn is_empty(&self) -> bool
        ensures { IsTrue result ↔ (self.now ≡ []) }
    {
        self.kept.is_empty()
    }

    /// The item at an index, or `None` past the end. Takes no memory.
    pub fn get(&self, i: usize) -> Option<&T>
        ensures value { option_copied result ≡ slice_get self.now i }
        ensures within { OnSome result (i < length self.now) }
    {
        self.kept.get(i)
    }

    /// All items, in order. Takes no memory.
    pub fn as_slice(&self) -> &[T]
        ensures { result.now ≡ self.now }
    {
        self.kept.as_slice()
    }

    /// Puts an item at the end. Where memory is wanting it is handed back, and the list is unchanged.
    pub fn push(&mut self, item: T) -> Result<(), T>
        ensures { MatchResult result (λ _. self.new ≡ self.old ++ item ∷ [])
            (λ back. (back ≡ item) × (self.new ≡ self.old)) }
    {
        match self.kept.push(item) {
            Ok(()) => Ok(()),
            Err(refused) => Err(refused.value),
        }
    }
}

impl<T: Drop> List<T> {
    /// Puts an item at the end, or lets it go where memory is wanting; the list is then unchanged.
    pub fn add(&mut self, item: T) -> Result<(), NoMemory>
        ensures put { OnOk result (self.new ≡ self.old ++ item ∷ []) }
        ensures unchanged { OnErr result (self.new ≡ self.old) }
    {
        match self.push(item) {
            Ok(()) => Ok(()),
            Err(_) => Err(NoMemory),
        }
    }

    /// Puts an item in the place of another. Takes no memory.
    pub fn set(&mut self, i: usize, item: T)
        requires { i < length self.old }
        ensures { self.new ≡ slice_set self.old i item }
    {
        self.kept[i] = item;
    }
}

impl List<u8> {
    /// Puts bytes at the end. Where memory is wanting the list is unchanged.
    pub fn append(&mut self, bytes: &[u8]) -> Result<(), NoMemory>
        ensures put { OnOk result (self.new ≡ self.old ++ bytes.now) }
        ensures unchanged { OnErr result (self.new ≡ self.old) }
    {
        match self.kept.extend_from_slice(bytes) {
            Ok(()) => Ok(()),
            Err(_) => Err(NoMemory),
        }
    }

    /// Makes it known to a proof that each item is a byte.
    pub fn known(&self)
        ensures { All (λ b. b < 256) self.now }
    {
        bytes_known(self.as_slice());
    }
}
