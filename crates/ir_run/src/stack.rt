//! A stack, which contracts see as the list of its items, the newest first.

ghost use Rattle.std.specs.Prelude.{◌≡◌, [], ◌∷◌, length, OnOk, MatchOption};

use rd_num::width::NoMemory;
use std::alloc::Global;
use std::marker::Model;

/// A stack of items.
#[derive(Drop)]
pub struct Stack<T> {
    kept: Vec<T>,
}

impl<T> Model for Stack<T> {
    ghost use Rattle.std.specs.Prelude.{List, reverse};

    ghost Value = { List T };

    ghost view = { λ s. reverse s.kept.items };
}

impl<T> Stack<T> {
    /// No item. Takes no memory.
    pub fn new(alloc: Global) -> Stack<T>
        ensures { result ≡ [] }
    {
        Stack {
            kept: Vec::new(alloc),
        }
    }

    /// How many items there are. Takes no memory.
    #[tactic(auto, using(crate::proofs::Reversed::lengths))]
    pub fn len(&self) -> usize
        ensures { result ≡ length self.now }
    {
        self.kept.len()
    }

    /// The newest item, which leaves. Takes no memory.
    #[tactic(auto, using(crate::proofs::Reversed::popped))]
    pub fn pop(&mut self) -> Option<T>
        ensures { MatchOption result ((self.old ≡ []) × (self.new ≡ []))
            (λ item. self.old ≡ item ∷ self.new) }
    {
        self.kept.pop()
    }
}

impl<T: Drop> Stack<T> {
    /// One more item.
    #[tactic(auto, using(crate::proofs::Reversed::pushed))]
    pub fn push(&mut self, item: T) -> Result<(), NoMemory>
        ensures { OnOk result (self.new ≡ item ∷ self.old) }
    {
        match self.kept.push(item) {
            Ok(()) => Ok(()),
            Err(_) => Err(NoMemory),
        }
    }
}
