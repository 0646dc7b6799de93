//! Equal copies of lists, for every type that has an equal copy of its own.

ghost use Rattle.std.specs.Prelude.{◌≡◌, IfOk};

use crate::list::List;
use crate::width::NoMemory;
use std::alloc::Global;

/// A type whose values can be copied where there is memory.
pub trait Copied: Drop {
    /// An equal value.
    fn copied(&self, alloc: Global) -> Result<Self, NoMemory>
    where
        Self: Sized,
        ensures { IfOk result (λ c. c ≡ self.now) };
}

/// A list with equal copies of the items, in their order.
pub fn copy_list<T: Copied>(alloc: Global, items: &[T]) -> Result<List<T>, NoMemory>
    ensures { IfOk result (λ l. l ≡ items.now) }
{
    let mut all = List::new(alloc);
    for item in items {
        let one = item.copied(alloc)?;
        all.add(one)?;
    }
    Ok(all)
}

impl Copied for u8 {
    fn copied(&self, alloc: Global) -> Result<u8, NoMemory> {
        Ok(*self)
    }
}

impl<T: Copied> Copied for List<T> {
    fn copied(&self, alloc: Global) -> Result<List<T>, NoMemory> {
        copy_list(alloc, self.as_slice())
    }
}
