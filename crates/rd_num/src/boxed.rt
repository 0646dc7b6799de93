//! One value on the heap, which contracts see as the value.
//!
//! A type that reaches itself by a single field, as an array type does by the type of its elements,
//! holds a `Boxed` of itself; a bare `Box` would show its pointer to contracts.

ghost use Rattle.std.specs.Prelude.{◌≡◌, IfOk};

use crate::width::NoMemory;
use std::alloc::Global;
use std::marker::Model;

/// The owner of one value on the heap.
#[derive(Debug, Drop)]
pub struct Boxed<T> {
    inner: Box<T>,
}

impl<T> Model for Boxed<T> {
    ghost Value = { T };

    ghost coded = { T.code };

    ghost view = { λ b. b.inner.value };
}

impl<T> Boxed<T> {
    /// The value. Takes no memory.
    pub fn get(&self) -> &T
        ensures { result.now ≡ self.now }
    {
        &self.inner
    }
}

impl<T: Drop> Boxed<T> {
    /// Moves a value to the heap.
    pub fn new(alloc: Global, value: T) -> Result<Boxed<T>, NoMemory>
        ensures { IfOk result (λ b. b ≡ value) }
    {
        match Box::new(alloc, value) {
            Ok(inner) => Ok(Boxed { inner }),
            Err(_) => Err(NoMemory),
        }
    }
}
