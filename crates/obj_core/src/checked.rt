//! An object that is known to be well formed.
//!
//! `obj_check::check` makes one of an object that may be anything, and `rd_compile` of one that it has
//! just made. Whoever takes a `Checked`, as `obj_lay::lay`, asks nothing more of it. Nothing is stored
//! beside the object: that it is well formed is known to proofs alone.

ghost use Rattle.std.specs.Prelude.{◌≡◌};
ghost use Rattle.obj_core.specs.WellFormed.{IsWellFormed};

use crate::object::Object;

/// A well-formed object.
#[derive(Drop)]
pub struct Checked {
    object: Object,
    ghost well_formed: { ∥ IsWellFormed object ∥₁ },
}

impl Checked {
    /// Keeps an object that is known to be well formed. Takes no memory.
    pub fn new(object: Object) -> Checked
        requires { IsWellFormed object }
        ensures { result.object ≡ object }
    {
        Checked { object }
    }

    /// The object. Takes no memory.
    pub fn object(&self) -> &Object
        ensures value { result.now ≡ self.now.object }
        ensures well_formed { ∥ IsWellFormed result.now ∥₁ }
    {
        &self.object
    }
}
