//! Modules that are known to be valid.
//!
//! Later stages take a `Valid` and never look again. What it means that a module is valid stands in
//! `specs/Refusals`; whether one is decides the checker, which is the only place that makes a `Valid`.

ghost use Rattle.std.specs.Prelude.{◌≡◌};
ghost use Rattle.ir_core.specs.Refusals.{IsValid};

use crate::module::Module;

/// A valid module.
#[derive(Drop)]
pub struct Valid {
    kept: Module,
    ghost valid: { ∥ IsValid kept ∥₁ },
}

impl Valid {
    /// Keeps a module that is known to be valid. Takes no memory.
    pub fn new(kept: Module) -> Valid
        requires { IsValid kept }
        ensures { result.kept ≡ kept }
    {
        Valid { kept }
    }

    /// The module. Takes no memory.
    pub fn module(&self) -> &Module
        ensures value { result.now ≡ self.now.kept }
        ensures valid { ∥ IsValid result.now ∥₁ }
    {
        &self.kept
    }
}
