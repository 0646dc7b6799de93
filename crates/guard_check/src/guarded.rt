//! An object that is known to be guarded.
//!
//! Whoever takes a `Guarded` asks nothing more of it: its runs never stray. Nothing is stored beside
//! the object: that it is guarded is known to proofs alone.

ghost use Rattle.std.specs.Prelude.{◌≡◌};
ghost use Rattle.guard_check.specs.Form.{HasGuardForm};
ghost use Rattle.guard_check.specs.Straight.{NeverStrays};

use obj_core::checked::Checked;

/// A well-formed object that tests each word before it goes there.
#[derive(Drop)]
pub struct Guarded {
    checked: Checked,
    ghost guarded: { ∥ HasGuardForm checked.object ∥₁ },
}

impl Guarded {
    /// Keeps an object that is known to be guarded. Takes no memory.
    pub fn new(checked: Checked) -> Guarded
        requires { HasGuardForm checked.object }
        ensures { result.checked ≡ checked }
    {
        Guarded { checked }
    }

    /// The object. Takes no memory.
    pub fn checked(&self) -> &Checked
        ensures value { result.now ≡ self.now.checked }
        ensures guarded { ∥ HasGuardForm result.now.object ∥₁ }
        ensures straight { NeverStrays result.now.object }
    {
        known_straight(&self.checked);
        &self.checked
    }
}

/// Makes it known to a proof that no run of a guarded object strays.
fn known_straight(checked: &Checked)
    ensures { ∥ HasGuardForm checked.now.object ∥₁ → NeverStrays checked.now.object }
{
    let _object = checked.object();
}
