//! Laws of the file: no bytes are spellings of two objects, and each object in range can be written.
//!
//! They are the contracts of functions that do nothing. What bytes spell
//! an object is `Spells`, in `specs/Object.antt` of `obj_core`.

ghost use Rattle.std.specs.Prelude.{◌≡◌, ℕ, List as Row};
ghost use Rattle.obj_core.specs.declared.object.Object.{Object};
ghost use Rattle.obj_core.specs.Object.{IsObject, Spells};
ghost use Rattle.obj_file.specs.Fits.{CountsFit};

/// Two objects that the same bytes spell, in whichever format, are the same.
pub fn one_object()
    ensures { (bytes : Row ℕ) (a b : Object) → IsObject a → IsObject b → Spells bytes a →
        Spells bytes b → a ≡ b }
{}

/// An object in range has counts that can be written.
pub fn counts_fit()
    ensures { (o : Object) → IsObject o → CountsFit o }
{}
