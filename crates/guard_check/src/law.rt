//! Laws of guarded objects, as the contracts of functions that do nothing.
//!
//! A guarded object goes on by a word only where it has tested the word in r11, or where another test
//! of the same word came before (`specs/Form.antt`). So no run of it strays, whatever is written into
//! its memory between two steps: the word stands in a register by then. Addresses count bytes.

ghost use Rattle.obj_core.specs.declared.object.Object.{Object as Program};
ghost use Rattle.obj_core.specs.WellFormed.{Violation, IsWellFormed};
ghost use Rattle.guard_check.specs.Form.{HasGuardForm, IsFirstUnguarded};
ghost use Rattle.guard_check.specs.Straight.{KeepsWords, NeverStrays};

/// Wherever a run goes on by the word in r11, the word is a slot's address, plus 0 or 5.
pub fn words_lead_to_slots()
    ensures { (o : Program) → IsWellFormed o → HasGuardForm o → KeepsWords o }
{}

/// No run strays, for every input and every list of steps and writes.
pub fn guarded_never_strays()
    ensures { (o : Program) → IsWellFormed o → HasGuardForm o → NeverStrays o }
{}

/// An object in which a rule of guards fails first somewhere is not guarded.
pub fn unguarded_have_no_form()
    ensures { (o : Program) (v : Violation) → IsFirstUnguarded o v → HasGuardForm o → ⊥ }
{}
