//! Laws of disassemblies and violations, as the contracts of functions that do nothing.
//!
//! They say that the verifier has one answer at most: bytes are one list of instructions, an object has
//! one first violation, and what has one is not well formed.

ghost use Rattle.std.specs.Prelude.{◌≡◌, ℕ, List as Row};
ghost use Rattle.x86_core.specs.declared.instr.Instr.{Instr as Instruction};
ghost use Rattle.obj_core.specs.declared.object.Object.{Object as Program};
ghost use Rattle.obj_core.specs.Disassembly.{IsDisassembly};
ghost use Rattle.obj_core.specs.WellFormed.{Violation, IsWellFormed, IsFirstViolation};

/// Bytes are disassembled in one way: two lists of instructions that spell them are equal.
pub fn bytes_have_one_disassembly()
    ensures { (bytes : Row ℕ) (one other : Row Instruction) → IsDisassembly bytes one →
        IsDisassembly bytes other → one ≡ other }
{}

/// No well-formed object has a first violation: what is refused is never well formed.
pub fn violations_are_of_others()
    ensures { (o : Program) (v : Violation) → IsFirstViolation o v → IsWellFormed o → ⊥ }
{}

/// An object has one first violation at most.
pub fn one_violation_is_first()
    ensures { (o : Program) (v w : Violation) → IsFirstViolation o v → IsFirstViolation o w → v ≡
        w }
{}
