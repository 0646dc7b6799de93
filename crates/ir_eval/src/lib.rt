//! Runs of valid modules: how a run stands after so many steps, between a source and a sink.
//!
//! `evaluate` has the call, `outcome` how a run can stand. A module becomes a program and the objects
//! of its globals, and steps of the program are those of the module's meaning. That they are, the
//! laws below say, which do nothing: the program of a valid module gives, part by part, what the
//! module gives. The types of a valid module and its frames are within the limits (`ir_globals`).
//! The sizes of such types and the places of their fields are told as they are, so that operands and
//! moves of pointers give what those of the module do (`law` of `ir_context`), and with them
//! instructions, phis and ends of blocks. What agrees with what stands in `ir_run`.
#![tactic(auto)]

ghost use Rattle.std.specs.Prelude.{◌≡◌, ◌≤◌, ℕ, List, true};
ghost use Rattle.ir_core.specs.declared.kind.Kind.{Kind};
ghost use Rattle.ir_core.specs.declared.operand.Operand.{Operand};
ghost use Rattle.ir_core.specs.declared.instruction.Op.{Op};
ghost use Rattle.ir_core.specs.declared.instruction.Term.{Term};
ghost use Rattle.ir_core.specs.declared.module.Module.{Module};
ghost use Rattle.ir_core.specs.declared.limit.TheConstants.{MAX_FRAME};
ghost use Rattle.ir_core.specs.Counts.{alloca_bytes};
ghost use Rattle.ir_core.specs.Mentions.{of_operand, of_op, of_end};
ghost use Rattle.ir_core.specs.Refusals.{IsValid};
ghost use Rattle.ir_core.specs.Typing.{Env, operand_fits, op_fits, term_fits};
ghost use Rattle.ir_sound.specs.Typed.{IsTyped};
ghost use Rattle.ir_sound.specs.WellTyped.{Each};
ghost use Rattle.ir_run.specs.Agreement.{IsReadAs, ActsAs, EndAgrees, Agrees};
ghost use Rattle.ir_context.specs.Small.{FieldsAreSmall, IsSmallMention};
ghost use Rattle.ir_globals.specs.Small.{IsSmallModule};

pub mod evaluate;
pub mod outcome;

pub use evaluate::eval;

/// An operand that fits a kind is read as its origin, where its types are small.
pub fn operands_are_read()
    ensures { (m : Module) (env : Env) (names : List (List ℕ)) (kind : Kind) (a : Operand) →
        FieldsAreSmall m.types m.types → Each (IsSmallMention m.types) (of_operand a) →
        operand_fits m env kind a ≡ true → IsReadAs m names kind a }
{}

/// An instruction that fits does what its action does, moves of pointers and calls included.
pub fn instructions_act()
    ensures { (m : Module) (env : Env) (names : List (List ℕ)) (op : Op) →
        FieldsAreSmall m.types m.types → Each (IsSmallMention m.types) (of_op op) →
        op_fits m env op ≡ true → alloca_bytes m.types op ≤ MAX_FRAME → ActsAs m names op }
{}

/// The end of a block that fits reads what its exit does.
pub fn ends_agree()
    ensures { (m : Module) (env : Env) (names : List (List ℕ)) (ret : Kind) (end : Term) →
        FieldsAreSmall m.types m.types → Each (IsSmallMention m.types) (of_end end) →
        term_fits m env ret end ≡ true → EndAgrees m names end }
{}

/// The program of a module that is typed and small gives what the module gives.
pub fn typed_agrees()
    ensures { (m : Module) → IsTyped m → IsSmallModule m → Agrees m }
{}

/// So does that of a valid module.
pub fn agrees()
    ensures { (m : Module) → IsValid m → Agrees m }
{}
