//! Laws of operands and of indices, which do nothing.

ghost use Rattle.std.specs.Prelude.{◌≡◌, ℕ, List, true};
ghost use Rattle.ir_core.specs.declared.instruction.Arg.{Arg};
ghost use Rattle.ir_core.specs.declared.instruction.Op.TheVariants.{Gep};
ghost use Rattle.ir_core.specs.declared.kind.Kind.{Kind};
ghost use Rattle.ir_core.specs.declared.module.Module.{Module};
ghost use Rattle.ir_core.specs.declared.operand.Operand.{Operand};
ghost use Rattle.ir_core.specs.declared.ty.Ty.{Ty};
ghost use Rattle.ir_core.specs.Mentions.{of_operand, of_op};
ghost use Rattle.ir_core.specs.Typing.{Env, operand_fits, op_fits};
ghost use Rattle.ir_context.specs.Laws.{ReadsAsOrigin, MovesAlong};
ghost use Rattle.ir_context.specs.Small.{FieldsAreSmall, AreSmallMentions};

/// An operand that fits a kind has the value of its origin, where its types are small.
pub fn operands_have_origins()
    ensures { (m : Module) (env : Env) (names : List (List ℕ)) (kind : Kind) (a : Operand) →
        FieldsAreSmall m.types m.types → AreSmallMentions m.types (of_operand a) →
        operand_fits m env kind a ≡ true → ReadsAsOrigin m names kind a }
{}

/// A `getelementptr` that fits moves its pointer along the path of its indices, which they have.
pub fn pointers_move_along_paths()
    ensures { (m : Module) (env : Env) (names : List (List ℕ)) (ty : Ty) (pointer : Operand)
        (indices : List Arg) → FieldsAreSmall m.types m.types →
        AreSmallMentions m.types (of_op (Gep ty pointer indices)) →
        op_fits m env (Gep ty pointer indices) ≡ true → MovesAlong m names ty pointer indices }
{}
