//! Laws of faults: tokens have one first stray token, and one thing is told of it.

ghost use Rattle.std.specs.Prelude.{◌≡◌, ℕ, List};
ghost use Rattle.ir_lex.specs.declared.token.Token.{Token};
ghost use Rattle.ir_parse.specs.declared.parse.ParseFault.TheVariants.{Grammar, Unsupported};
ghost use Rattle.ir_parse.specs.Faults.{Faults};

/// Tokens stop being a module's at one place, told as a fault of the grammar or by one word, and not as both.
pub fn one_fault()
    ensures place { (tokens : List Token) (end p q : ℕ)
        → Faults tokens end (Grammar p) → Faults tokens end (Grammar q) → p ≡ q }
    ensures word { (tokens : List Token) (end p q : ℕ) (v w : List ℕ)
        → Faults tokens end (Unsupported p v) → Faults tokens end (Unsupported q w)
        → (p ≡ q) × (v ≡ w) }
    ensures kind { (tokens : List Token) (end p q : ℕ) (w : List ℕ)
        → Faults tokens end (Grammar p) → ¬ (Faults tokens end (Unsupported q w)) }
{}
