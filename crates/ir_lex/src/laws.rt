//! Laws of tokens: a text has one list of tokens, or one place at which it stops, and never both.

ghost use Rattle.std.specs.Prelude.{◌≡◌, ℕ, List, ◌⊎◌};
ghost use Rattle.ir_lex.specs.declared.token.Token.{Token};
ghost use Rattle.ir_lex.specs.Tokens.{Scans, Stops};

/// A text has at most one list of tokens.
pub fn one_list()
    ensures { (text : List ℕ) (a b : List Token) → Scans text a → Scans text b → a ≡ b }
{}

/// A text stops at one place at most.
pub fn one_place()
    ensures { (text : List ℕ) (a b : ℕ) → Stops text a → Stops text b → a ≡ b }
{}

/// A text that stops has no tokens.
pub fn never_both()
    ensures { (text : List ℕ) (place : ℕ) (tokens : List Token) → Stops text place →
        ¬ (Scans text tokens) }
{}

/// A text has tokens, or it stops.
pub fn either()
    ensures { (text : List ℕ) → ((tokens : List Token) × Scans text tokens)
        ⊎ ((place : ℕ) × Stops text place) }
{}
