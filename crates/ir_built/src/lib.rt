//! What a text of fewer than 2^32 bytes says is built: names, numbers and lists fit their types.
//!
//! A law of the text's grammar alone. It stands apart from the parser, so that neither is proved again
//! with the other.
#![tactic(auto)]

ghost use Rattle.std.specs.Prelude.{List};
ghost use Rattle.ir_lex.specs.declared.token.Token.{Token};
ghost use Rattle.ir_core.specs.declared.module.Module.{Module};
ghost use Rattle.ir_core.specs.Built.{IsBuilt};
ghost use Rattle.ir_grammar.specs.Tokens.{kinds};
ghost use Rattle.ir_grammar.specs.Grammar.{Derives};
ghost use Rattle.ir_syntax.specs.ModuleText.{module_text};
ghost use Rattle.ir_built.specs.SmallTexts.{AreOfSmallText};

/// Tokens of such a text derive built modules alone.
#[tactic(auto, using(crate::proofs::BuiltModule::small_built))]
pub fn small_texts_say_built_modules()
    ensures { (m : Module) (tokens : List Token) → Derives module_text m (kinds tokens) →
        AreOfSmallText tokens → IsBuilt m }
{}
