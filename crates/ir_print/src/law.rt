//! What holds of printing and reading together, for all modules.
//!
//! A law is the contract of a function that does nothing. `ReadsBack` says that a text has tokens and
//! that these derive the module by the grammar of module texts. Since a text has one list of tokens, and
//! tokens derive one module, reading what was printed gives the module and nothing else.

ghost use Rattle.std.specs.Prelude.{◌≡◌, List as Row};
ghost use Rattle.ir_lex.specs.declared.token.Token.{Token as LexToken};
ghost use Rattle.ir_lex.specs.Tokens.{Scans};
ghost use Rattle.ir_grammar.specs.Tokens.{kinds};
ghost use Rattle.ir_grammar.specs.Grammar.{Derives};
ghost use Rattle.ir_syntax.specs.ModuleText.{module_text as a_module_text};
ghost use Rattle.ir_core.specs.declared.module.Module.{Module as Program};
ghost use Rattle.ir_core.specs.Built.{IsBuilt};
ghost use Rattle.ir_print.specs.Canonical.{canonical_text};
ghost use Rattle.ir_print.specs.ReadsBack.{ReadsBack};

/// The canonical text of a module that a text could say reads back to that module. Takes no memory.
pub fn canonical_text_reads_back()
    ensures { (m : Program) → IsBuilt m → ReadsBack (canonical_text m) m }
{}

/// The canonical text of a module that a text could say is that of no other module, and reading it gives
/// no other one. Takes no memory.
pub fn canonical_text_is_one_modules()
    ensures alone { (m n : Program) (tokens : Row LexToken) → IsBuilt m →
        Scans (canonical_text m) tokens → Derives a_module_text n (kinds tokens) → n ≡ m }
    ensures apart { (m n : Program) → IsBuilt m → IsBuilt n →
        canonical_text m ≡ canonical_text n → m ≡ n }
{}
