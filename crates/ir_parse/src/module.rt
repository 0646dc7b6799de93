//! The items of a text, one behind another, and the module that they make up.

ghost use Rattle.std.specs.Prelude.{◌≡◌, [], ◌∷◌, MatchResult};
ghost use Rattle.ir_grammar.specs.Tokens.{kinds, starts};
ghost use Rattle.ir_grammar.specs.Reading.{done, first, read, Gives};
ghost use Rattle.ir_syntax.specs.Items.{item as an_item};
ghost use Rattle.ir_syntax.specs.ModuleText.{module_of, module_text as a_module_text};
ghost use Rattle.ir_parse.specs.Joined.{joined};

use crate::declaration::declare;
use crate::function::define;
use crate::item::{
    attributes_item, global_item, metadata_item, source_item, target_item, type_item,
};
use ir_core::module::Module;
use ir_grammar::cursor::{Stop, at_word};
use ir_lex::token::Token;
use ir_syntax::item::Item;
use ir_syntax::metadata::at_meta;
use ir_syntax::names::{at_global, at_local};
use ir_syntax::words::at_one_of;
use rd_num::list::List;
use std::alloc::Global;

/// Words that items about the text as a whole begin with.
const TEXT_WORDS: [&[u8]; 2] = [b"source_filename", b"target"];

/// Words that other items begin with.
const ITEM_WORDS: [&[u8]; 3] = [b"declare", b"define", b"attributes"];

/// Whether an item stands first.
#[tactic(auto, using(crate::proofs::ItemRows::item_starts))]
fn at_item(tokens: &[Token]) -> bool
    ensures { result ≡ starts (first an_item) (kinds tokens.now) }
{
    at_one_of(tokens, &TEXT_WORDS)
        || at_local(tokens)
        || at_global(tokens)
        || at_one_of(tokens, &ITEM_WORDS)
        || at_meta(tokens)
}

/// An item, and the tokens behind it.
#[tactic(auto, unfolding(ir_syntax::specs::Items::item), using(crate::proofs::ItemRows::firsts))]
fn item<'a>(alloc: Global, tokens: &'a [Token]) -> Result<(Item, &'a [Token]), Stop>
    ensures { Gives (λ x. done x.0 (kinds x.1.now)) result (read an_item (kinds tokens.now)) }
{
    if at_word(tokens, b"source_filename") {
        return source_item(tokens);
    }
    if at_word(tokens, b"target") {
        return target_item(tokens);
    }
    if at_local(tokens) {
        return type_item(alloc, tokens);
    }
    if at_global(tokens) {
        return global_item(alloc, tokens);
    }
    if at_word(tokens, b"declare") {
        return declare(alloc, tokens);
    }
    if at_word(tokens, b"define") {
        let (function, rest) = define(alloc, tokens)?;
        return Ok((Item::Function(function), rest));
    }
    if at_word(tokens, b"attributes") {
        return attributes_item(alloc, tokens);
    }
    metadata_item(alloc, tokens)
}

/// One item more, behind those of its kind.
fn with_item(parts: Module, item: Item) -> Result<Module, Stop>
    ensures { MatchResult result (λ more. more ≡ joined parts (module_of (item ∷ [])))
        (λ stop. stop ≡ Stop.NoMemory) }
{
    let mut all = parts;
    let added = match item {
        Item::Type(named) => all.types.add(named),
        Item::Global(global) => all.globals.add(global),
        Item::Extern(declaration) => all.externs.add(declaration),
        Item::Function(function) => all.functions.add(function),
        Item::Nothing => Ok(()),
    };
    match added {
        Ok(()) => Ok(all),
        Err(_) => Err(Stop::NoMemory),
    }
}

/// The module of the items that stand first, as many as there are, and the tokens behind them.
#[tactic(auto, using(crate::proofs::ItemRows::items_end, crate::proofs::ItemRows::items_none))]
pub fn module_text<'a>(alloc: Global, tokens: &'a [Token]) -> Result<(Module, &'a [Token]), Stop>
    ensures { Gives (λ x. done x.0 (kinds x.1.now)) result
        (read a_module_text (kinds tokens.now)) }
{
    let mut all = Module {
        types: List::new(alloc),
        globals: List::new(alloc),
        externs: List::new(alloc),
        functions: List::new(alloc),
    };
    let mut rest = tokens;
    'items: while at_item(rest) {
        let (next, behind) = item(alloc, rest)?;
        all = with_item(all, next)?;
        rest = behind;
    }
    Ok((all, rest))
}
