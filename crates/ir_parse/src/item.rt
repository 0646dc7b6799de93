//! Items of a module text, one kind after another.

ghost use Rattle.std.specs.Prelude.{◌≡◌, [], ◌∷◌, true, false, codes};
ghost use Rattle.ir_grammar.specs.Tokens.{kinds, starts};
ghost use Rattle.ir_grammar.specs.Parts.{the_word, skip, behind_comma};
ghost use Rattle.ir_grammar.specs.Reading.{done, first, read, Gives};
ghost use Rattle.ir_syntax.specs.Words.{by_word, maybe};
ghost use Rattle.ir_syntax.specs.Items.{source_item as a_source_item, target_item as a_target_item, type_item as a_type_item, global_tail as a_global_tail, global_item as a_global_item, attributes_item as an_attributes_item, metadata_item as a_metadata_item};

use ir_core::module::GlobalVar;
use ir_core::ty::NamedTy;
use ir_grammar::cursor::{Stop, at_mark, at_word, mark, word};
use ir_lex::token::Token;
use ir_syntax::initialiser::initialiser;
use ir_syntax::item::Item;
use ir_syntax::metadata::{aligned, attach, group, meta, metadata};
use ir_syntax::names::{global, local};
use ir_syntax::traceless::{hash, section, string};
use ir_syntax::types::{fields_type, whole};
use ir_syntax::words::{links, one_word};
use std::alloc::Global;

/// Words behind `target`.
const TARGETS: [&[u8]; 2] = [b"datalayout", b"triple"];

/// The tokens behind the name of the source file.
#[tactic(auto, unfolding(ir_syntax::specs::Items::source_item))]
pub fn source_item<'a>(tokens: &'a [Token]) -> Result<(Item, &'a [Token]), Stop>
    ensures { Gives (λ x. done x.0 (kinds x.1.now)) result
        (read a_source_item (kinds tokens.now)) }
{
    let rest = word(tokens, b"source_filename")?;
    let rest = mark(rest, b'=')?;
    let rest = string(rest)?;
    Ok((Item::Nothing, rest))
}

/// The tokens behind what is said of the target.
#[tactic(auto, unfolding(ir_syntax::specs::Items::target_item))]
pub fn target_item<'a>(tokens: &'a [Token]) -> Result<(Item, &'a [Token]), Stop>
    ensures { Gives (λ x. done x.0 (kinds x.1.now)) result
        (read a_target_item (kinds tokens.now)) }
{
    let rest = word(tokens, b"target")?;
    let rest = one_word(rest, &TARGETS)?;
    let rest = mark(rest, b'=')?;
    let rest = string(rest)?;
    Ok((Item::Nothing, rest))
}

/// A named type, and the tokens behind it.
#[tactic(auto, unfolding(ir_syntax::specs::Items::type_item))]
pub fn type_item<'a>(alloc: Global, tokens: &'a [Token]) -> Result<(Item, &'a [Token]), Stop>
    ensures { Gives (λ x. done x.0 (kinds x.1.now)) result (read a_type_item (kinds tokens.now)) }
{
    let (name, rest) = local(alloc, tokens)?;
    let rest = mark(rest, b'=')?;
    let rest = word(rest, b"type")?;
    let (fields, rest) = fields_type(alloc, rest)?;
    Ok((Item::Type(NamedTy { name, fields }), rest))
}

/// The tokens behind one thing that may stand behind a global.
#[tactic(auto, unfolding(ir_syntax::specs::Items::global_tail))]
fn global_tail<'a>(alloc: Global, tokens: &'a [Token]) -> Result<&'a [Token], Stop>
    ensures { Gives (λ rest. done tt (kinds rest.now)) result
        (read a_global_tail (kinds tokens.now)) }
{
    if at_word(tokens, b"align") {
        return aligned(tokens);
    }
    if at_word(tokens, b"section") {
        return section(tokens);
    }
    attach(alloc, tokens)
}

/// The tokens behind all that stands behind a global, each behind a comma.
fn global_tails<'a>(alloc: Global, tokens: &'a [Token]) -> Result<&'a [Token], Stop>
    ensures { Gives (λ rest. done tt (kinds rest.now)) result
        (read (skip (behind_comma a_global_tail)) (kinds tokens.now)) }
{
    let mut rest = tokens;
    'tails: while at_mark(rest, b',') {
        let behind = mark(rest, b',')?;
        rest = global_tail(alloc, behind)?;
    }
    Ok(rest)
}

/// Whether a global is constant, and the tokens behind the word that says so.
fn mutability<'a>(tokens: &'a [Token]) -> Result<(bool, &'a [Token]), Stop>
    ensures { Gives (λ x. done x.0 (kinds x.1.now)) result
        (read (by_word (codes "global", false) ((codes "constant", true) ∷ []))
        (kinds tokens.now)) }
{
    if at_word(tokens, b"global") {
        let rest = word(tokens, b"global")?;
        return Ok((false, rest));
    }
    let rest = word(tokens, b"constant")?;
    Ok((true, rest))
}

/// A global, and the tokens behind it.
#[tactic(auto, unfolding(ir_syntax::specs::Items::global_item))]
pub fn global_item<'a>(alloc: Global, tokens: &'a [Token]) -> Result<(Item, &'a [Token]), Stop>
    ensures { Gives (λ x. done x.0 (kinds x.1.now)) result
        (read a_global_item (kinds tokens.now)) }
{
    let (name, rest) = global(alloc, tokens)?;
    let rest = mark(rest, b'=')?;
    let rest = links(rest);
    let (constant, rest) = mutability(rest)?;
    let (ty, rest) = whole(alloc, rest)?;
    let (init, rest) = initialiser(alloc, rest)?;
    let rest = global_tails(alloc, rest)?;
    let global = GlobalVar {
        name,
        constant,
        ty,
        init,
    };
    Ok((Item::Global(global), rest))
}

/// The tokens behind a group of attributes.
#[tactic(auto, unfolding(ir_syntax::specs::Items::attributes_item))]
pub fn attributes_item<'a>(alloc: Global, tokens: &'a [Token]) -> Result<(Item, &'a [Token]), Stop>
    ensures { Gives (λ x. done x.0 (kinds x.1.now)) result
        (read an_attributes_item (kinds tokens.now)) }
{
    let rest = word(tokens, b"attributes")?;
    let rest = hash(rest)?;
    let rest = mark(rest, b'=')?;
    let rest = group(alloc, rest)?;
    Ok((Item::Nothing, rest))
}

/// The tokens behind a word, where it stands first.
fn maybe_word<'a>(tokens: &'a [Token], text: &[u8]) -> Result<&'a [Token], Stop>
    ensures { Gives (λ rest. done tt (kinds rest.now)) result
        (read (maybe (the_word text.now)) (kinds tokens.now)) }
{
    if at_word(tokens, text) {
        return word(tokens, text);
    }
    Ok(tokens)
}

/// The tokens behind metadata with a name or a number.
#[tactic(auto, unfolding(ir_syntax::specs::Items::metadata_item))]
pub fn metadata_item<'a>(alloc: Global, tokens: &'a [Token]) -> Result<(Item, &'a [Token]), Stop>
    ensures { Gives (λ x. done x.0 (kinds x.1.now)) result
        (read a_metadata_item (kinds tokens.now)) }
{
    let rest = meta(tokens)?;
    let rest = mark(rest, b'=')?;
    let rest = maybe_word(rest, b"distinct")?;
    let rest = metadata(alloc, rest)?;
    Ok((Item::Nothing, rest))
}
