//! Declarations, and what may stand behind the parameters of a declaration or a function.

ghost use Rattle.std.specs.Prelude.{◌≡◌};
ghost use Rattle.ir_grammar.specs.Tokens.{kinds, starts};
ghost use Rattle.ir_grammar.specs.Parts.{skip};
ghost use Rattle.ir_grammar.specs.Reading.{done, first, read, Gives, applied};
ghost use Rattle.ir_syntax.specs.Metadata.{attach as an_attach};
ghost use Rattle.ir_syntax.specs.Functions.{declared_tail as a_declared_tail, defined_tail as a_defined_tail, declared as a_declared, declare as a_declare};

use ir_core::module::Extern;
use ir_core::ty::Ty;
use ir_grammar::cursor::{Stop, at_word, word};
use ir_lex::token::Token;
use ir_syntax::item::Item;
use ir_syntax::metadata::{aligned, at_meta, attach, maybe_pgroup, pgroup};
use ir_syntax::names::{at_debug_global, plain_global};
use ir_syntax::parameter::{declared_params, pattrs};
use ir_syntax::traceless::{at_hash, debug_global, hash, section};
use ir_syntax::types::rtype;
use ir_syntax::words::{at_function_word, function_word, links};
use std::alloc::Global;

/// Whether something stands first that may stand behind a declaration.
#[tactic(auto, unfolding(ir_syntax::specs::Functions::declared_tail), using(crate::proofs::Tails::declared_tail_starts))]
fn at_declared_tail(tokens: &[Token]) -> bool
    ensures { result ≡ starts (first a_declared_tail) (kinds tokens.now) }
{
    at_hash(tokens)
        || at_word(tokens, b"align")
        || at_word(tokens, b"section")
        || at_function_word(tokens)
}

/// The tokens behind one thing that may stand behind a declaration.
#[tactic(auto, unfolding(ir_syntax::specs::Functions::declared_tail))]
fn declared_tail<'a>(alloc: Global, tokens: &'a [Token]) -> Result<&'a [Token], Stop>
    ensures { Gives (λ rest. done tt (kinds rest.now)) result
        (read a_declared_tail (kinds tokens.now)) }
{
    if at_hash(tokens) {
        return hash(tokens);
    }
    if at_word(tokens, b"align") {
        return aligned(tokens);
    }
    if at_word(tokens, b"section") {
        return section(tokens);
    }
    let rest = function_word(tokens)?;
    maybe_pgroup(alloc, rest)
}

/// The tokens behind all that stands behind a declaration.
fn declared_tails<'a>(alloc: Global, tokens: &'a [Token]) -> Result<&'a [Token], Stop>
    ensures { Gives (λ rest. done tt (kinds rest.now)) result
        (read (skip a_declared_tail) (kinds tokens.now)) }
{
    let mut rest = tokens;
    'tails: while at_declared_tail(rest) {
        rest = declared_tail(alloc, rest)?;
    }
    Ok(rest)
}

/// Whether something stands first that may stand behind the parameters of a function.
#[tactic(auto, unfolding(ir_syntax::specs::Functions::defined_tail), using(crate::proofs::Tails::defined_tail_starts))]
fn at_defined_tail(tokens: &[Token]) -> bool
    ensures { result ≡ starts (first a_defined_tail) (kinds tokens.now) }
{
    at_declared_tail(tokens) || at_meta(tokens)
}

/// The tokens behind one thing that may stand behind the parameters of a function.
#[tactic(auto, unfolding(ir_syntax::specs::Functions::defined_tail))]
fn defined_tail<'a>(alloc: Global, tokens: &'a [Token]) -> Result<&'a [Token], Stop>
    ensures { Gives (λ rest. done tt (kinds rest.now)) result
        (read a_defined_tail (kinds tokens.now)) }
{
    if at_declared_tail(tokens) {
        return declared_tail(alloc, tokens);
    }
    attach(alloc, tokens)
}

/// The tokens behind all that stands behind the parameters of a function.
pub fn defined_tails<'a>(alloc: Global, tokens: &'a [Token]) -> Result<&'a [Token], Stop>
    ensures { Gives (λ rest. done tt (kinds rest.now)) result
        (read (skip a_defined_tail) (kinds tokens.now)) }
{
    let mut rest = tokens;
    'tails: while at_defined_tail(rest) {
        rest = defined_tail(alloc, rest)?;
    }
    Ok(rest)
}

/// Whether an attachment stands first.
#[tactic(auto, unfolding(ir_syntax::specs::Metadata::attach))]
fn at_attach(tokens: &[Token]) -> bool
    ensures { result ≡ starts (first an_attach) (kinds tokens.now) }
{
    at_meta(tokens)
}

/// The tokens behind attachments without commas.
fn attach_row<'a>(alloc: Global, tokens: &'a [Token]) -> Result<&'a [Token], Stop>
    ensures { Gives (λ rest. done tt (kinds rest.now)) result
        (read (skip an_attach) (kinds tokens.now)) }
{
    let mut rest = tokens;
    'attaches: while at_attach(rest) {
        rest = attach(alloc, rest)?;
    }
    Ok(rest)
}

/// What a declaration with this result declares, and the tokens behind it.
#[tactic(auto, unfolding(ir_syntax::specs::Functions::declared))]
fn declared<'a>(alloc: Global, tokens: &'a [Token], ret: Ty) -> Result<(Item, &'a [Token]), Stop>
    ensures { Gives (λ x. done x.0 (kinds x.1.now)) result
        (applied ret (read a_declared (kinds tokens.now))) }
{
    if at_debug_global(tokens) {
        let rest = debug_global(tokens)?;
        let rest = pgroup(alloc, rest)?;
        return Ok((Item::Nothing, rest));
    }
    let (name, rest) = plain_global(alloc, tokens)?;
    let (params, rest) = declared_params(alloc, rest)?;
    Ok((Item::Extern(Extern { name, ret, params }), rest))
}

/// A declaration, and the tokens behind it.
#[tactic(auto, unfolding(ir_syntax::specs::Functions::declare))]
pub fn declare<'a>(alloc: Global, tokens: &'a [Token]) -> Result<(Item, &'a [Token]), Stop>
    ensures { Gives (λ x. done x.0 (kinds x.1.now)) result (read a_declare (kinds tokens.now)) }
{
    let rest = word(tokens, b"declare")?;
    let rest = attach_row(alloc, rest)?;
    let rest = links(rest);
    let rest = pattrs(alloc, rest)?;
    let (ret, rest) = rtype(alloc, rest)?;
    let (item, rest) = declared(alloc, rest, ret)?;
    let rest = declared_tails(alloc, rest)?;
    Ok((item, rest))
}
