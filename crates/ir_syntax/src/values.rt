//! Values, and places that are known before a run, at the front of a row of tokens.
//!
//! A value gives its operand and the tokens behind it. Names are copied once, out of their tokens.

ghost use Rattle.std.specs.Prelude.{◌≡◌, [], ◌∷◌};
ghost use Rattle.ir_grammar.specs.Tokens.{kinds, starts};
ghost use Rattle.ir_grammar.specs.Grammar.{many};
ghost use Rattle.ir_grammar.specs.Parts.{behind_comma};
ghost use Rattle.ir_grammar.specs.Reading.{done, first, read, Gives, put_before};
ghost use Rattle.ir_syntax.specs.Values.{const_value as a_const_value, plain_value as a_plain_value, place_index as a_place_index, place as a_place, fixed_value as a_fixed_value, value as a_value};

use crate::names::{at_global, at_int, at_local, copied, global, int, local};
use crate::types::whole;
use crate::words::{at_one_of, flags};
use ir_core::operand::{Index0, Operand, Place0};
use ir_grammar::cursor::{Stop, at_mark, is_word, mark, word};
use ir_lex::token::{Token, TokenKind};
use rd_num::list::List;
use std::alloc::Global;

/// Words that are values.
const VALUE_WORDS: [&[u8]; 5] = [b"true", b"false", b"null", b"undef", b"poison"];

/// A number or a truth value, and the tokens behind it.
#[tactic(auto, unfolding(crate::specs::Values::const_value))]
pub fn const_value<'a>(tokens: &'a [Token]) -> Result<(Operand, &'a [Token]), Stop>
    ensures { Gives (λ x. done x.0 (kinds x.1.now)) result
        (read a_const_value (kinds tokens.now)) }
{
    match tokens {
        [next, rest @ ..] => {
            let kind = &next.kind;
            if let TokenKind::Int(n) = kind {
                return Ok((Operand::Int(*n), rest));
            }
            if is_word(kind, b"true") {
                return Ok((Operand::Bool(true), rest));
            }
            if is_word(kind, b"false") {
                return Ok((Operand::Bool(false), rest));
            }
            Err(Stop::Stray(tokens.len()))
        }
        _ => Err(Stop::Stray(0)),
    }
}

/// Whether a value that is one token, and no local, stands first.
#[tactic(auto, unfolding(crate::specs::Values::plain_value, crate::specs::Values::const_value))]
pub fn at_plain_value(tokens: &[Token]) -> bool
    ensures { result ≡ starts (first a_plain_value) (kinds tokens.now) }
{
    at_int(tokens) || at_one_of(tokens, &VALUE_WORDS) || at_global(tokens)
}

/// A value that is one token, and no local.
#[tactic(auto, unfolding(crate::specs::Values::plain_value, crate::specs::Values::const_value))]
fn plain_value<'a>(alloc: Global, tokens: &'a [Token]) -> Result<(Operand, &'a [Token]), Stop>
    ensures { Gives (λ x. done x.0 (kinds x.1.now)) result
        (read a_plain_value (kinds tokens.now)) }
{
    match tokens {
        [next, rest @ ..] => {
            let kind = &next.kind;
            if let TokenKind::Int(n) = kind {
                return Ok((Operand::Int(*n), rest));
            }
            if is_word(kind, b"true") {
                return Ok((Operand::Bool(true), rest));
            }
            if is_word(kind, b"false") {
                return Ok((Operand::Bool(false), rest));
            }
            if is_word(kind, b"null") {
                return Ok((Operand::Null, rest));
            }
            if is_word(kind, b"undef") {
                return Ok((Operand::Undef, rest));
            }
            if is_word(kind, b"poison") {
                return Ok((Operand::Poison, rest));
            }
            if let TokenKind::Global(name) = kind {
                let own = copied(alloc, name.as_slice())?;
                return Ok((Operand::Global(own), rest));
            }
            Err(Stop::Stray(tokens.len()))
        }
        _ => Err(Stop::Stray(0)),
    }
}

/// An index of a place, with its type.
#[tactic(auto, unfolding(crate::specs::Values::place_index))]
fn place_index<'a>(alloc: Global, tokens: &'a [Token]) -> Result<(Index0, &'a [Token]), Stop>
    ensures { Gives (λ x. done x.0 (kinds x.1.now)) result
        (read a_place_index (kinds tokens.now)) }
{
    let (ty, rest) = whole(alloc, tokens)?;
    let (value, rest) = int(rest)?;
    Ok((Index0 { ty, value }, rest))
}

/// The indices of a place, each behind a comma.
#[tactic(auto)]
fn place_indices<'a>(
    alloc: Global,
    tokens: &'a [Token],
) -> Result<(List<Index0>, &'a [Token]), Stop>
    ensures { Gives (λ x. done x.0 (kinds x.1.now)) result
        (read (many (behind_comma a_place_index)) (kinds tokens.now)) }
{
    let mut all = List::new(alloc);
    let mut rest = tokens;
    'indices: while at_mark(rest, b',') {
        let behind = mark(rest, b',')?;
        let (index, behind) = place_index(alloc, behind)?;
        match all.add(index) {
            Ok(()) => {}
            Err(_) => return Err(Stop::NoMemory),
        }
        rest = behind;
    }
    Ok((all, rest))
}

/// A place, and the tokens behind it.
#[tactic(auto, unfolding(crate::specs::Values::place))]
fn place<'a>(alloc: Global, tokens: &'a [Token]) -> Result<(Place0, &'a [Token]), Stop>
    ensures { Gives (λ x. done x.0 (kinds x.1.now)) result (read a_place (kinds tokens.now)) }
{
    let rest = word(tokens, b"getelementptr")?;
    let rest = flags(rest);
    let rest = mark(rest, b'(')?;
    let (source, rest) = whole(alloc, rest)?;
    let rest = mark(rest, b',')?;
    let rest = word(rest, b"ptr")?;
    let (base, rest) = global(alloc, rest)?;
    let (indices, rest) = place_indices(alloc, rest)?;
    let rest = mark(rest, b')')?;
    let place = Place0 {
        source,
        base,
        indices,
    };
    Ok((place, rest))
}

/// A value that is known before a run, and the tokens behind it.
#[tactic(auto, unfolding(crate::specs::Values::fixed_value))]
pub fn fixed_value<'a>(alloc: Global, tokens: &'a [Token]) -> Result<(Operand, &'a [Token]), Stop>
    ensures { Gives (λ x. done x.0 (kinds x.1.now)) result
        (read a_fixed_value (kinds tokens.now)) }
{
    if at_plain_value(tokens) {
        return plain_value(alloc, tokens);
    }
    let (place, rest) = place(alloc, tokens)?;
    Ok((Operand::Const(place), rest))
}

/// A value, and the tokens behind it.
#[tactic(auto, unfolding(crate::specs::Values::value))]
pub fn value<'a>(alloc: Global, tokens: &'a [Token]) -> Result<(Operand, &'a [Token]), Stop>
    ensures { Gives (λ x. done x.0 (kinds x.1.now)) result (read a_value (kinds tokens.now)) }
{
    if at_plain_value(tokens) {
        return plain_value(alloc, tokens);
    }
    if at_local(tokens) {
        let (name, rest) = local(alloc, tokens)?;
        return Ok((Operand::Local(name), rest));
    }
    let (place, rest) = place(alloc, tokens)?;
    Ok((Operand::Const(place), rest))
}
