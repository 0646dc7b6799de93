//! Groups, metadata and attachments, of which only the end is told.
//!
//! Each function gives the tokens behind what it reads; no value comes of any of it. Groups nest without
//! a limit, and take memory for the brackets that are open.

ghost use Rattle.std.specs.Prelude.{◌≡◌, [], ◌∷◌};
ghost use Rattle.std.specs.Char.{is_ascii_digit};
ghost use Rattle.std.specs.List.{list_all};
ghost use Rattle.ir_grammar.specs.Tokens.{meta as meta_sort, meta_number, is_digits, starts, kinds};
ghost use Rattle.ir_grammar.specs.Grammar.{either};
ghost use Rattle.ir_grammar.specs.Reading.{done, read, Gives};
ghost use Rattle.ir_syntax.specs.Words.{maybe, aligned as an_aligned};
ghost use Rattle.ir_syntax.specs.Metadata.{pgroup as a_pgroup, group as a_group, any_meta as a_meta, metadata as a_metadata, attach as an_attach, attaches as all_attaches, align_tail as an_align_tail};

use ir_grammar::bracket::nest;
use ir_grammar::cursor::{Stop, at_mark, at_word, mark, number, word};
use ir_lex::token::{Token, TokenKind};
use std::alloc::Global;

/// The tokens behind a group in parentheses.
pub fn pgroup<'a>(alloc: Global, tokens: &'a [Token]) -> Result<&'a [Token], Stop>
    ensures { Gives (λ rest. done tt (kinds rest.now)) result (read a_pgroup (kinds tokens.now)) }
{
    nest(alloc, tokens, b'(', b')')
}

/// The tokens behind a group in parentheses, where one stands first.
pub fn maybe_pgroup<'a>(alloc: Global, tokens: &'a [Token]) -> Result<&'a [Token], Stop>
    ensures { Gives (λ rest. done tt (kinds rest.now)) result
        (read (maybe a_pgroup) (kinds tokens.now)) }
{
    if at_mark(tokens, b'(') {
        return pgroup(alloc, tokens);
    }
    Ok(tokens)
}

/// The tokens behind a group.
#[tactic(auto, unfolding(crate::specs::Metadata::group))]
pub fn group<'a>(alloc: Global, tokens: &'a [Token]) -> Result<&'a [Token], Stop>
    ensures { Gives (λ rest. done tt (kinds rest.now)) result (read a_group (kinds tokens.now)) }
{
    if at_mark(tokens, b'(') {
        return nest(alloc, tokens, b'(', b')');
    }
    if at_mark(tokens, b'{') {
        return nest(alloc, tokens, b'{', b'}');
    }
    nest(alloc, tokens, b'[', b']')
}

/// Whether each byte is a digit.
fn are_digits(text: &[u8]) -> bool
    ensures { result ≡ list_all is_ascii_digit text.now }
{
    text.iter().all(|byte| byte.is_ascii_digit())
}

/// Whether bytes are one digit or more.
pub fn is_number(text: &[u8]) -> bool
    ensures { result ≡ is_digits text.now }
{
    match text {
        [] => false,
        _ => are_digits(text),
    }
}

/// Whether metadata's number stands first.
fn at_meta_number(tokens: &[Token]) -> bool
    ensures { result ≡ starts (meta_number ∷ []) (kinds tokens.now) }
{
    match tokens {
        [next, ..] => match &next.kind {
            TokenKind::Meta(text) => is_number(text.as_slice()),
            _ => false,
        },
        _ => false,
    }
}

/// Whether a `!` with what belongs to it stands first.
pub fn at_meta(tokens: &[Token]) -> bool
    ensures { result ≡ starts (meta_sort ∷ meta_number ∷ []) (kinds tokens.now) }
{
    match tokens {
        [next, ..] => matches!(next.kind, TokenKind::Meta(_)),
        _ => false,
    }
}

/// The tokens behind a `!` with what belongs to it.
pub fn meta<'a>(tokens: &'a [Token]) -> Result<&'a [Token], Stop>
    ensures { Gives (λ rest. done tt (kinds rest.now)) result (read a_meta (kinds tokens.now)) }
{
    match tokens {
        [next, rest @ ..] => match &next.kind {
            TokenKind::Meta(_) => Ok(rest),
            _ => Err(Stop::Stray(tokens.len())),
        },
        _ => Err(Stop::Stray(0)),
    }
}

/// The tokens behind a number of metadata, or behind metadata that is written out.
#[tactic(auto, unfolding(crate::specs::Metadata::metadata))]
pub fn metadata<'a>(alloc: Global, tokens: &'a [Token]) -> Result<&'a [Token], Stop>
    ensures { Gives (λ rest. done tt (kinds rest.now)) result
        (read a_metadata (kinds tokens.now)) }
{
    if at_meta_number(tokens) {
        return meta(tokens);
    }
    let rest = meta(tokens)?;
    group(alloc, rest)
}

/// The tokens behind one attachment.
#[tactic(auto, unfolding(crate::specs::Metadata::attach))]
pub fn attach<'a>(alloc: Global, tokens: &'a [Token]) -> Result<&'a [Token], Stop>
    ensures { Gives (λ rest. done tt (kinds rest.now)) result (read an_attach (kinds tokens.now)) }
{
    let rest = meta(tokens)?;
    metadata(alloc, rest)
}

/// The tokens behind attachments that commas lead in.
#[tactic(auto, unfolding(crate::specs::Metadata::attaches))]
pub fn attaches<'a>(alloc: Global, tokens: &'a [Token]) -> Result<&'a [Token], Stop>
    ensures { Gives (λ rest. done tt (kinds rest.now)) result
        (read all_attaches (kinds tokens.now)) }
{
    let mut rest = tokens;
    'attaches: while at_mark(rest, b',') {
        let behind = mark(rest, b',')?;
        rest = attach(alloc, behind)?;
    }
    Ok(rest)
}

/// The tokens behind an alignment.
pub fn aligned<'a>(tokens: &'a [Token]) -> Result<&'a [Token], Stop>
    ensures { Gives (λ rest. done tt (kinds rest.now)) result
        (read an_aligned (kinds tokens.now)) }
{
    let rest = word(tokens, b"align")?;
    let (_, rest) = number(rest)?;
    Ok(rest)
}

/// The tokens behind an alignment, or behind an attachment.
pub fn aligned_or_attach<'a>(alloc: Global, tokens: &'a [Token]) -> Result<&'a [Token], Stop>
    ensures { Gives (λ rest. done tt (kinds rest.now)) result
        (read (either an_aligned an_attach) (kinds tokens.now)) }
{
    if at_word(tokens, b"align") {
        return aligned(tokens);
    }
    attach(alloc, tokens)
}

/// The tokens behind what may stand behind an address: an alignment, and attachments.
#[tactic(auto, unfolding(crate::specs::Metadata::align_tail))]
pub fn align_tail<'a>(alloc: Global, tokens: &'a [Token]) -> Result<&'a [Token], Stop>
    ensures { Gives (λ rest. done tt (kinds rest.now)) result
        (read an_align_tail (kinds tokens.now)) }
{
    if !at_mark(tokens, b',') {
        return Ok(tokens);
    }
    let rest = mark(tokens, b',')?;
    let rest = aligned_or_attach(alloc, rest)?;
    attaches(alloc, rest)
}
