//! Initialisers of globals at the front of a row of tokens, nested as deep as is left.
//!
//! An initialiser gives its value and the tokens behind it. Its arrays and structs are read by recursion,
//! which the number of levels that are left bounds: 64 for a global's. Types inside have levels of their own.

ghost use Rattle.std.specs.Prelude.{◌≡◌, [], ◌∷◌};
ghost use Rattle.ir_grammar.specs.Tokens.{kinds, starts};
ghost use Rattle.ir_grammar.specs.Grammar.{many};
ghost use Rattle.ir_grammar.specs.Parts.{behind_comma, listed};
ghost use Rattle.ir_grammar.specs.Reading.{done, first, read, Gives, put_before};
ghost use Rattle.ir_syntax.specs.Initialisers.{element as an_element, simple_init as a_simple_init, deep_init as a_deep_init, init_at, init as an_init};

use crate::names::{at_cstr, cstr};
use crate::types::whole;
use crate::values::{at_plain_value, fixed_value};
use ir_core::init::{Elem, Init};
use ir_grammar::cursor::{Stop, at_mark, at_word, mark, word};
use ir_lex::token::Token;
use rd_num::list::List;
use std::alloc::Global;

/// Whether an initialiser without elements stands first.
#[tactic(auto, using(crate::proofs::InitLevels::simple_starts))]
fn at_simple_init(tokens: &[Token]) -> bool
    ensures { result ≡ starts (first a_simple_init) (kinds tokens.now) }
{
    at_plain_value(tokens)
        || at_word(tokens, b"getelementptr")
        || at_word(tokens, b"zeroinitializer")
        || at_cstr(tokens)
}

/// An initialiser without elements.
#[tactic(auto, unfolding(crate::specs::Initialisers::simple_init), using(crate::proofs::InitLevels::fixed_starts))]
fn simple_init<'a>(alloc: Global, tokens: &'a [Token]) -> Result<(Init, &'a [Token]), Stop>
    ensures { Gives (λ x. done x.0 (kinds x.1.now)) result
        (read a_simple_init (kinds tokens.now)) }
{
    if at_plain_value(tokens) || at_word(tokens, b"getelementptr") {
        let (value, rest) = fixed_value(alloc, tokens)?;
        return Ok((Init::Value(value), rest));
    }
    if at_word(tokens, b"zeroinitializer") {
        let rest = word(tokens, b"zeroinitializer")?;
        return Ok((Init::Zero, rest));
    }
    let (bytes, rest) = cstr(alloc, tokens)?;
    Ok((Init::Text(bytes), rest))
}

/// An initialiser, with so many levels left.
#[cycle(init)]
#[tactic(auto, using(crate::proofs::InitLevels::shallow_init, crate::proofs::InitLevels::simple_level, crate::proofs::InitLevels::deep_level))]
fn level<'a>(alloc: Global, tokens: &'a [Token], depth: u32) -> Result<(Init, &'a [Token]), Stop>
    ensures { Gives (λ x. done x.0 (kinds x.1.now)) result
        (read (init_at depth) (kinds tokens.now)) }
{
    if depth == 0 || at_simple_init(tokens) {
        return simple_init(alloc, tokens);
    }
    deep_init(alloc, tokens, depth - 1)
}

/// An initialiser with elements, which have so many levels left.
#[cycle(init)]
#[tactic(auto, unfolding(crate::specs::Initialisers::deep_init, crate::specs::Initialisers::array_init, crate::specs::Initialisers::struct_init, crate::specs::Initialisers::packed_init))]
fn deep_init<'a>(
    alloc: Global,
    tokens: &'a [Token],
    depth: u32,
) -> Result<(Init, &'a [Token]), Stop>
    ensures { Gives (λ x. done x.0 (kinds x.1.now)) result
        (read (a_deep_init (init_at depth)) (kinds tokens.now)) }
{
    if at_mark(tokens, b'[') {
        let rest = mark(tokens, b'[')?;
        let (elements, rest) = elements(alloc, rest, depth, b']')?;
        return Ok((Init::Array(elements), rest));
    }
    if at_mark(tokens, b'{') {
        let rest = mark(tokens, b'{')?;
        let (elements, rest) = elements(alloc, rest, depth, b'}')?;
        return Ok((Init::Struct(elements), rest));
    }
    let rest = mark(tokens, b'<')?;
    let rest = mark(rest, b'{')?;
    let (elements, rest) = elements(alloc, rest, depth, b'}')?;
    let rest = mark(rest, b'>')?;
    Ok((Init::Packed(elements), rest))
}

/// Elements as far as a closing mark.
#[cycle(init)]
fn elements<'a>(
    alloc: Global,
    tokens: &'a [Token],
    depth: u32,
    close: u8,
) -> Result<(List<Elem>, &'a [Token]), Stop>
    ensures { Gives (λ x. done x.0 (kinds x.1.now)) result
        (read (listed close (an_element (init_at depth))) (kinds tokens.now)) }
{
    let mut elements = List::new(alloc);
    if at_mark(tokens, close) {
        let rest = mark(tokens, close)?;
        return Ok((elements, rest));
    }
    let (first, rest) = element(alloc, tokens, depth)?;
    match elements.add(first) {
        Ok(()) => {}
        Err(_) => return Err(Stop::NoMemory),
    }
    let (elements, rest) = more_elements(alloc, rest, depth, elements)?;
    let rest = mark(rest, close)?;
    Ok((elements, rest))
}

/// The elements behind commas, in front of them those that were read.
#[cycle(init)]
fn more_elements<'a>(
    alloc: Global,
    tokens: &'a [Token],
    depth: u32,
    elements: List<Elem>,
) -> Result<(List<Elem>, &'a [Token]), Stop>
    ensures { Gives (λ x. done x.0 (kinds x.1.now)) result
        (put_before elements (read (many (behind_comma (an_element (init_at depth))))
        (kinds tokens.now))) }
{
    let mut all = elements;
    let mut rest = tokens;
    'elements: while at_mark(rest, b',') {
        let behind = mark(rest, b',')?;
        let (next, behind) = element(alloc, behind, depth)?;
        match all.add(next) {
            Ok(()) => {}
            Err(_) => return Err(Stop::NoMemory),
        }
        rest = behind;
    }
    Ok((all, rest))
}

/// An element with its type.
#[cycle(init)]
#[tactic(auto, unfolding(crate::specs::Initialisers::element))]
fn element<'a>(alloc: Global, tokens: &'a [Token], depth: u32) -> Result<(Elem, &'a [Token]), Stop>
    ensures { Gives (λ x. done x.0 (kinds x.1.now)) result
        (read (an_element (init_at depth)) (kinds tokens.now)) }
{
    let (ty, rest) = whole(alloc, tokens)?;
    let (init, rest) = level(alloc, rest, depth)?;
    Ok((Elem { ty, init }, rest))
}

/// An initialiser, and the tokens behind it.
#[tactic(auto, unfolding(crate::specs::Initialisers::init))]
pub fn initialiser<'a>(alloc: Global, tokens: &'a [Token]) -> Result<(Init, &'a [Token]), Stop>
    ensures { Gives (λ x. done x.0 (kinds x.1.now)) result (read an_init (kinds tokens.now)) }
{
    level(alloc, tokens, 64)
}
