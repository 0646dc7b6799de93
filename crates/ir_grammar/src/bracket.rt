//! Groups in brackets, which nest without a limit.
//!
//! Tokens in, and the tokens behind the closing bracket out. What may still be open is a list of closing
//! marks, so that no depth of brackets takes the stack.

ghost use Rattle.std.specs.Prelude.{◌≡◌, [], ◌∷◌};
ghost use Rattle.ir_grammar.specs.Tokens.{kinds};
ghost use Rattle.ir_grammar.specs.Brackets.{mark_shape, shape_of};
ghost use Rattle.ir_grammar.specs.Grammar.{nest as a_nest};
ghost use Rattle.ir_grammar.specs.Reading.{done, read, scan, Gives};

use crate::cursor::{Stop, mark};
use ir_lex::token::{Token, TokenKind};
use std::alloc::Global;

/// How a token stands in brackets: it opens a pair with this closing mark, closes one, or neither.
#[derive(Clone, Copy)]
pub enum Shape {
    Opens(u8),
    Closes(u8),
    Plain,
}

/// How a punctuation mark stands in brackets.
fn shape_of_mark(byte: u8) -> Shape
    ensures { result ≡ mark_shape byte }
{
    match byte {
        b'(' => Shape::Opens(b')'),
        b'[' => Shape::Opens(b']'),
        b'{' => Shape::Opens(b'}'),
        b')' | b']' | b'}' => Shape::Closes(byte),
        _ => Shape::Plain,
    }
}

/// How a token stands in brackets.
fn shape_of_token(kind: &TokenKind) -> Shape
    ensures { result ≡ shape_of kind.now }
{
    match kind {
        TokenKind::Mark(byte) => shape_of_mark(*byte),
        _ => Shape::Plain,
    }
}

/// The tokens behind a closing mark, and behind all that is opened before it.
fn behind_group<'a>(alloc: Global, tokens: &'a [Token], close: u8) -> Result<&'a [Token], Stop>
    ensures { Gives (λ rest. done tt (kinds rest.now)) result
        (scan (kinds tokens.now) (close ∷ [])) }
{
    let mut open: Vec<u8> = Vec::new(alloc);
    let mut due = close;
    let mut rest = tokens;
    'tokens: while let [next, behind @ ..] = rest {
        match shape_of_token(&next.kind) {
            Shape::Opens(mark) => {
                match open.push(due) {
                    Ok(()) => {}
                    Err(_) => return Err(Stop::NoMemory),
                }
                due = mark;
            }
            Shape::Closes(mark) => {
                if mark != due {
                    return Err(Stop::Stray(rest.len()));
                }
                match open.pop() {
                    Some(mark) => due = mark,
                    None => return Ok(behind),
                }
            }
            Shape::Plain => {}
        }
        rest = behind;
    }
    Err(Stop::Stray(0))
}

/// The tokens behind a group with these two brackets.
#[tactic(auto, using(crate::proofs::Groups::nest_read))]
pub fn nest<'a>(
    alloc: Global,
    tokens: &'a [Token],
    opening: u8,
    close: u8,
) -> Result<&'a [Token], Stop>
    ensures { Gives (λ rest. done tt (kinds rest.now)) result
        (read (a_nest opening close) (kinds tokens.now)) }
{
    let rest = mark(tokens, opening)?;
    behind_group(alloc, rest, close)
}
