//! The first piece of a text: a separator, a comment or a token.

ghost use Rattle.std.specs.Prelude.{◌≡◌, ◌<◌, ◌≤◌, length, IfOk, IfSome};
ghost use Rattle.ir_lex.specs.First.{found_in, run_found, number_or_word, string_found, quote_found, name_at, quoted_name_at, may_name};

use crate::class::{Class, Start, front, run_len, starts_with, what_begins};
use crate::escape::string;
use crate::number::number;
use crate::token::{Name, TokenKind};
use rd_num::list::List;
use rd_num::width::NoMemory;
use std::alloc::Global;

/// What stands first in a text, with its length in bytes: a gap, which is a separator or a comment, a token, or no piece.
#[derive(Drop)]
pub enum Found {
    Gap(usize),
    Token(TokenKind, usize),
    Stray,
}

fn copy(alloc: Global, bytes: &[u8]) -> Result<List<u8>, NoMemory>
    ensures { IfOk result (λ l. l ≡ bytes.now) }
{
    let mut all = List::new(alloc);
    all.append(bytes)?;
    Ok(all)
}

/// A run with no colon behind it.
fn number_or_a_word(alloc: Global, run: &[u8]) -> Result<Found, NoMemory>
    ensures { IfOk result (λ f. f ≡ number_or_word run.now) }
{
    match number(run) {
        Some(n) => Ok(Found::Token(TokenKind::Int(n), run.len())),
        None => {
            let word = copy(alloc, run)?;
            Ok(Found::Token(TokenKind::Word(word), run.len()))
        }
    }
}

/// What begins with `c` and a quote; the text begins behind the quote.
fn found_string(alloc: Global, text: &[u8]) -> Result<Found, NoMemory>
    ensures { IfOk result (λ f. f ≡ string_found text.now) }
{
    match string(alloc, text)? {
        Some((bytes, n)) => Ok(Found::Token(TokenKind::CStr(bytes), n + 3)),
        None => Ok(Found::Stray),
    }
}

/// What begins with a byte of a run.
#[tactic(auto, unfolding(crate::specs::First::run_found))]
fn found_run(alloc: Global, text: &[u8]) -> Result<Found, NoMemory>
    ensures { IfOk result (λ f. f ≡ run_found text.now) }
{
    let n = run_len(text);
    if n == 0 {
        return match text {
            [_, _, rest @ ..] => found_string(alloc, rest),
            _ => Ok(Found::Stray),
        };
    }
    let run = &text[..n];
    if starts_with(b':', &text[n..]) {
        let name = copy(alloc, run)?;
        Ok(Found::Token(TokenKind::Label(name), n + 1))
    } else {
        number_or_a_word(alloc, run)
    }
}

/// The length of the quoted name whose opening quote stands right before the text.
fn quoted_name(text: &[u8]) -> Option<usize>
    ensures value { result ≡ quoted_name_at text.now }
    ensures within { IfSome result (λ n. n < length text.now) }
{
    let n = front(Class::Name, text);
    if n > 0 && starts_with(b'"', &text[n..]) {
        Some(n)
    } else {
        None
    }
}

/// What begins with a quote; the text begins behind it.
#[tactic(auto, unfolding(crate::specs::First::quote_found))]
fn found_quote(alloc: Global, text: &[u8]) -> Result<Found, NoMemory>
    ensures { IfOk result (λ f. f ≡ quote_found text.now) }
{
    if let Some(n) = quoted_name(text) {
        if starts_with(b':', &text[n + 1..]) {
            let name = copy(alloc, &text[..n])?;
            return Ok(Found::Token(TokenKind::Label(name), n + 3));
        }
    }
    let n = front(Class::Text, text);
    if starts_with(b'"', &text[n..]) {
        let bytes = copy(alloc, &text[..n])?;
        Ok(Found::Token(TokenKind::Str(bytes), n + 2))
    } else {
        Ok(Found::Stray)
    }
}

fn can_name(run: &[u8]) -> bool
    ensures { result ≡ may_name run.now }
{
    let digits = front(Class::Digit, run);
    digits == 0 || digits == run.len()
}

/// The name right behind a sigil, and how many bytes spell it.
#[tactic(auto, unfolding(crate::specs::First::name_at))]
fn name(alloc: Global, text: &[u8]) -> Result<Option<(Name, usize)>, NoMemory>
    ensures value { IfOk result (λ o. o ≡ name_at text.now) }
    ensures within { IfOk result (λ o. IfSome o (λ x. x.1 ≤ length text.now)) }
{
    if let [b'"', inner @ ..] = text {
        return match quoted_name(inner) {
            Some(n) => {
                let all = copy(alloc, &inner[..n])?;
                Ok(Some((all, n + 2)))
            }
            None => Ok(None),
        };
    }
    let n = run_len(text);
    if n > 0 && can_name(&text[..n]) {
        let all = copy(alloc, &text[..n])?;
        Ok(Some((all, n)))
    } else {
        Ok(None)
    }
}

/// The first piece of a text.
#[tactic(auto, unfolding(crate::specs::First::found_in))]
pub fn find(alloc: Global, text: &[u8]) -> Result<Found, NoMemory>
    ensures { IfOk result (λ f. f ≡ found_in text.now) }
{
    match text {
        [] => Ok(Found::Stray),
        [b, rest @ ..] => match what_begins(*b) {
            Start::Run => found_run(alloc, text),
            Start::Separator => Ok(Found::Gap(1)),
            Start::Comment => Ok(Found::Gap(front(Class::Line, rest) + 1)),
            Start::Quote => found_quote(alloc, rest),
            Start::Global => match name(alloc, rest)? {
                Some((name, n)) => Ok(Found::Token(TokenKind::Global(name), n + 1)),
                None => Ok(Found::Stray),
            },
            Start::Local => match name(alloc, rest)? {
                Some((name, n)) => Ok(Found::Token(TokenKind::Local(name), n + 1)),
                None => Ok(Found::Stray),
            },
            Start::Meta => {
                let n = run_len(rest);
                let text = copy(alloc, &rest[..n])?;
                Ok(Found::Token(TokenKind::Meta(text), n + 1))
            }
            Start::Hash => {
                let n = run_len(rest);
                if n == 0 {
                    return Ok(Found::Stray);
                }
                let text = copy(alloc, &rest[..n])?;
                Ok(Found::Token(TokenKind::Hash(text), n + 1))
            }
            Start::Mark => Ok(Found::Token(TokenKind::Mark(*b), 1)),
            Start::Nothing => Ok(Found::Stray),
        },
    }
}
