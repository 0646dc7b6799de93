//! Single tokens at the front of those that are left.

ghost use Rattle.std.specs.Prelude.{◌≡◌, ◌<◌, [], ◌∷◌, length, true, false, MatchOption};
ghost use Rattle.ir_grammar.specs.Tokens.{word, mark as a_mark_sort, count, count_of, same_sort, sort_of, starts, kinds};
ghost use Rattle.ir_grammar.specs.Reading.{done, fault, read, Gives};
ghost use Rattle.ir_grammar.specs.Parts.{the_word, the_mark, a_count};

use ir_lex::token::{Token, TokenKind};

/// Why reading stops: at a stray token or the end, with so many tokens left, or for want of memory.
pub enum Stop {
    Stray(usize),
    NoMemory,
}

/// Whether a token is this word.
pub fn is_word(kind: &TokenKind, text: &[u8]) -> bool
    ensures { result ≡ same_sort (word text.now) (sort_of kind.now) }
{
    match kind {
        TokenKind::Word(name) => text == name.as_slice(),
        _ => false,
    }
}

/// Whether a token is this punctuation mark.
fn is_mark(kind: &TokenKind, byte: u8) -> bool
    ensures { result ≡ same_sort (a_mark_sort byte) (sort_of kind.now) }
{
    match kind {
        TokenKind::Mark(m) => byte == *m,
        _ => false,
    }
}

/// Whether the next token is this word.
pub fn at_word(tokens: &[Token], text: &[u8]) -> bool
    ensures { result ≡ starts (word text.now ∷ []) (kinds tokens.now) }
{
    match tokens {
        [next, ..] => is_word(&next.kind, text),
        _ => false,
    }
}

/// Whether the next token is this mark.
pub fn at_mark(tokens: &[Token], byte: u8) -> bool
    ensures { result ≡ starts (a_mark_sort byte ∷ []) (kinds tokens.now) }
{
    match tokens {
        [next, ..] => is_mark(&next.kind, byte),
        _ => false,
    }
}

/// The tokens behind this word.
pub fn word<'a>(tokens: &'a [Token], text: &[u8]) -> Result<&'a [Token], Stop>
    ensures { Gives (λ rest. done tt (kinds rest.now)) result
        (read (the_word text.now) (kinds tokens.now)) }
{
    match tokens {
        [next, rest @ ..] => {
            if is_word(&next.kind, text) {
                Ok(rest)
            } else {
                Err(Stop::Stray(tokens.len()))
            }
        }
        _ => Err(Stop::Stray(0)),
    }
}

/// The tokens behind this mark.
pub fn mark<'a>(tokens: &'a [Token], byte: u8) -> Result<&'a [Token], Stop>
    ensures { Gives (λ rest. done tt (kinds rest.now)) result
        (read (the_mark byte) (kinds tokens.now)) }
{
    match tokens {
        [next, rest @ ..] => {
            if is_mark(&next.kind, byte) {
                Ok(rest)
            } else {
                Err(Stop::Stray(tokens.len()))
            }
        }
        _ => Err(Stop::Stray(0)),
    }
}

/// A number from 0 to 2^32 - 1.
fn count_in(kind: &TokenKind) -> Option<u32>
    ensures { MatchOption result (same_sort count (sort_of kind.now) ≡ false)
        (λ n. (same_sort count (sort_of kind.now) ≡ true) × (n ≡ count_of kind.now)) }
{
    match kind {
        TokenKind::Int(n) if *n >= 0 && *n < 4294967296 => Some(*n as u32),
        _ => None,
    }
}

/// A number from 0 to 2^32 - 1, and the tokens behind it.
pub fn number<'a>(tokens: &'a [Token]) -> Result<(u32, &'a [Token]), Stop>
    ensures { Gives (λ x. done x.0 (kinds x.1.now)) result (read a_count (kinds tokens.now)) }
{
    match tokens {
        [next, rest @ ..] => match count_in(&next.kind) {
            Some(n) => Ok((n, rest)),
            None => Err(Stop::Stray(tokens.len())),
        },
        _ => Err(Stop::Stray(0)),
    }
}
