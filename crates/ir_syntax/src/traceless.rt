//! Single tokens that leave no trace: hashes, strings, and globals of debug records.

ghost use Rattle.std.specs.Prelude.{◌≡◌, [], ◌∷◌, codes};
ghost use Rattle.ir_grammar.specs.Tokens.{hash as hash_sort, debug_hash as debug_hash_sort, begins_with, starts, kinds};
ghost use Rattle.ir_grammar.specs.Reading.{done, read, Gives};
ghost use Rattle.ir_syntax.specs.Words.{a_hash, plain_hash as a_plain_hash, a_debug_hash, a_str, in_section as a_section, a_debug_global};

use crate::names::is_debug;
use ir_grammar::cursor::{Stop, word};
use ir_lex::token::{Token, TokenKind};

/// Whether a hash belongs to debug records.
fn is_debug_hash(text: &[u8]) -> bool
    ensures { result ≡ begins_with (codes "dbg_") text.now }
{
    matches!(text, [b'd', b'b', b'g', b'_', ..])
}

/// Whether a hash stands first.
pub fn at_hash(tokens: &[Token]) -> bool
    ensures { result ≡ starts (hash_sort ∷ debug_hash_sort ∷ []) (kinds tokens.now) }
{
    match tokens {
        [next, ..] => matches!(next.kind, TokenKind::Hash(_)),
        _ => false,
    }
}

/// Whether a hash that belongs to no debug records stands first.
pub fn at_plain_hash(tokens: &[Token]) -> bool
    ensures { result ≡ starts (hash_sort ∷ []) (kinds tokens.now) }
{
    match tokens {
        [next, ..] => match &next.kind {
            TokenKind::Hash(text) => !is_debug_hash(text.as_slice()),
            _ => false,
        },
        _ => false,
    }
}

/// Whether a hash of debug records stands first.
pub fn at_debug_hash(tokens: &[Token]) -> bool
    ensures { result ≡ starts (debug_hash_sort ∷ []) (kinds tokens.now) }
{
    match tokens {
        [next, ..] => match &next.kind {
            TokenKind::Hash(text) => is_debug_hash(text.as_slice()),
            _ => false,
        },
        _ => false,
    }
}

/// The tokens behind a hash.
pub fn hash<'a>(tokens: &'a [Token]) -> Result<&'a [Token], Stop>
    ensures { Gives (λ rest. done tt (kinds rest.now)) result (read a_hash (kinds tokens.now)) }
{
    match tokens {
        [next, rest @ ..] => {
            if matches!(next.kind, TokenKind::Hash(_)) {
                Ok(rest)
            } else {
                Err(Stop::Stray(tokens.len()))
            }
        }
        _ => Err(Stop::Stray(0)),
    }
}

/// The tokens behind a hash that belongs to no debug records.
pub fn plain_hash<'a>(tokens: &'a [Token]) -> Result<&'a [Token], Stop>
    ensures { Gives (λ rest. done tt (kinds rest.now)) result
        (read a_plain_hash (kinds tokens.now)) }
{
    match tokens {
        [next, rest @ ..] => match &next.kind {
            TokenKind::Hash(text) => {
                if !is_debug_hash(text.as_slice()) {
                    Ok(rest)
                } else {
                    Err(Stop::Stray(tokens.len()))
                }
            }
            _ => Err(Stop::Stray(tokens.len())),
        },
        _ => Err(Stop::Stray(0)),
    }
}

/// The tokens behind a hash of debug records.
pub fn debug_hash<'a>(tokens: &'a [Token]) -> Result<&'a [Token], Stop>
    ensures { Gives (λ rest. done tt (kinds rest.now)) result
        (read a_debug_hash (kinds tokens.now)) }
{
    match tokens {
        [next, rest @ ..] => match &next.kind {
            TokenKind::Hash(text) => {
                if is_debug_hash(text.as_slice()) {
                    Ok(rest)
                } else {
                    Err(Stop::Stray(tokens.len()))
                }
            }
            _ => Err(Stop::Stray(tokens.len())),
        },
        _ => Err(Stop::Stray(0)),
    }
}

/// The tokens behind a string.
pub fn string<'a>(tokens: &'a [Token]) -> Result<&'a [Token], Stop>
    ensures { Gives (λ rest. done tt (kinds rest.now)) result (read a_str (kinds tokens.now)) }
{
    match tokens {
        [next, rest @ ..] => {
            if matches!(next.kind, TokenKind::Str(_)) {
                Ok(rest)
            } else {
                Err(Stop::Stray(tokens.len()))
            }
        }
        _ => Err(Stop::Stray(0)),
    }
}

/// The tokens behind a section.
pub fn section<'a>(tokens: &'a [Token]) -> Result<&'a [Token], Stop>
    ensures { Gives (λ rest. done tt (kinds rest.now)) result (read a_section (kinds tokens.now)) }
{
    let rest = word(tokens, b"section")?;
    string(rest)
}

/// The tokens behind a global of debug records.
pub fn debug_global<'a>(tokens: &'a [Token]) -> Result<&'a [Token], Stop>
    ensures { Gives (λ rest. done tt (kinds rest.now)) result
        (read a_debug_global (kinds tokens.now)) }
{
    match tokens {
        [next, rest @ ..] => match &next.kind {
            TokenKind::Global(name) => {
                if is_debug(name.as_slice()) {
                    Ok(rest)
                } else {
                    Err(Stop::Stray(tokens.len()))
                }
            }
            _ => Err(Stop::Stray(tokens.len())),
        },
        _ => Err(Stop::Stray(0)),
    }
}
