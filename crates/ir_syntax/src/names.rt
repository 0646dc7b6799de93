//! Names, numbers and strings, copied out of single tokens at the front of those that are left.

ghost use Rattle.std.specs.Prelude.{◌≡◌, [], ◌∷◌, codes, MatchResult};
ghost use Rattle.ir_grammar.specs.Tokens.{local as a_local_sort, global as a_global_sort, debug_global, label as a_label_sort, count, number, cstr as a_cstr_sort, begins_with, starts, kinds};
ghost use Rattle.ir_grammar.specs.Grammar.{optional};
ghost use Rattle.ir_grammar.specs.Parts.{a_local, a_global, a_label};
ghost use Rattle.ir_grammar.specs.Reading.{done, read, Gives};
ghost use Rattle.ir_syntax.specs.Words.{one_of, maybe, an_int, a_cstr, plain_global as a_plain_global};

use ir_grammar::cursor::Stop;
use ir_lex::token::{Name, Token, TokenKind};
use rd_num::list::List;
use std::alloc::Global;

/// A list of equal bytes.
pub fn copied(alloc: Global, bytes: &[u8]) -> Result<List<u8>, Stop>
    ensures { MatchResult result (λ own. own ≡ bytes.now) (λ stop. stop ≡ Stop.NoMemory) }
{
    let mut own = List::new(alloc);
    match own.append(bytes) {
        Ok(()) => Ok(own),
        Err(_) => Err(Stop::NoMemory),
    }
}

/// Whether the next token is a local.
pub fn at_local(tokens: &[Token]) -> bool
    ensures { result ≡ starts (a_local_sort ∷ []) (kinds tokens.now) }
{
    match tokens {
        [next, ..] => matches!(next.kind, TokenKind::Local(_)),
        _ => false,
    }
}

/// Whether the next token is a label.
pub fn at_label(tokens: &[Token]) -> bool
    ensures { result ≡ starts (a_label_sort ∷ []) (kinds tokens.now) }
{
    match tokens {
        [next, ..] => matches!(next.kind, TokenKind::Label(_)),
        _ => false,
    }
}

/// Whether the next token is a global.
pub fn at_global(tokens: &[Token]) -> bool
    ensures { result ≡ starts (a_global_sort ∷ debug_global ∷ []) (kinds tokens.now) }
{
    match tokens {
        [next, ..] => matches!(next.kind, TokenKind::Global(_)),
        _ => false,
    }
}

/// A local's name, and the tokens behind it.
pub fn local<'a>(alloc: Global, tokens: &'a [Token]) -> Result<(Name, &'a [Token]), Stop>
    ensures { Gives (λ x. done x.0 (kinds x.1.now)) result (read a_local (kinds tokens.now)) }
{
    match tokens {
        [next, rest @ ..] => match &next.kind {
            TokenKind::Local(name) => {
                let own = copied(alloc, name.as_slice())?;
                Ok((own, rest))
            }
            _ => Err(Stop::Stray(tokens.len())),
        },
        _ => Err(Stop::Stray(0)),
    }
}

/// A local's name where one is next.
pub fn maybe_local<'a>(
    alloc: Global,
    tokens: &'a [Token],
) -> Result<(Option<Name>, &'a [Token]), Stop>
    ensures { Gives (λ x. done x.0 (kinds x.1.now)) result
        (read (optional a_local) (kinds tokens.now)) }
{
    if at_local(tokens) {
        let (name, rest) = local(alloc, tokens)?;
        return Ok((Some(name), rest));
    }
    Ok((None, tokens))
}

/// The tokens behind a local, where one is next.
pub fn behind_local<'a>(tokens: &'a [Token]) -> &'a [Token]
    ensures { read (maybe (one_of (a_local_sort ∷ []))) (kinds tokens.now) ≡
        done tt (kinds result.now) }
{
    match tokens {
        [next, rest @ ..] => match &next.kind {
            TokenKind::Local(_) => rest,
            _ => tokens,
        },
        _ => tokens,
    }
}

/// A label's name, and the tokens behind it.
pub fn label<'a>(alloc: Global, tokens: &'a [Token]) -> Result<(Name, &'a [Token]), Stop>
    ensures { Gives (λ x. done x.0 (kinds x.1.now)) result (read a_label (kinds tokens.now)) }
{
    match tokens {
        [next, rest @ ..] => match &next.kind {
            TokenKind::Label(name) => {
                let own = copied(alloc, name.as_slice())?;
                Ok((own, rest))
            }
            _ => Err(Stop::Stray(tokens.len())),
        },
        _ => Err(Stop::Stray(0)),
    }
}

/// A label's name where one is next.
pub fn maybe_label<'a>(
    alloc: Global,
    tokens: &'a [Token],
) -> Result<(Option<Name>, &'a [Token]), Stop>
    ensures { Gives (λ x. done x.0 (kinds x.1.now)) result
        (read (optional a_label) (kinds tokens.now)) }
{
    if at_label(tokens) {
        let (name, rest) = label(alloc, tokens)?;
        return Ok((Some(name), rest));
    }
    Ok((None, tokens))
}

/// A global's name, and the tokens behind it.
pub fn global<'a>(alloc: Global, tokens: &'a [Token]) -> Result<(Name, &'a [Token]), Stop>
    ensures { Gives (λ x. done x.0 (kinds x.1.now)) result (read a_global (kinds tokens.now)) }
{
    match tokens {
        [next, rest @ ..] => match &next.kind {
            TokenKind::Global(name) => {
                let own = copied(alloc, name.as_slice())?;
                Ok((own, rest))
            }
            _ => Err(Stop::Stray(tokens.len())),
        },
        _ => Err(Stop::Stray(0)),
    }
}

/// Whether a name belongs to debug records.
pub fn is_debug(name: &[u8]) -> bool
    ensures { result ≡ begins_with (codes "llvm.dbg.") name.now }
{
    matches!(
        name,
        [b'l', b'l', b'v', b'm', b'.', b'd', b'b', b'g', b'.', ..]
    )
}

/// Whether the next token is a global of debug records.
pub fn at_debug_global(tokens: &[Token]) -> bool
    ensures { result ≡ starts (debug_global ∷ []) (kinds tokens.now) }
{
    match tokens {
        [next, ..] => match &next.kind {
            TokenKind::Global(name) => is_debug(name.as_slice()),
            _ => false,
        },
        _ => false,
    }
}

/// The name of a global that is none of debug records, and the tokens behind it.
pub fn plain_global<'a>(alloc: Global, tokens: &'a [Token]) -> Result<(Name, &'a [Token]), Stop>
    ensures { Gives (λ x. done x.0 (kinds x.1.now)) result
        (read a_plain_global (kinds tokens.now)) }
{
    match tokens {
        [next, rest @ ..] => match &next.kind {
            TokenKind::Global(name) => {
                if is_debug(name.as_slice()) {
                    return Err(Stop::Stray(tokens.len()));
                }
                let own = copied(alloc, name.as_slice())?;
                Ok((own, rest))
            }
            _ => Err(Stop::Stray(tokens.len())),
        },
        _ => Err(Stop::Stray(0)),
    }
}

/// A number, and the tokens behind it.
pub fn int<'a>(tokens: &'a [Token]) -> Result<(i128, &'a [Token]), Stop>
    ensures { Gives (λ x. done x.0 (kinds x.1.now)) result (read an_int (kinds tokens.now)) }
{
    match tokens {
        [next, rest @ ..] => match &next.kind {
            TokenKind::Int(n) => Ok((*n, rest)),
            _ => Err(Stop::Stray(tokens.len())),
        },
        _ => Err(Stop::Stray(0)),
    }
}

/// Whether the next token is a `c".."`.
pub fn at_cstr(tokens: &[Token]) -> bool
    ensures { result ≡ starts (a_cstr_sort ∷ []) (kinds tokens.now) }
{
    match tokens {
        [next, ..] => matches!(next.kind, TokenKind::CStr(_)),
        _ => false,
    }
}

/// The bytes of a `c".."`, and the tokens behind it.
pub fn cstr<'a>(alloc: Global, tokens: &'a [Token]) -> Result<(List<u8>, &'a [Token]), Stop>
    ensures { Gives (λ x. done x.0 (kinds x.1.now)) result (read a_cstr (kinds tokens.now)) }
{
    match tokens {
        [next, rest @ ..] => match &next.kind {
            TokenKind::CStr(name) => {
                let own = copied(alloc, name.as_slice())?;
                Ok((own, rest))
            }
            _ => Err(Stop::Stray(tokens.len())),
        },
        _ => Err(Stop::Stray(0)),
    }
}

/// Whether the next token is a number.
pub fn at_int(tokens: &[Token]) -> bool
    ensures { result ≡ starts (count ∷ number ∷ []) (kinds tokens.now) }
{
    match tokens {
        [next, ..] => matches!(next.kind, TokenKind::Int(_)),
        _ => false,
    }
}
