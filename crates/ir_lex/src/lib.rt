//! The tokens of a module's text, each with its place: bytes in, tokens or the first stray byte out.
//!
//! Space, tab, carriage return and line feed separate tokens; `;` begins a comment that ends before a
//! line feed or with the text. Places are byte offsets from 0. Which bytes spell which token stands in
//! `specs/Tokens.antt`; that a text has one list of tokens at most, and faults at one place, in `laws`.
#![tactic(auto)]

ghost use Rattle.std.specs.Prelude.{◌≤◌, length, IfOk, IfErr};
ghost use Rattle.ir_lex.specs.Tokens.{Scans, Faults};

mod class;
mod escape;
mod first;
pub mod laws;
mod number;
#[cfg(test)]
mod tests;
pub mod token;

use crate::first::{Found, find};
use crate::token::Token;
use rd_num::list::List;
use std::alloc::Global;

/// Why a text has no tokens: at `place` begins the first piece that is no token, or memory is wanting.
#[derive(Clone, Copy, Debug)]
pub enum LexFault {
    At { place: u64 },
    NoMemory,
}

/// The tokens of a text, in order.
///
/// There are no more tokens than bytes. `At` comes exactly where the text is no row of separators, comments and tokens; its place is the
/// first byte of the first piece that is none of them. Takes time and memory linear in the text.
pub fn lex(alloc: Global, text: &[u8]) -> Result<List<Token>, LexFault>
    ensures tokens { IfOk result (λ tokens. Scans text.now tokens) }
    ensures few { IfOk result (λ tokens. length tokens ≤ length text.now) }
    ensures fault { IfErr result (λ fault. Faults text.now fault) }
{
    let mut tokens = List::new(alloc);
    let mut place = 0;
    while place < text.len() {
        match find(alloc, &text[place..]) {
            Err(_) => return Err(LexFault::NoMemory),
            Ok(Found::Stray) => {
                return Err(LexFault::At {
                    place: place as u64,
                });
            }
            Ok(Found::Gap(len)) => place += len,
            Ok(Found::Token(kind, len)) => {
                let token = Token {
                    kind,
                    place: place as u64,
                    len: len as u64,
                };
                match tokens.add(token) {
                    Ok(()) => place += len,
                    Err(_) => return Err(LexFault::NoMemory),
                }
            }
        }
    }
    Ok(tokens)
}
