//! Grammars of tokens with values, and how they are read by one token ahead.
//!
//! `specs/Grammar` says which tokens derive from a grammar and with what value, which tokens a text
//! of the grammar may begin with (`Viable`), and where tokens stop being the front of a text
//! (`Stray`). `specs/Tokens` has what a grammar can ask of one token. `specs/Reading` has the reader
//! and the test that one token ahead is enough; that the reader then meets the grammar on both sides
//! is proved once for every grammar, in `proofs/Exact`. `cursor` reads single tokens, `bracket` groups.
#![tactic(auto)]

pub mod bracket;
pub mod cursor;
