//! Instructions, blocks and modules: tokens in, the module or the first stray token out.
//!
//! Each class of the grammar of `ir_syntax` has one function, which looks at one token at a time and
//! gives what reading that class gives: the value with the tokens behind it, or how many tokens are left
//! at the first stray one. `parse` reads all tokens and tells the place.
//! Source: LLVM Language Reference, in the integer profile of docs/languages.md.
#![tactic(auto)]

pub mod block;
pub mod call;
pub mod declaration;
pub mod function;
pub mod inst;
pub mod instruction;
pub mod item;
pub mod laws;
pub mod module;
pub mod parse;
pub mod terminator;
