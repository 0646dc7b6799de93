//! The syntax of module texts, and the readers of its smaller classes.
//!
//! `specs/` has the whole grammar, with a value for each text: `specs/ModuleText` says which tokens are
//! a module's, and the files that it names have the classes, each under its production. The sources
//! here read words, types, values, initialisers, parameters and arguments at the front of a row of
//! tokens, and give what is left behind them; instructions and what holds them are read in `ir_parse`.
//! Source: LLVM Language Reference, in the integer profile of docs/languages.md.
#![tactic(auto)]

pub mod arguments;
pub mod initialiser;
pub mod item;
pub mod metadata;
pub mod names;
pub mod parameter;
pub mod traceless;
pub mod types;
pub mod values;
pub mod words;
