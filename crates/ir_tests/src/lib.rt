//! Tests of reading and printing modules: tables of texts, and of modules that are made by hand.
//!
//! They stand apart from the crates that they are about, since a crate with tests is proved once more
//! with them. `texts` is about `ir_parse`, `printed` about `ir_print`.
#![tactic(auto)]

#[cfg(test)]
mod printed;
#[cfg(test)]
mod texts;
