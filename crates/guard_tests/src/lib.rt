//! Tests of the checker of guards, over objects that the verifier takes.
//!
//! They stand apart from `guard_check`, which doesn't stand on the verifier.
#![tactic(auto)]

#[cfg(test)]
mod certified;
