//! Tests of the passes of the compiler, over modules that are read and checked.
//!
//! They stand apart from the crates that they are about, since a crate with tests is proved once more
//! with them. `lowered` is about `phi_lower` and `switch_lower`, `placed` about `data_place`, `homes`
//! about `regalloc`.
#![tactic(auto)]

#[cfg(test)]
mod homes;
#[cfg(test)]
mod lowered;
#[cfg(test)]
mod placed;
