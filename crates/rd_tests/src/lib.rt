//! Tests of public calls, from the bottom to the top: worked rows, real files and streams.
//!
//! They stand apart from the crates that they are about, since a crate with tests is proved once more
//! with them. `decoded` is about `x86_decode`, `object_files` and `verified` about `obj_file` and
//! `obj_check`, `machine` and `watched` about `xom_machine` and `watch_script`, `commands`,
//! `certified` and `evaluated` about `rd_top`. Tests of texts stand in `ir_tests`, those of passes in `low_tests`.
#![tactic(auto)]

#[cfg(test)]
mod certified;
#[cfg(test)]
mod commands;
#[cfg(test)]
mod decoded;
#[cfg(test)]
mod evaluated;
#[cfg(test)]
mod machine;
#[cfg(test)]
mod object_files;
#[cfg(test)]
mod verified;
#[cfg(test)]
mod watched;
