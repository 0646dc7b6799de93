//! The names of whole modules: a module in, the first name that is wrong out.
//!
//! `doubled` finds a name that is defined a second time, `unknown` one that has no definition of the
//! kind that its place needs, `external` one that stands for something outside and is used wrongly,
//! and `start` looks for `main`. `mention` lists what a text mentions; `marked` has names with their
//! marks. The rules stand in `ir_core`, `specs/Definitions` and `specs/Refusals`. Time and memory are
//! near linear in the module: names are lent and found by sets, and only an answer's name is copied.
#![tactic(auto)]

pub mod doubled;
pub mod external;
pub mod marked;
pub mod mention;
pub mod start;
pub mod unknown;
