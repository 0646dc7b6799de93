//! Operands, and the places in globals that are known before a run.

use crate::ty::{Name, Ty};
use rd_num::list::List;

/// What an instruction reads. An integer is the number that was written; its type comes beside it.
#[derive(Drop)]
pub enum Operand {
    Int(i128),
    Bool(bool),
    Null,
    Undef,
    Poison,
    Local(Name),
    Global(Name),
    Const(Place0),
}

/// A constant `getelementptr` from a global.
#[derive(Drop)]
pub struct Place0 {
    pub source: Ty,
    pub base: Name,
    pub indices: List<Index0>,
}

/// A literal index with its type.
#[derive(Drop)]
pub struct Index0 {
    pub ty: Ty,
    pub value: i128,
}
