//! What one function's instructions share: the names of its module, and its variables.

use crate::variables::Variables;
use ir_context::context::Context;
use std::alloc::Global;

/// The variables of a function within the names of its module.
#[derive(Drop)]
pub(crate) struct Selector<'c, 'a> {
    pub(crate) alloc: Global,
    pub(crate) context: &'c Context<'a>,
    pub(crate) variables: &'c Variables<'a>,
}
