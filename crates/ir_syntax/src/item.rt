//! The items of a module text, one behind another, before they are sorted into a module.

use ir_core::module::{Extern, Function, GlobalVar};
use ir_core::ty::NamedTy;

/// An item of a module text. `Nothing` is one that leaves no trace in the module.
#[derive(Drop)]
pub enum Item {
    Type(NamedTy),
    Global(GlobalVar),
    Extern(Extern),
    Function(Function),
    Nothing,
}
