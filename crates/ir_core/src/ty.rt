//! Types, and the types of a module that have a name.

use crate::names::Named as HasName;
use rd_num::boxed::Boxed;
use rd_num::list::List;
use rd_num::width::Width;

/// A name without the `@`, `%` or `:` that marks it in a text.
pub type Name = List<u8>;

/// A type. `Void` is only what a function or a call gives.
#[derive(Drop)]
pub enum Ty {
    Void,
    Int(Width),
    Ptr,
    Array(u32, Boxed<Ty>),
    Struct(List<Ty>),
    Packed(List<Ty>),
    Named(Name),
}

/// A named type, whose fields are a `Struct` or a `Packed`.
#[derive(Drop)]
pub struct NamedTy {
    pub name: Name,
    pub fields: Ty,
}

impl HasName for NamedTy {
    ghost name_of = { λ t. t.name };

    fn name(&self) -> &Name {
        &self.name
    }
}
