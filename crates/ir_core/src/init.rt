//! What a global holds when a run begins.

use crate::operand::Operand;
use crate::ty::Ty;
use rd_num::list::List;

/// An initialiser. `Zero` is `zeroinitializer`, and a `Text` is the bytes of a `c"..."`.
#[cycle(init)]
#[derive(Drop)]
pub enum Init {
    Value(Operand),
    Zero,
    Text(List<u8>),
    Array(List<Elem>),
    Struct(List<Elem>),
    Packed(List<Elem>),
}

/// One element of an initialiser, with its type.
#[cycle(init)]
#[derive(Drop)]
pub struct Elem {
    pub ty: Ty,
    pub init: Init,
}
