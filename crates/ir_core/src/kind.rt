//! What a type says of the values that a local can hold.

ghost use Rattle.std.specs.Prelude.{◌≡◌};
ghost use Rattle.ir_core.specs.Kinds.{kind_of};

use crate::ty::Ty;
use rd_num::width::Width;

/// A number of a width, a pointer, or nothing that a local can hold.
#[derive(Clone, Copy, PartialEq, Eq)]
pub enum Kind {
    NoValue,
    Number(Width),
    Pointer,
}

impl Kind {
    /// The kind of a type, by its outermost word. Takes no memory.
    pub fn of(ty: &Ty) -> Kind
        ensures { result ≡ kind_of ty.now }
    {
        match ty {
            Ty::Int(w) => Kind::Number(*w),
            Ty::Ptr => Kind::Pointer,
            Ty::Void | Ty::Array(_, _) | Ty::Struct(_) | Ty::Packed(_) | Ty::Named(_) => {
                Kind::NoValue
            }
        }
    }
}
