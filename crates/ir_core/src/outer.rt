//! The functions that a module may declare: those of the world outside.

ghost use Rattle.std.specs.Prelude.{◌≡◌};
ghost use Rattle.ir_core.specs.Calls.{outer_of};
ghost use Rattle.ir_core.specs.Names.{same_name};

use crate::ty::Name;

/// A function outside of modules, or none of them.
#[derive(Clone, Copy, PartialEq, Eq)]
pub enum Outer {
    Putchar,
    Getchar,
    Exit,
    Memcpy,
    Memset,
    TrapNow,
    Lifetime,
    NoOuter,
}

/// Whether a name is a text. Takes no memory.
fn is_named(name: &Name, text: &[u8]) -> bool
    ensures { result ≡ same_name name.now text.now }
{
    name.as_slice() == text
}

impl Outer {
    /// The function of a name. Takes no memory.
    pub fn of(name: &Name) -> Outer
        ensures { result ≡ outer_of name.now }
    {
        if is_named(name, b"putchar") {
            Outer::Putchar
        } else if is_named(name, b"getchar") {
            Outer::Getchar
        } else if is_named(name, b"exit") {
            Outer::Exit
        } else if is_named(name, b"llvm.memcpy.p0.p0.i64") {
            Outer::Memcpy
        } else if is_named(name, b"llvm.memset.p0.i64") {
            Outer::Memset
        } else if is_named(name, b"llvm.trap") {
            Outer::TrapNow
        } else if is_named(name, b"llvm.lifetime.start.p0")
            || is_named(name, b"llvm.lifetime.end.p0")
        {
            Outer::Lifetime
        } else {
            Outer::NoOuter
        }
    }
}
