//! Whether a module defines `main` with one of its two types: `i32 ()` or `i32 (i32, ptr)`.
//!
//! Source: ISO C, "Program startup".

ghost use Rattle.std.specs.Prelude.{◌≡◌, codes};
ghost use Rattle.ir_core.specs.Names.{same_name};
ghost use Rattle.ir_core.specs.Refusals.{is_main, main_of, has_main as starts};
ghost use Rattle.ir_names.specs.Start.{main_takes};

use ir_core::kind::Kind;
use ir_core::module::{Function, Param};
use ir_core::tables::Tables;
use ir_core::ty::Name;
use ir_types::kinds::are_same;
use rd_num::width::Width;

/// Whether a name is `main`. Takes no memory.
fn is_main_name(name: &Name) -> bool
    ensures { result ≡ same_name name.now (codes "main") }
{
    name.as_slice() == b"main".as_slice()
}

/// Whether parameters are those of `main`: none, or a number and a pointer. Takes no memory.
fn fits_params(params: &[Param]) -> bool
    ensures { result ≡ main_takes params.now }
{
    match params {
        [] => true,
        [count, words] => {
            are_same(Kind::of(&count.ty), Kind::Number(Width::W32))
                && are_same(Kind::of(&words.ty), Kind::Pointer)
        }
        _ => false,
    }
}

/// Whether a function has one of the types of `main`. Takes no memory.
fn fits_main(f: &Function) -> bool
    ensures { result ≡ is_main f.now }
{
    are_same(Kind::of(&f.ret), Kind::Number(Width::W32)) && fits_params(f.params.as_slice())
}

/// Whether `main` is there with one of its two types. Takes no memory.
pub fn has_main(tables: &Tables) -> bool
    ensures { result ≡ starts (main_of tables.now) }
{
    let whole = tables.whole();
    for f in whole.functions.as_slice() {
        if is_main_name(&f.name) {
            return fits_main(f);
        }
    }
    false
}
