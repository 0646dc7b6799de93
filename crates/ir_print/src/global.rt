//! Named types and globals, a line each.

ghost use Rattle.std.specs.Prelude.{◌≡◌, ◌++◌, OnOk};
ghost use Rattle.ir_print.specs.Canonical.{named_type_text, storage_word, global_line};

use crate::initialiser::put_init;
use crate::names::{put_global_name, put_local};
use crate::types::put_type;
use ir_core::module::GlobalVar;
use ir_core::ty::NamedTy;
use rd_num::list::List;
use rd_num::width::NoMemory;

/// Appends the line of a named type.
#[tactic(auto, unfolding(crate::specs::Canonical::named_type_text))]
pub fn put_named_type(text: &mut List<u8>, named: &NamedTy) -> Result<(), NoMemory>
    ensures { OnOk result (text.new ≡ text.old ++ named_type_text named.now) }
{
    put_local(text, named.name.as_slice())?;
    text.append(b" = type ")?;
    put_type(text, &named.fields)?;
    text.append(b"\n")
}

// Whether a global is written or only read.
fn storage(constant: bool) -> &'static [u8]
    ensures { result.now ≡ storage_word constant }
{
    if constant { b"constant" } else { b"global" }
}

/// Appends the line of a global.
#[tactic(auto, unfolding(crate::specs::Canonical::global_line))]
pub fn put_global(text: &mut List<u8>, variable: &GlobalVar) -> Result<(), NoMemory>
    ensures { OnOk result (text.new ≡ text.old ++ global_line variable.now) }
{
    put_global_name(text, variable.name.as_slice())?;
    text.append(b" = ")?;
    text.append(storage(variable.constant))?;
    text.append(b" ")?;
    put_type(text, &variable.ty)?;
    text.append(b" ")?;
    put_init(text, &variable.init)?;
    text.append(b"\n")
}
