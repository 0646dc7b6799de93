//! Types, to any depth that a module has: 64 levels at most, so the recursion is as deep.

ghost use Rattle.std.specs.Prelude.{◌≡◌, ◌++◌, OnOk, map};
ghost use Rattle.ir_print.specs.Types.{width_text, type_text, braced};

use crate::names::{put_count, put_local};
use ir_core::ty::Ty;
use rd_num::list::List;
use rd_num::width::{NoMemory, Width};

// The word of a width.
fn width_word(width: Width) -> &'static [u8]
    ensures { result.now ≡ width_text width }
{
    match width {
        Width::W1 => b"i1",
        Width::W8 => b"i8",
        Width::W16 => b"i16",
        Width::W32 => b"i32",
        Width::W64 => b"i64",
    }
}

/// Appends a type.
#[cycle(types)]
pub fn put_type(text: &mut List<u8>, ty: &Ty) -> Result<(), NoMemory>
    ensures { OnOk result (text.new ≡ text.old ++ type_text ty.now) }
{
    match ty {
        Ty::Void => text.append(b"void"),
        Ty::Int(width) => text.append(width_word(*width)),
        Ty::Ptr => text.append(b"ptr"),
        Ty::Array(count, element) => {
            text.append(b"[")?;
            put_count(text, *count)?;
            text.append(b" x ")?;
            put_type(text, element.get())?;
            text.append(b"]")
        }
        Ty::Struct(fields) => put_fields(text, fields.as_slice()),
        Ty::Packed(fields) => {
            text.append(b"<")?;
            put_fields(text, fields.as_slice())?;
            text.append(b">")
        }
        Ty::Named(name) => put_local(text, name.as_slice()),
    }
}

// Appends the fields of a struct in braces.
#[cycle(types)]
fn put_fields(text: &mut List<u8>, fields: &[Ty]) -> Result<(), NoMemory>
    ensures { OnOk result (text.new ≡ text.old ++ braced (map type_text fields.now)) }
{
    if fields.is_empty() {
        return text.append(b"{}");
    }
    text.append(b"{ ")?;
    put_type(text, &fields[0])?;
    'others: for i in 1..fields.len() {
        text.append(b", ")?;
        put_type(text, &fields[i])?;
    }
    text.append(b" }")
}
