//! Whether an initialiser is of a type: values, texts, and elements one by one.

ghost use Rattle.std.specs.Prelude.{◌≡◌, map};
ghost use Rattle.ir_core.specs.declared.ty.Ty.{out-Ty};
ghost use Rattle.ir_core.specs.Valid.{value_fits, text_fits, array_fits, fields_fit, struct_fits, opened, init_fits, fitted};
ghost use Rattle.ir_types.specs.Fitting.{elements_fit};

use crate::kinds::are_same;
use crate::operand::fits_constant;
use crate::same::is_same_ty;
use ir_core::init::{Elem, Init};
use ir_core::kind::Kind;
use ir_core::operand::Operand;
use ir_core::tables::Tables;
use ir_core::ty::Ty;
use rd_num::width::Width;

/// Whether a value is of a type; undef and poison are of any.
fn fits_value(tables: &Tables, ty: &Ty, v: &Operand) -> bool
    ensures { result ≡ value_fits tables.now ty.now v.now }
{
    match v {
        Operand::Undef | Operand::Poison => true,
        _ => fits_constant(tables, Kind::of(ty), v),
    }
}

/// Whether so many bytes are an array of bytes.
fn fits_text(bytes: &[u8], ty: &Ty) -> bool
    ensures { result ≡ text_fits bytes.now (out-Ty ty.now) }
{
    match ty {
        Ty::Array(n, of) => {
            bytes.len() == *n as usize && are_same(Kind::of(of.get()), Kind::Number(Width::W8))
        }
        _ => false,
    }
}

/// Whether all elements are of a type.
#[cycle(init)]
fn fits_elements(tables: &Tables, es: &[Elem], of: &Ty) -> bool
    ensures { result ≡ elements_fit tables.now of.now es.now }
{
    for e in es {
        if !(is_same_ty(&e.ty, of) && fits_init(tables, &e.init, &e.ty)) {
            return false;
        }
    }
    true
}

/// Whether elements are the fields of a struct.
#[cycle(init)]
fn fits_fields(tables: &Tables, es: &[Elem], fields: &[Ty]) -> bool
    ensures { result ≡ fields_fit (map (fitted tables.now) es.now) fields.now }
{
    if es.len() != fields.len() {
        return false;
    }
    for i in 0..es.len() {
        if !(is_same_ty(&es[i].ty, &fields[i]) && fits_init(tables, &es[i].init, &es[i].ty)) {
            return false;
        }
    }
    true
}

/// Whether elements are an array of a type.
#[cycle(init)]
fn fits_array(tables: &Tables, es: &[Elem], ty: &Ty) -> bool
    ensures { result ≡ array_fits (map (fitted tables.now) es.now) (out-Ty ty.now) }
{
    match ty {
        Ty::Array(n, of) => es.len() == *n as usize && fits_elements(tables, es, of.get()),
        _ => false,
    }
}

/// Whether elements are a struct, or a packed one, of a type; a name stands for its type.
#[cycle(init)]
fn fits_struct(tables: &Tables, packed: bool, es: &[Elem], ty: &Ty) -> bool
    ensures { result ≡ struct_fits packed (map (fitted tables.now) es.now)
        (opened tables.now.types (out-Ty ty.now)) }
{
    match ty {
        Ty::Named(name) => match tables.named_type(name) {
            Some(named) => fits_open(tables, packed, es, &named.fields),
            None => false,
        },
        _ => fits_open(tables, packed, es, ty),
    }
}

/// Whether elements are a struct, or a packed one, of a type that isn't a name.
#[cycle(init)]
fn fits_open(tables: &Tables, packed: bool, es: &[Elem], ty: &Ty) -> bool
    ensures { result ≡ struct_fits packed (map (fitted tables.now) es.now) (out-Ty ty.now) }
{
    match ty {
        Ty::Struct(fields) => !packed && fits_fields(tables, es, fields.as_slice()),
        Ty::Packed(fields) => packed && fits_fields(tables, es, fields.as_slice()),
        _ => false,
    }
}

/// Whether an initialiser is of a type.
#[cycle(init)]
pub fn fits_init(tables: &Tables, init: &Init, ty: &Ty) -> bool
    ensures { result ≡ init_fits tables.now init.now ty.now }
{
    match init {
        Init::Value(v) => fits_value(tables, ty, v),
        Init::Zero => true,
        Init::Text(bytes) => fits_text(bytes.as_slice(), ty),
        Init::Array(es) => fits_array(tables, es.as_slice(), ty),
        Init::Struct(es) => fits_struct(tables, false, es.as_slice(), ty),
        Init::Packed(es) => fits_struct(tables, true, es.as_slice(), ty),
    }
}
