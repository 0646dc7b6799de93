//! Initialisers of globals, to any depth that a module has: 64 levels at most.

ghost use Rattle.std.specs.Prelude.{◌≡◌, ◌++◌, OnOk, codes, map};
ghost use Rattle.ir_print.specs.Types.{braced};
ghost use Rattle.ir_print.specs.Initialisers.{init_text, element_text, bracketed};

use crate::names::put_string;
use crate::types::put_type;
use crate::values::put_operand;
use ir_core::init::{Elem, Init};
use rd_num::list::List;
use rd_num::width::NoMemory;

/// Appends an initialiser.
#[cycle(initialiser)]
pub fn put_init(text: &mut List<u8>, init: &Init) -> Result<(), NoMemory>
    ensures { OnOk result (text.new ≡ text.old ++ init_text init.now) }
{
    match init {
        Init::Value(operand) => put_operand(text, operand),
        Init::Zero => text.append(b"zeroinitializer"),
        Init::Text(bytes) => put_string(text, bytes.as_slice()),
        Init::Array(elements) => put_bracketed(text, elements.as_slice()),
        Init::Struct(elements) => put_braced(text, elements.as_slice()),
        Init::Packed(elements) => put_angled(text, elements.as_slice()),
    }
}

// Appends elements in brackets.
#[cycle(initialiser)]
fn put_bracketed(text: &mut List<u8>, elements: &[Elem]) -> Result<(), NoMemory>
    ensures { OnOk result (text.new ≡ text.old ++ bracketed (map element_text elements.now)) }
{
    if elements.is_empty() {
        return text.append(b"[]");
    }
    text.append(b"[ ")?;
    put_element(text, &elements[0])?;
    'others: for i in 1..elements.len() {
        text.append(b", ")?;
        put_element(text, &elements[i])?;
    }
    text.append(b" ]")
}

// Appends elements in braces.
#[cycle(initialiser)]
fn put_braced(text: &mut List<u8>, elements: &[Elem]) -> Result<(), NoMemory>
    ensures { OnOk result (text.new ≡ text.old ++ braced (map element_text elements.now)) }
{
    if elements.is_empty() {
        return text.append(b"{}");
    }
    text.append(b"{ ")?;
    put_element(text, &elements[0])?;
    'others: for i in 1..elements.len() {
        text.append(b", ")?;
        put_element(text, &elements[i])?;
    }
    text.append(b" }")
}

// Appends elements in braces and angles.
#[cycle(initialiser)]
fn put_angled(text: &mut List<u8>, elements: &[Elem]) -> Result<(), NoMemory>
    ensures { OnOk result (text.new ≡ text.old ++
        (codes "<" ++ braced (map element_text elements.now) ++ codes ">")) }
{
    text.append(b"<")?;
    put_braced(text, elements)?;
    text.append(b">")
}

// Appends an element behind its type.
#[cycle(initialiser)]
fn put_element(text: &mut List<u8>, element: &Elem) -> Result<(), NoMemory>
    ensures { OnOk result (text.new ≡ text.old ++ element_text element.now) }
{
    put_type(text, &element.ty)?;
    text.append(b" ")?;
    put_init(text, &element.init)
}
