//! Where the values that instructions read come from, with numbers in place of names.

ghost use Rattle.std.specs.Prelude.{◌≡◌, IfOk, map};
ghost use Rattle.ir_core.specs.Kinds.{zero_of};
ghost use Rattle.ir_core.specs.Operands.{global_number, function_number, named_value, int_value};
ghost use Rattle.ir_core.specs.Answers.{answered};
ghost use Rattle.ir_context.specs.Registers.{number_of};
ghost use Rattle.ir_context.specs.Origins.{known as known_of, register_of, index_origin, place_in, place_of, constant_origin, origin_of};

use crate::context::Context;
use crate::path::Path;
use ir_core::kind::Kind;
use ir_core::memory::Value;
use ir_core::names::NameSet;
use ir_core::operand::{Index0, Operand, Place0};
use ir_core::stop::Stop;
use ir_core::ty::Name;
use ir_core::values::{number, truth, zero};
use rd_num::list::List;
use rd_num::width::NoMemory;
use std::alloc::Global;

/// Where a value that is read comes from.
///
/// It is known before the run, or stands in a register of the call. A local that no register has was
/// given no value, and what has no meaning is malformed: neither stands in a valid module.
#[derive(Clone, Copy)]
pub enum Origin {
    Known(Value),
    Register(usize),
    Unset,
    Malformed,
}

/// A value that is known, where there is one.
fn known(answer: Result<Value, Stop>) -> Origin
    ensures { result ≡ known_of (answered answer) }
{
    match answer {
        Ok(v) => Origin::Known(v),
        Err(_) => Origin::Malformed,
    }
}

/// A literal of a kind.
fn literal(kind: Kind, n: i128) -> Origin
    ensures { result ≡ known_of (int_value kind n) }
{
    known(number(kind, n))
}

/// Zeros of a kind.
fn zeros(kind: Kind) -> Origin
    ensures { result ≡ known_of (zero_of kind) }
{
    known(zero(kind))
}

/// A local by the number of its name. Takes no memory.
pub fn local(names: &NameSet, name: &Name) -> Origin
    ensures { result ≡ register_of (number_of names.now name.now) }
{
    match names.number(name) {
        Some(k) => Origin::Register(k),
        None => Origin::Unset,
    }
}

/// Literal indices.
fn literals(alloc: Global, indices: &[Index0]) -> Result<List<Origin>, NoMemory>
    ensures { IfOk result (λ l. l ≡ map index_origin indices.now) }
{
    let mut origins = List::new(alloc);
    for i in indices {
        origins.add(literal(Kind::of(&i.ty), i.value))?;
    }
    Ok(origins)
}

/// The place to which a path leads from the start of a global, where all of it is known.
fn place_along(global: usize, path: &Path) -> Origin
    ensures { result ≡ place_in global path.now.constant path.now.strides }
{
    if path.strides.is_empty() {
        Origin::Known(Value::At(global as u64, path.constant))
    } else {
        Origin::Malformed
    }
}

/// A place, where there are a global and a path.
fn place(global: Option<usize>, path: &Option<Path>) -> Origin
    ensures { result ≡ place_of global path.now }
{
    match global {
        None => Origin::Malformed,
        Some(g) => match path {
            None => Origin::Malformed,
            Some(p) => place_along(g, p),
        },
    }
}

impl<'a> Context<'a> {
    /// What a name of a global or a function stands for. Takes no memory.
    fn named(&self, name: &Name) -> Origin
        ensures { result ≡ known_of (named_value (global_number self.now name.now)
            (function_number self.now name.now)) }
    {
        match self.global(name) {
            Some(g) => Origin::Known(Value::At(g as u64, 0)),
            None => match self.function(name) {
                Some(f) => Origin::Known(Value::Fun(f)),
                None => Origin::Malformed,
            },
        }
    }

    /// A constant place.
    fn constant(&self, alloc: Global, p: &Place0) -> Result<Origin, NoMemory>
        ensures { IfOk result (λ o. o ≡ constant_origin self.now p.now) }
    {
        let indices = literals(alloc, p.indices.as_slice())?;
        let path = self.path(alloc, &p.source, indices.as_slice())?;
        Ok(place(self.global(&p.base), &path))
    }

    /// An operand of a kind, where the registers are those of locals of these names.
    pub fn origin(
        &self,
        alloc: Global,
        names: &NameSet,
        kind: Kind,
        a: &Operand,
    ) -> Result<Origin, NoMemory>
        ensures { IfOk result (λ o. o ≡ origin_of self.now names.now kind a.now) }
    {
        match a {
            Operand::Int(n) => Ok(literal(kind, *n)),
            Operand::Bool(b) => Ok(Origin::Known(truth(*b))),
            Operand::Null => Ok(Origin::Known(Value::Null)),
            Operand::Undef => Ok(zeros(kind)),
            Operand::Poison => Ok(zeros(kind)),
            Operand::Local(name) => Ok(local(names, name)),
            Operand::Global(name) => Ok(self.named(name)),
            Operand::Const(p) => self.constant(alloc, p),
        }
    }
}
