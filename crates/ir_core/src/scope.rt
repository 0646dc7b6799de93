//! What the names in a function stand for: the kinds of its locals and the numbers of its blocks.
//!
//! Locals are its parameters and the results of its instructions. A function goes in of which no name
//! is defined twice; it is lent.

ghost use Rattle.std.specs.Prelude.{◌≡◌, ◌++◌, ◌∷◌, [], false, map, IfOk, OnOk};
ghost use Rattle.ir_core.specs.Definitions.{repeated, is_among, local_names, label_names};
ghost use Rattle.ir_core.specs.Names.{same_name, number_where};
ghost use Rattle.ir_core.specs.Typing.{kind_given};
ghost use Rattle.ir_core.specs.Valid.{locals_of, param_kind, inst_local, kinds_in, results_of, named_locals, local_kinds, env_of};

use crate::instruction::{Inst, Op};
use crate::kind::Kind;
use crate::module::{Block, Function, Param};
use crate::names::{NameSet, names_of};
use crate::ty::Name;
use rd_num::list::List;
use rd_num::width::{NoMemory, Width};
use std::alloc::Global;
use std::marker::Model;

/// The kind of what an instruction gives; `NoValue` where it gives nothing. Takes no memory.
pub fn result_kind(op: &Op) -> Kind
    ensures { result ≡ kind_given op.now }
{
    match op {
        Op::Bin(_, ty, _, _) => Kind::of(ty),
        Op::Compare(_, _, _, _) => Kind::Number(Width::W1),
        Op::Cast(_, _, _, to) => Kind::of(to),
        Op::Select(_, ty, _, _, _) => Kind::of(ty),
        Op::Freeze(ty, _) => Kind::of(ty),
        Op::Alloca(_, _) => Kind::Pointer,
        Op::Load(ty, _) => Kind::of(ty),
        Op::Store(_, _, _) => Kind::NoValue,
        Op::Gep(_, _, _) => Kind::Pointer,
        Op::Phi(ty, _) => Kind::of(ty),
        Op::Call(ret, _, _) => Kind::of(ret),
    }
}

/// Locals by their names, with their kinds in the same order.
#[derive(Drop)]
struct Locals<'a> {
    names: NameSet<'a>,
    kinds: List<Kind>,
}

impl<'a> Locals<'a> {
    /// Adds a local, whose name is new.
    fn add(&mut self, name: &'a Name, kind: Kind) -> Result<(), NoMemory>
        requires { is_among self.old.names name.now ≡ false }
        ensures named { OnOk result (self.new.names ≡ self.old.names ++ name.now ∷ []) }
        ensures known { OnOk result (self.new.kinds ≡ self.old.kinds ++ kind ∷ []) }
    {
        self.names.add(name)?;
        self.kinds.add(kind)
    }

    /// Adds parameters.
    fn add_params(&mut self, params: &'a [Param]) -> Result<(), NoMemory>
        requires { repeated self.old.names (named_locals (map param_kind params.now)) ≡ [] }
        ensures named { OnOk result (self.new.names ≡ self.old.names ++
            named_locals (map param_kind params.now)) }
        ensures known { OnOk result (self.new.kinds ≡ self.old.kinds ++
            local_kinds (map param_kind params.now)) }
    {
        for p in params {
            self.add(&p.name, Kind::of(&p.ty))?;
        }
        Ok(())
    }

    /// Adds the result of an instruction, where it has one.
    fn add_result(&mut self, i: &'a Inst) -> Result<(), NoMemory>
        requires { repeated self.old.names (named_locals (inst_local i.now)) ≡ [] }
        ensures named { OnOk result (self.new.names ≡ self.old.names ++
            named_locals (inst_local i.now)) }
        ensures known { OnOk result (self.new.kinds ≡ self.old.kinds ++
            local_kinds (inst_local i.now)) }
    {
        match &i.result {
            Some(name) => self.add(name, result_kind(&i.op)),
            None => Ok(()),
        }
    }

    /// Adds the results of instructions.
    fn add_results(&mut self, insts: &'a [Inst]) -> Result<(), NoMemory>
        requires { repeated self.old.names (named_locals (kinds_in insts.now)) ≡ [] }
        ensures named { OnOk result (self.new.names ≡ self.old.names ++
            named_locals (kinds_in insts.now)) }
        ensures known { OnOk result (self.new.kinds ≡ self.old.kinds ++
            local_kinds (kinds_in insts.now)) }
    {
        for i in insts {
            self.add_result(i)?;
        }
        Ok(())
    }

    /// Adds the results of blocks.
    fn add_blocks(&mut self, blocks: &'a [Block]) -> Result<(), NoMemory>
        requires { repeated self.old.names (named_locals (results_of blocks.now)) ≡ [] }
        ensures named { OnOk result (self.new.names ≡ self.old.names ++
            named_locals (results_of blocks.now)) }
        ensures known { OnOk result (self.new.kinds ≡ self.old.kinds ++
            local_kinds (results_of blocks.now)) }
    {
        for b in blocks {
            self.add_results(b.insts.as_slice())?;
        }
        Ok(())
    }
}

/// The names of a function.
#[derive(Drop)]
pub struct Scope<'a> {
    function: &'a Function,
    locals: Locals<'a>,
    labels: NameSet<'a>,
}

impl<'a> Model for Scope<'a> {
    ghost use Rattle.std.specs.Prelude.{◌≡◌};
    ghost use Rattle.std.specs.Coded.{codes};
    ghost use Rattle.ir_core.specs.contracts.ty.Ty as ty;
    ghost use Rattle.ir_core.specs.declared.module.Function.{Function as WholeFunction};
    ghost use Rattle.ir_core.specs.Definitions.{label_names};
    ghost use Rattle.ir_core.specs.Valid.{locals_of, named_locals, local_kinds};

    ghost Value = { WholeFunction };

    ghost coded = { Prim.hlevel (codes, ty.the_row.coded) };

    ghost view = { λ s. s.function.now };

    ghost invariant = { λ s. (s.locals.names ≡ named_locals (locals_of s.function.now))
        × (s.locals.kinds ≡ local_kinds (locals_of s.function.now))
        × (s.labels ≡ label_names s.function.now) };
}

/// The locals of a function.
fn locals_in<'a>(alloc: Global, f: &'a Function) -> Result<Locals<'a>, NoMemory>
    requires { repeated [] (local_names f.now) ≡ [] }
    ensures named { IfOk result (λ l. l.names ≡ named_locals (locals_of f.now)) }
    ensures known { IfOk result (λ l. l.kinds ≡ local_kinds (locals_of f.now)) }
{
    let mut locals = Locals {
        names: NameSet::new(alloc),
        kinds: List::new(alloc),
    };
    locals.add_params(f.params.as_slice())?;
    locals.add_blocks(f.blocks.as_slice())?;
    Ok(locals)
}

impl<'a> Scope<'a> {
    /// The names of a function.
    pub fn new(alloc: Global, function: &'a Function) -> Result<Scope<'a>, NoMemory>
        requires { repeated [] (local_names function.now) ≡ [] }
        ensures { IfOk result (λ s. s ≡ function.now) }
    {
        let locals = locals_in(alloc, function)?;
        let labels = names_of(alloc, function.blocks.as_slice())?;
        Ok(Scope {
            function,
            locals,
            labels,
        })
    }

    /// The function. Takes no memory.
    pub fn function(&self) -> &'a Function
        ensures { result.now ≡ self.now }
    {
        self.function
    }

    /// The labels of its blocks. Takes no memory.
    pub fn labels(&self) -> &NameSet<'a>
        ensures { result.now ≡ label_names self.now }
    {
        &self.labels
    }

    /// The names of its parameters and results. Takes no memory.
    pub fn locals(&self) -> &NameSet<'a>
        ensures { result.now ≡ named_locals (locals_of self.now) }
    {
        &self.locals.names
    }

    /// The kind of a local, or `None` where no local has the name. Takes no memory.
    pub fn kind(&self, name: &Name) -> Option<Kind>
        ensures { result ≡ env_of self.now name.now }
    {
        match self.locals.names.number(name) {
            Some(k) => self.locals.kinds.get(k).copied(),
            None => None,
        }
    }

    /// The number of the block of a label. Takes no memory.
    pub fn block(&self, label: &Name) -> Option<usize>
        ensures { result ≡ number_where (λ n. same_name n label.now) (label_names self.now) }
    {
        self.labels.number(label)
    }
}
