//! What the text of a module mentions, in the order of the text.
//!
//! A mention is a type, or a name with what its place needs to be defined by it. Mentions are lent, and
//! contracts see a row of them as the row of what is mentioned, as `ir_core`, `specs/Mentions`, has it.

ghost use Rattle.std.specs.Prelude.{◌≡◌, ◌++◌, ◌∷◌, [], map, IfOk, OnOk};
ghost use Rattle.std.specs.List.{flat_map};
ghost use Rattle.ir_core.specs.declared.ty.Ty.{Ty as OneTy};
ghost use Rattle.ir_core.specs.declared.module.Param.{Param as OneParam};
ghost use Rattle.ir_core.specs.declared.operand.Operand.TheVariants.{Const};
ghost use Rattle.ir_core.specs.Mentions.{OfType as of_type, OfLabel as of_label, of_operand, of_indices, of_typed, of_args, of_entries, of_callee, of_op, of_cases, of_end, of_block, of_function, of_init, of_global, of_extern, outside_functions};
ghost use Rattle.ir_names.specs.Rows.{element_mentions, insts_mention, named_mention};
ghost use Rattle.ir_names.specs.Seen.{seen, all_seen};

use ir_core::init::{Elem, Init};
use ir_core::instruction::{Arg, Case, Entry, Inst, Op, Term};
use ir_core::module::{Block, Extern, Function, GlobalVar, Module, Param};
use ir_core::operand::{Index0, Operand, Place0};
use ir_core::ty::{Name, NamedTy, Ty};
use rd_num::list::List;
use rd_num::width::NoMemory;
use std::alloc::Global;
use std::marker::Model;

/// A type, or a name that stands for a block, a parameter or result, a function, a global, or a global
/// or function.
#[derive(Clone, Copy)]
pub enum Mention<'a> {
    OfType(&'a Ty),
    OfLabel(&'a Name),
    OfLocal(&'a Name),
    OfCallee(&'a Name),
    OfBase(&'a Name),
    OfSymbol(&'a Name),
}

/// Mentions in the order of a text.
#[derive(Drop)]
pub struct Mentions<'a> {
    kept: List<Mention<'a>>,
}

impl<'a> Model for Mentions<'a> {
    ghost use Rattle.std.specs.Prelude.{List as Row};
    ghost use Rattle.std.specs.Coded.{codes};
    ghost use Rattle.ir_core.specs.contracts.ty.Ty as ty;
    ghost use Rattle.ir_core.specs.Mentions.{Mention as Mentioned};
    ghost use Rattle.ir_names.specs.Seen.{all_seen};

    ghost Value = { Row Mentioned };

    ghost coded = { Prim.hlevel (codes, ty.the_row.coded) };

    ghost view = { λ s. all_seen s.kept };
}

impl<'a> Mentions<'a> {
    /// No mention. Takes no memory.
    fn new(alloc: Global) -> Mentions<'a>
        ensures { result ≡ [] }
    {
        Mentions {
            kept: List::new(alloc),
        }
    }

    /// The mentions. Takes no memory.
    pub fn as_slice(&self) -> &[Mention<'a>]
        ensures { all_seen result.now ≡ self.now }
    {
        self.kept.as_slice()
    }

    /// Adds one.
    fn add(&mut self, mention: Mention<'a>) -> Result<(), NoMemory>
        ensures { OnOk result (self.new ≡ self.old ++ seen mention.entry ∷ []) }
    {
        self.kept.add(mention)
    }

    /// Adds a type.
    fn add_type(&mut self, ty: &'a Ty) -> Result<(), NoMemory>
        ensures { OnOk result (self.new ≡ self.old ++ of_type ty.now ∷ []) }
    {
        self.add(Mention::OfType(ty))
    }

    /// Adds a label.
    fn add_label(&mut self, label: &'a Name) -> Result<(), NoMemory>
        ensures { OnOk result (self.new ≡ self.old ++ of_label label.now ∷ []) }
    {
        self.add(Mention::OfLabel(label))
    }

    /// Adds types.
    fn add_types(&mut self, types: &'a [Ty]) -> Result<(), NoMemory>
        ensures { OnOk result (self.new ≡ self.old ++
            map (λ (t : OneTy). of_type t) types.now) }
    {
        for t in types {
            self.add_type(t)?;
        }
        Ok(())
    }

    /// Adds what literal indices mention.
    fn add_indices(&mut self, indices: &'a [Index0]) -> Result<(), NoMemory>
        ensures { OnOk result (self.new ≡ self.old ++ of_indices indices.now) }
    {
        for index in indices {
            self.add_type(&index.ty)?;
        }
        Ok(())
    }

    /// Adds what a constant place mentions.
    fn add_place(&mut self, place: &'a Place0) -> Result<(), NoMemory>
        ensures { OnOk result (self.new ≡ self.old ++ of_operand (Const place.now)) }
    {
        self.add_type(&place.source)?;
        self.add(Mention::OfBase(&place.base))?;
        self.add_indices(place.indices.as_slice())
    }

    /// Adds what an operand mentions.
    fn add_operand(&mut self, a: &'a Operand) -> Result<(), NoMemory>
        ensures { OnOk result (self.new ≡ self.old ++ of_operand a.now) }
    {
        match a {
            Operand::Local(name) => self.add(Mention::OfLocal(name)),
            Operand::Global(name) => self.add(Mention::OfSymbol(name)),
            Operand::Const(place) => self.add_place(place),
            _ => Ok(()),
        }
    }

    /// Adds what an operand with its type in front mentions.
    fn add_typed(&mut self, ty: &'a Ty, a: &'a Operand) -> Result<(), NoMemory>
        ensures { OnOk result (self.new ≡ self.old ++ of_typed ty.now a.now) }
    {
        self.add_type(ty)?;
        self.add_operand(a)
    }

    /// Adds what arguments or indices mention.
    fn add_args(&mut self, args: &'a [Arg]) -> Result<(), NoMemory>
        ensures { OnOk result (self.new ≡ self.old ++ of_args args.now) }
    {
        for arg in args {
            self.add_typed(&arg.ty, &arg.value)?;
        }
        Ok(())
    }

    /// Adds what an entry of a phi mentions.
    fn add_entry(&mut self, e: &'a Entry) -> Result<(), NoMemory>
        ensures { OnOk result (self.new ≡ self.old ++
            (of_operand e.now.value ++ of_label e.now.from ∷ [])) }
    {
        self.add_operand(&e.value)?;
        self.add_label(&e.from)
    }

    /// Adds what entries of a phi mention.
    fn add_entries(&mut self, entries: &'a [Entry]) -> Result<(), NoMemory>
        ensures { OnOk result (self.new ≡ self.old ++ of_entries entries.now) }
    {
        for e in entries {
            self.add_entry(e)?;
        }
        Ok(())
    }

    /// Adds a callee.
    fn add_callee(&mut self, callee: &'a Operand) -> Result<(), NoMemory>
        ensures { OnOk result (self.new ≡ self.old ++ of_callee callee.now) }
    {
        match callee {
            Operand::Global(name) => self.add(Mention::OfCallee(name)),
            _ => self.add_operand(callee),
        }
    }

    /// Adds two operands, the first with its type in front.
    fn add_pair(&mut self, ty: &'a Ty, a: &'a Operand, b: &'a Operand) -> Result<(), NoMemory>
        ensures { OnOk result (self.new ≡ self.old ++ (of_typed ty.now a.now ++ of_operand b.now)) }
    {
        self.add_typed(ty, a)?;
        self.add_operand(b)
    }

    /// Adds what an instruction mentions.
    fn add_op(&mut self, op: &'a Op) -> Result<(), NoMemory>
        ensures { OnOk result (self.new ≡ self.old ++ of_op op.now) }
    {
        match op {
            Op::Bin(_, ty, a, b) => self.add_pair(ty, a, b),
            Op::Compare(_, ty, a, b) => self.add_pair(ty, a, b),
            Op::Cast(_, from, a, to) => {
                self.add_typed(from, a)?;
                self.add_type(to)
            }
            Op::Select(condition, ty, a, ty2, b) => {
                self.add_operand(condition)?;
                self.add_typed(ty, a)?;
                self.add_typed(ty2, b)
            }
            Op::Freeze(ty, a) => self.add_typed(ty, a),
            Op::Alloca(ty, _) => self.add_type(ty),
            Op::Load(ty, p) => self.add_typed(ty, p),
            Op::Store(ty, a, p) => self.add_pair(ty, a, p),
            Op::Gep(source, p, indices) => {
                self.add_typed(source, p)?;
                self.add_args(indices.as_slice())
            }
            Op::Phi(ty, entries) => {
                self.add_type(ty)?;
                self.add_entries(entries.as_slice())
            }
            Op::Call(ret, callee, args) => {
                self.add_type(ret)?;
                self.add_callee(callee)?;
                self.add_args(args.as_slice())
            }
        }
    }

    /// Adds what a case mentions.
    fn add_case(&mut self, c: &'a Case) -> Result<(), NoMemory>
        ensures { OnOk result (self.new ≡ self.old ++
            (of_typed c.now.ty c.now.value ++ of_label c.now.to ∷ [])) }
    {
        self.add_typed(&c.ty, &c.value)?;
        self.add_label(&c.to)
    }

    /// Adds what cases mention.
    fn add_cases(&mut self, cases: &'a [Case]) -> Result<(), NoMemory>
        ensures { OnOk result (self.new ≡ self.old ++ of_cases cases.now) }
    {
        for c in cases {
            self.add_case(c)?;
        }
        Ok(())
    }

    /// Adds what a terminator mentions.
    fn add_end(&mut self, end: &'a Term) -> Result<(), NoMemory>
        ensures { OnOk result (self.new ≡ self.old ++ of_end end.now) }
    {
        match end {
            Term::Ret | Term::Unreachable => Ok(()),
            Term::RetValue(ty, a) => self.add_typed(ty, a),
            Term::Br(to) => self.add_label(to),
            Term::BrIf(condition, taken, other) => {
                self.add_operand(condition)?;
                self.add_label(taken)?;
                self.add_label(other)
            }
            Term::Switch(ty, a, default, cases) => {
                self.add_typed(ty, a)?;
                self.add_label(default)?;
                self.add_cases(cases.as_slice())
            }
        }
    }

    /// Adds what instructions mention.
    fn add_insts(&mut self, insts: &'a [Inst]) -> Result<(), NoMemory>
        ensures { OnOk result (self.new ≡ self.old ++ insts_mention insts.now) }
    {
        for i in insts {
            self.add_op(&i.op)?;
        }
        Ok(())
    }

    /// Adds what a block mentions.
    fn add_block(&mut self, b: &'a Block) -> Result<(), NoMemory>
        ensures { OnOk result (self.new ≡ self.old ++ of_block b.now) }
    {
        self.add_insts(b.insts.as_slice())?;
        self.add_end(&b.end)
    }

    /// Adds what blocks mention.
    fn add_blocks(&mut self, blocks: &'a [Block]) -> Result<(), NoMemory>
        ensures { OnOk result (self.new ≡ self.old ++ flat_map of_block blocks.now) }
    {
        for b in blocks {
            self.add_block(b)?;
        }
        Ok(())
    }

    /// Adds the types of parameters.
    fn add_params(&mut self, params: &'a [Param]) -> Result<(), NoMemory>
        ensures { OnOk result (self.new ≡ self.old ++
            map (λ (p : OneParam). of_type p.ty) params.now) }
    {
        for p in params {
            self.add_type(&p.ty)?;
        }
        Ok(())
    }

    /// Adds what a function mentions.
    fn add_function(&mut self, f: &'a Function) -> Result<(), NoMemory>
        ensures { OnOk result (self.new ≡ self.old ++ of_function f.now) }
    {
        self.add_type(&f.ret)?;
        self.add_params(f.params.as_slice())?;
        self.add_blocks(f.blocks.as_slice())
    }

    /// Adds what elements of an initialiser mention.
    #[cycle(init)]
    fn add_elements(&mut self, es: &'a [Elem]) -> Result<(), NoMemory>
        ensures { OnOk result (self.new ≡ self.old ++ flat_map element_mentions es.now) }
    {
        for e in es {
            self.add_type(&e.ty)?;
            self.add_init(&e.init)?;
        }
        Ok(())
    }

    /// Adds what an initialiser mentions.
    #[cycle(init)]
    fn add_init(&mut self, init: &'a Init) -> Result<(), NoMemory>
        ensures { OnOk result (self.new ≡ self.old ++ of_init init.now) }
    {
        match init {
            Init::Value(v) => self.add_operand(v),
            Init::Zero | Init::Text(_) => Ok(()),
            Init::Array(es) => self.add_elements(es.as_slice()),
            Init::Struct(es) => self.add_elements(es.as_slice()),
            Init::Packed(es) => self.add_elements(es.as_slice()),
        }
    }

    /// Adds what a global mentions.
    fn add_global(&mut self, g: &'a GlobalVar) -> Result<(), NoMemory>
        ensures { OnOk result (self.new ≡ self.old ++ of_global g.now) }
    {
        self.add_type(&g.ty)?;
        self.add_init(&g.init)
    }

    /// Adds what globals mention.
    fn add_globals(&mut self, globals: &'a [GlobalVar]) -> Result<(), NoMemory>
        ensures { OnOk result (self.new ≡ self.old ++ flat_map of_global globals.now) }
    {
        for g in globals {
            self.add_global(g)?;
        }
        Ok(())
    }

    /// Adds what a declaration mentions.
    fn add_extern(&mut self, e: &'a Extern) -> Result<(), NoMemory>
        ensures { OnOk result (self.new ≡ self.old ++ of_extern e.now) }
    {
        self.add_type(&e.ret)?;
        self.add_types(e.params.as_slice())
    }

    /// Adds what declarations mention.
    fn add_externs(&mut self, externs: &'a [Extern]) -> Result<(), NoMemory>
        ensures { OnOk result (self.new ≡ self.old ++ flat_map of_extern externs.now) }
    {
        for e in externs {
            self.add_extern(e)?;
        }
        Ok(())
    }

    /// Adds what named types mention.
    fn add_named(&mut self, types: &'a [NamedTy]) -> Result<(), NoMemory>
        ensures { OnOk result (self.new ≡ self.old ++ named_mention types.now) }
    {
        for t in types {
            self.add_type(&t.fields)?;
        }
        Ok(())
    }

    /// Adds what a module mentions outside of functions.
    fn add_outside(&mut self, whole: &'a Module) -> Result<(), NoMemory>
        ensures { OnOk result (self.new ≡ self.old ++ outside_functions whole.now) }
    {
        self.add_named(whole.types.as_slice())?;
        self.add_globals(whole.globals.as_slice())?;
        self.add_externs(whole.externs.as_slice())
    }

    /// What a function mentions.
    pub fn in_function(alloc: Global, f: &'a Function) -> Result<Mentions<'a>, NoMemory>
        ensures { IfOk result (λ mentions. mentions ≡ of_function f.now) }
    {
        let mut mentions = Mentions::new(alloc);
        mentions.add_function(f)?;
        Ok(mentions)
    }

    /// What the globals of a module mention.
    pub fn in_globals(alloc: Global, whole: &'a Module) -> Result<Mentions<'a>, NoMemory>
        ensures { IfOk result (λ mentions. mentions ≡ flat_map of_global whole.now.globals) }
    {
        let mut mentions = Mentions::new(alloc);
        mentions.add_globals(whole.globals.as_slice())?;
        Ok(mentions)
    }

    /// What a module mentions outside of functions.
    pub fn outside(alloc: Global, whole: &'a Module) -> Result<Mentions<'a>, NoMemory>
        ensures { IfOk result (λ mentions. mentions ≡ outside_functions whole.now) }
    {
        let mut mentions = Mentions::new(alloc);
        mentions.add_outside(whole)?;
        Ok(mentions)
    }
}
