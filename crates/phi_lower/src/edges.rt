//! The edges of a function, and where they go first.

ghost use Rattle.std.specs.Prelude.{◌≡◌, ◌++◌, ◌∷◌, [], IfOk, OnOk, map, fold};
ghost use Rattle.std.specs.Option.{option_copied};
ghost use Rattle.ir_core.specs.declared.module.Block.{Block as OneBlock};
ghost use Rattle.ir_core.specs.declared.instruction.Case.{Case as OneCase};
ghost use Rattle.ir_core.specs.Definitions.{label_names, repeated};
ghost use Rattle.ir_core.specs.Typing.{labels_of};
ghost use Rattle.phi_lower.specs.Lowered.{phis_of, phis_to, phis_or_none, edge_label as label_of_edge, way_to, first_on_way, case_to, with_ways as end_with_ways, with_name, targets_of};

use crate::phi::{Phi, phis};
use ir_core::instruction::{Case, Term};
use ir_core::module::Block;
use ir_core::names::{NameSet, names_of};
use ir_core::ty::Name;
use low_core::copies::{copy_name, copy_operand, copy_ty};
use rd_num::list::List;
use rd_num::width::NoMemory;
use std::alloc::Global;
use std::marker::Model;

/// The blocks of a function by their labels, each with its phis.
#[derive(Drop)]
pub struct Edges<'a> {
    blocks: &'a [Block],
    labels: NameSet<'a>,
    phis: List<List<Phi<'a>>>,
}

impl<'a> Model for Edges<'a> {
    ghost use Rattle.std.specs.Prelude.{◌≡◌, List, map};
    ghost use Rattle.std.specs.Coded.{codes};
    ghost use Rattle.ir_core.specs.contracts.ty.Ty as ty;
    ghost use Rattle.ir_core.specs.declared.module.Block.{Block as OneBlock};
    ghost use Rattle.phi_lower.specs.Lowered.{phis_of};

    ghost Value = { List OneBlock };

    ghost coded = { Prim.hlevel (codes, ty.the_row.coded) };

    ghost view = { λ e. e.blocks.now };

    ghost invariant = { λ e. (e.labels ≡ map (λ (b : OneBlock). b.label) e.blocks.now)
        × (e.phis ≡ map (λ (b : OneBlock). phis_of b.insts) e.blocks.now) };
}

/// The phis of each block.
fn all_phis<'a>(alloc: Global, blocks: &'a [Block]) -> Result<List<List<Phi<'a>>>, NoMemory>
    ensures { IfOk result (λ ps. ps ≡ map (λ (b : OneBlock). phis_of b.insts) blocks.now) }
{
    let mut all = List::new(alloc);
    for b in blocks {
        let own = phis(alloc, b.insts.as_slice())?;
        all.add(own)?;
    }
    Ok(all)
}

/// The label of the chunk of an edge.
pub fn edge_label(alloc: Global, from: &Name, to: &Name) -> Result<Name, NoMemory>
    ensures { IfOk result (λ r. r ≡ label_of_edge from.now to.now) }
{
    let mut all = List::new(alloc);
    all.add(0)?;
    all.append(from.as_slice())?;
    all.add(0)?;
    all.append(to.as_slice())?;
    Ok(all)
}

/// Where an edge goes first, by the phis of the block to which it goes.
fn way(alloc: Global, from: &Name, to: &Name, phis: Option<&List<Phi>>) -> Result<Name, NoMemory>
    ensures { IfOk result (λ r. r ≡
        way_to from.now to.now (phis_or_none (option_copied phis.entry))) }
{
    match phis {
        Some(all) => way_by(alloc, from, to, all.as_slice()),
        None => copy_name(alloc, to),
    }
}

/// Where an edge goes first, by these phis.
fn way_by(alloc: Global, from: &Name, to: &Name, phis: &[Phi]) -> Result<Name, NoMemory>
    ensures { IfOk result (λ r. r ≡ way_to from.now to.now phis.now) }
{
    if phis.is_empty() {
        copy_name(alloc, to)
    } else {
        edge_label(alloc, from, to)
    }
}

impl<'a> Edges<'a> {
    /// The edges of a function with these blocks.
    pub fn new(alloc: Global, blocks: &'a [Block]) -> Result<Edges<'a>, NoMemory>
        requires { repeated [] (map (λ (b : OneBlock). b.label) blocks.now) ≡ [] }
        ensures { IfOk result (λ e. e ≡ blocks.now) }
    {
        let labels = names_of(alloc, blocks)?;
        let phis = all_phis(alloc, blocks)?;
        Ok(Edges {
            blocks,
            labels,
            phis,
        })
    }

    /// The phis of the block of a label. Takes no memory.
    pub fn phis_to(&self, to: &Name) -> Option<&List<Phi<'a>>>
        ensures { phis_or_none (option_copied result) ≡ phis_to self.now to.now }
    {
        match self.labels.number(to) {
            Some(k) => self.phis.get(k),
            None => None,
        }
    }

    /// Where the edge between two labels goes first.
    fn first(&self, alloc: Global, from: &Name, to: &Name) -> Result<Name, NoMemory>
        ensures { IfOk result (λ r. r ≡ first_on_way self.now from.now to.now) }
    {
        way(alloc, from, to, self.phis_to(to))
    }

    /// Cases, where edges go first.
    fn cases(&self, alloc: Global, from: &Name, cases: &[Case]) -> Result<List<Case>, NoMemory>
        ensures { IfOk result (λ cs. cs ≡ map
            (λ (c : OneCase). case_to c (first_on_way self.now from.now c.to)) cases.now) }
    {
        let mut all = List::new(alloc);
        for c in cases {
            let ty = copy_ty(alloc, &c.ty)?;
            let value = copy_operand(alloc, &c.value)?;
            let to = self.first(alloc, from, &c.to)?;
            all.add(Case { ty, value, to })?;
        }
        Ok(all)
    }

    /// The end of a block, where edges go first.
    pub fn with_ways(&self, alloc: Global, from: &Name, end: &Term) -> Result<Term, NoMemory>
        ensures { IfOk result (λ r. r ≡ end_with_ways self.now from.now end.now) }
    {
        match end {
            Term::Ret => Ok(Term::Ret),
            Term::RetValue(ty, a) => {
                let ty = copy_ty(alloc, ty)?;
                let a = copy_operand(alloc, a)?;
                Ok(Term::RetValue(ty, a))
            }
            Term::Br(to) => {
                let to = self.first(alloc, from, to)?;
                Ok(Term::Br(to))
            }
            Term::BrIf(condition, taken, other) => {
                let condition = copy_operand(alloc, condition)?;
                let taken = self.first(alloc, from, taken)?;
                let other = self.first(alloc, from, other)?;
                Ok(Term::BrIf(condition, taken, other))
            }
            Term::Switch(ty, a, default, cases) => {
                let ty = copy_ty(alloc, ty)?;
                let a = copy_operand(alloc, a)?;
                let default = self.first(alloc, from, default)?;
                let cases = self.cases(alloc, from, cases.as_slice())?;
                Ok(Term::Switch(ty, a, default, cases))
            }
            Term::Unreachable => Ok(Term::Unreachable),
        }
    }
}

/// Adds the labels of cases, where they aren't there yet.
fn add_cases<'a>(names: &mut NameSet<'a>, cases: &'a [Case]) -> Result<(), NoMemory>
    ensures { OnOk result (names.new ≡ fold with_name names.old
        (map (λ (c : OneCase). c.to) cases.now)) }
{
    for c in cases {
        names.add(&c.to)?;
    }
    Ok(())
}

/// The labels to which an end leads, each once.
pub fn targets<'a>(alloc: Global, end: &'a Term) -> Result<NameSet<'a>, NoMemory>
    ensures { IfOk result (λ names. names ≡ targets_of end.now) }
{
    let mut names = NameSet::new(alloc);
    match end {
        Term::Ret | Term::RetValue(_, _) | Term::Unreachable => {}
        Term::Br(to) => {
            names.add(to)?;
        }
        Term::BrIf(_, taken, other) => {
            names.add(taken)?;
            names.add(other)?;
        }
        Term::Switch(_, _, default, cases) => {
            names.add(default)?;
            add_cases(&mut names, cases.as_slice())?;
        }
    }
    Ok(names)
}
