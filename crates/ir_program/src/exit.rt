//! How blocks end, with the edges to other blocks and what their phis take along them.

ghost use Rattle.std.specs.Prelude.{◌≡◌, map, fold, slice_get, IfOk, OnOk};
ghost use Rattle.rd_num.specs.declared.width.Width.TheVariants.{W1 as OneBit};
ghost use Rattle.ir_core.specs.declared.instruction.Case.{Case as OneCase};
ghost use Rattle.ir_core.specs.declared.kind.Kind.TheVariants.{Number as NumberKind};
ghost use Rattle.ir_core.specs.Kinds.{kind_of};
ghost use Rattle.ir_core.specs.Typing.{labels_of};
ghost use Rattle.ir_context.specs.Origins.{origin_of};
ghost use Rattle.ir_program.specs.Exits.{with_new, no_edge as edge_nowhere, edge_found, edge_to, edge_number, arm_of, exit_of};
ghost use Rattle.ir_program.specs.Phis.{phi_edge, phis_in};

use crate::action::Resolver;
use crate::phi::{Phi, moves_from};
use ir_context::origin::Origin;
use ir_core::instruction::{Case, Term};
use ir_core::kind::Kind;
use ir_core::names::NameSet;
use ir_core::operand::Operand;
use ir_core::scope::Scope;
use ir_core::ty::{Name, Ty};
use rd_num::list::List;
use rd_num::width::{NoMemory, Width};
use std::alloc::Global;

/// What a phi takes along an edge, and the register that it is given to.
#[derive(Clone, Copy)]
pub struct Move {
    pub into: Option<usize>,
    pub origin: Origin,
}

/// An edge: the block to which it leads, the first instruction past its phis, and what they take, all
/// of it read before any is given. An edge to a label of no block takes one value, which is malformed.
#[derive(Drop)]
pub struct Edge {
    pub block: usize,
    pub next: usize,
    pub moves: List<Move>,
}

/// A case of a switch, with the number of its edge.
#[derive(Clone, Copy)]
pub struct Arm {
    pub value: Origin,
    pub edge: usize,
}

/// How a block ends. Edges are named by their numbers in the block's list.
#[derive(Drop)]
pub enum Exit {
    Return,
    Give(Origin),
    Jump(usize),
    Branch(Origin, usize, usize),
    Switch(Origin, usize, List<Arm>),
    Unreachable,
}

/// The edges from a block: its label, its function, and the phis with which that one's blocks begin.
#[derive(Drop)]
pub(crate) struct Way<'c, 'a> {
    pub(crate) from: &'c Name,
    pub(crate) scope: &'c Scope<'a>,
    pub(crate) rows: &'c List<List<Phi<'a>>>,
}

/// The number of a label, which is among labels.
fn number_in(labels: &NameSet, label: &Name) -> usize
    ensures { result ≡ edge_number labels.now label.now }
{
    labels.number(label).unwrap_or(0)
}

impl<'c, 'a> Resolver<'c, 'a> {
    /// An edge to no block.
    fn no_edge(&self) -> Result<Edge, NoMemory>
        ensures { IfOk result (λ e. e ≡ edge_nowhere) }
    {
        let mut moves = List::new(self.alloc);
        moves.add(Move {
            into: None,
            origin: Origin::Malformed,
        })?;
        Ok(Edge {
            block: 0,
            next: 0,
            moves,
        })
    }

    /// An edge to a block with these phis.
    fn edge_with(&self, from: &Name, block: usize, phis: &List<Phi>) -> Result<Edge, NoMemory>
        ensures { IfOk result (λ e. e ≡ phi_edge from.now block phis.now) }
    {
        let moves = moves_from(self.alloc, from, phis.as_slice())?;
        Ok(Edge {
            block,
            next: phis.len(),
            moves,
        })
    }

    /// An edge to the block of a number, where blocks begin with these phis.
    fn edge_at(&self, way: &Way, k: usize) -> Result<Edge, NoMemory>
        requires { way.now.rows.now ≡
            map (phis_in self.now.context.now self.now.names.now) way.now.scope.now.blocks }
        ensures { IfOk result (λ e. e ≡ edge_found self.now.context.now self.now.names.now
            way.now.from.now k (slice_get way.now.scope.now.blocks k)) }
    {
        match way.rows.get(k) {
            Some(phis) => self.edge_with(way.from, k, phis),
            None => self.no_edge(),
        }
    }

    /// An edge to a label.
    fn edge(&self, way: &Way, label: &Name) -> Result<Edge, NoMemory>
        requires { way.now.rows.now ≡
            map (phis_in self.now.context.now self.now.names.now) way.now.scope.now.blocks }
        ensures { IfOk result (λ e. e ≡ edge_to self.now.context.now self.now.names.now
            way.now.from.now way.now.scope.now.blocks label.now) }
    {
        match way.scope.block(label) {
            Some(k) => self.edge_at(way, k),
            None => self.no_edge(),
        }
    }

    /// Adds the edge to a label that isn't there yet.
    fn add_edge<'l>(
        &self,
        way: &Way,
        labels: &mut NameSet<'l>,
        edges: &mut List<Edge>,
        label: &'l Name,
    ) -> Result<(), NoMemory>
        requires rows { way.now.rows.now ≡
            map (phis_in self.now.context.now self.now.names.now) way.now.scope.now.blocks }
        requires so_far { edges.old ≡ map (edge_to self.now.context.now self.now.names.now
            way.now.from.now way.now.scope.now.blocks) labels.old }
        ensures labels { OnOk result (labels.new ≡ with_new labels.old label.now) }
        ensures edges { OnOk result (edges.new ≡ map (edge_to self.now.context.now
            self.now.names.now way.now.from.now way.now.scope.now.blocks) labels.new) }
    {
        if labels.add(label)? {
            let edge = self.edge(way, label)?;
            edges.add(edge)?;
        }
        Ok(())
    }

    /// Adds the edges to the labels of cases.
    fn add_cases<'l>(
        &self,
        way: &Way,
        labels: &mut NameSet<'l>,
        edges: &mut List<Edge>,
        cases: &'l [Case],
    ) -> Result<(), NoMemory>
        requires rows { way.now.rows.now ≡
            map (phis_in self.now.context.now self.now.names.now) way.now.scope.now.blocks }
        requires so_far { edges.old ≡ map (edge_to self.now.context.now self.now.names.now
            way.now.from.now way.now.scope.now.blocks) labels.old }
        ensures labels { OnOk result (labels.new ≡
            fold with_new labels.old (map (λ (c : OneCase). c.to) cases.now)) }
        ensures edges { OnOk result (edges.new ≡ map (edge_to self.now.context.now
            self.now.names.now way.now.from.now way.now.scope.now.blocks) labels.new) }
    {
        for c in cases {
            self.add_edge(way, labels, edges, &c.to)?;
        }
        Ok(())
    }

    /// Adds the edges to the labels of a terminator.
    pub(crate) fn add_edges<'l>(
        &self,
        way: &Way,
        labels: &mut NameSet<'l>,
        edges: &mut List<Edge>,
        end: &'l Term,
    ) -> Result<(), NoMemory>
        requires rows { way.now.rows.now ≡
            map (phis_in self.now.context.now self.now.names.now) way.now.scope.now.blocks }
        requires so_far { edges.old ≡ map (edge_to self.now.context.now self.now.names.now
            way.now.from.now way.now.scope.now.blocks) labels.old }
        ensures labels { OnOk result (labels.new ≡
            fold with_new labels.old (labels_of end.now)) }
        ensures edges { OnOk result (edges.new ≡ map (edge_to self.now.context.now
            self.now.names.now way.now.from.now way.now.scope.now.blocks) labels.new) }
    {
        match end {
            Term::Ret => Ok(()),
            Term::RetValue(_, _) => Ok(()),
            Term::Unreachable => Ok(()),
            Term::Br(to) => self.add_edge(way, labels, edges, to),
            Term::BrIf(_, taken, other) => {
                self.add_edge(way, labels, edges, taken)?;
                self.add_edge(way, labels, edges, other)
            }
            Term::Switch(_, _, default, cases) => {
                self.add_edge(way, labels, edges, default)?;
                self.add_cases(way, labels, edges, cases.as_slice())
            }
        }
    }

    /// A case.
    fn arm(&self, labels: &NameSet, c: &Case) -> Result<Arm, NoMemory>
        ensures { IfOk result (λ x. x ≡ arm_of self.now.context.now labels.now c.now) }
    {
        let none = NameSet::new(self.alloc);
        let kind = Kind::of(&c.ty);
        let value = self.context.origin(self.alloc, &none, kind, &c.value)?;
        Ok(Arm {
            value,
            edge: number_in(labels, &c.to),
        })
    }

    /// Cases.
    fn arms(&self, labels: &NameSet, cases: &[Case]) -> Result<List<Arm>, NoMemory>
        ensures { IfOk result (λ l. l ≡ map (arm_of self.now.context.now labels.now) cases.now) }
    {
        let mut arms = List::new(self.alloc);
        for c in cases {
            arms.add(self.arm(labels, c)?)?;
        }
        Ok(arms)
    }

    /// The end of a function with a value.
    fn give(&self, ty: &Ty, a: &Operand) -> Result<Exit, NoMemory>
        ensures { IfOk result (λ e. e ≡ Exit.Give
            (origin_of self.now.context.now self.now.names.now (kind_of ty.now) a.now)) }
    {
        let x = self.origin(Kind::of(ty), a)?;
        Ok(Exit::Give(x))
    }

    /// One of two edges.
    fn branch(&self, condition: &Operand, taken: usize, other: usize) -> Result<Exit, NoMemory>
        ensures { IfOk result (λ e. e ≡ Exit.Branch (origin_of self.now.context.now
            self.now.names.now (NumberKind OneBit) condition.now) taken other) }
    {
        let x = self.origin(Kind::Number(Width::W1), condition)?;
        Ok(Exit::Branch(x, taken, other))
    }

    /// The edge of a case, or the default.
    fn switch(
        &self,
        labels: &NameSet,
        ty: &Ty,
        a: &Operand,
        default: usize,
        cases: &[Case],
    ) -> Result<Exit, NoMemory>
        ensures { IfOk result (λ e. e ≡ Exit.Switch
            (origin_of self.now.context.now self.now.names.now (kind_of ty.now) a.now) default
            (map (arm_of self.now.context.now labels.now) cases.now)) }
    {
        let x = self.origin(Kind::of(ty), a)?;
        let arms = self.arms(labels, cases)?;
        Ok(Exit::Switch(x, default, arms))
    }

    /// How a block ends.
    pub(crate) fn exit(&self, labels: &NameSet, end: &Term) -> Result<Exit, NoMemory>
        ensures { IfOk result (λ e. e ≡ exit_of self.now.context.now self.now.names.now
            labels.now end.now) }
    {
        match end {
            Term::Ret => Ok(Exit::Return),
            Term::RetValue(ty, a) => self.give(ty, a),
            Term::Br(to) => Ok(Exit::Jump(number_in(labels, to))),
            Term::BrIf(condition, taken, other) => {
                self.branch(
                    condition,
                    number_in(labels, taken),
                    number_in(labels, other),
                )
            }
            Term::Switch(ty, a, default, cases) => {
                self.switch(labels, ty, a, number_in(labels, default), cases.as_slice())
            }
            Term::Unreachable => Ok(Exit::Unreachable),
        }
    }
}
