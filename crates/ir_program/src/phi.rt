//! The phis with which blocks begin: what they take, for each block from which they take it.

ghost use Rattle.std.specs.Prelude.{◌≡◌, ◌++◌, map, IfOk, OnOk};
ghost use Rattle.ir_core.specs.Step.{choices_of};
ghost use Rattle.ir_program.specs.Phis.{empty_phi, with_entry, phi_of, phi_with, is_phi, phi_row, phis_in, taken, phi_move};

use crate::action::{Resolver, into};
use crate::exit::Move;
use ir_context::origin::Origin;
use ir_core::instruction::{Entry, Inst, Op};
use ir_core::kind::Kind;
use ir_core::module::Block;
use ir_core::names::NameSet;
use ir_core::ty::Name;
use rd_num::list::List;
use rd_num::width::NoMemory;
use std::alloc::Global;

/// A phi: the register that it is given to, and what it takes from blocks, by their labels.
#[derive(Drop)]
pub(crate) struct Phi<'l> {
    into: Option<usize>,
    labels: NameSet<'l>,
    origins: List<Origin>,
}

impl<'l> Phi<'l> {
    /// A phi without entries. Takes no memory.
    fn new(alloc: Global, into: Option<usize>) -> Phi<'l>
        ensures { result ≡ empty_phi into }
    {
        Phi {
            into,
            labels: NameSet::new(alloc),
            origins: List::new(alloc),
        }
    }

    /// What it takes from a block. Takes no memory.
    fn taken_from(&self, from: &Name) -> Origin
        ensures { result ≡ taken self.now from.now }
    {
        match self.labels.number(from) {
            Some(k) => self.origins.get(k).copied().unwrap_or(Origin::Malformed),
            None => Origin::Malformed,
        }
    }

    /// What it takes from a block, with the register that it is given to. Takes no memory.
    fn move_from(&self, from: &Name) -> Move
        ensures { result ≡ phi_move from.now self.now }
    {
        Move {
            into: self.into,
            origin: self.taken_from(from),
        }
    }
}

/// What phis take from a block.
pub(crate) fn moves_from(alloc: Global, from: &Name, phis: &[Phi]) -> Result<List<Move>, NoMemory>
    ensures { IfOk result (λ l. l ≡ map (phi_move from.now) phis.now) }
{
    let mut moves = List::new(alloc);
    for phi in phis {
        moves.add(phi.move_from(from))?;
    }
    Ok(moves)
}

impl<'c, 'a> Resolver<'c, 'a> {
    /// Adds an entry, if none for the same block is there yet.
    fn add_entry<'l>(&self, kind: Kind, phi: &mut Phi<'l>, e: &'l Entry) -> Result<(), NoMemory>
        ensures { OnOk result (phi.new ≡
            with_entry self.now.context.now self.now.names.now kind phi.old e.now) }
    {
        if phi.labels.add(&e.from)? {
            let origin = self.origin(kind, &e.value)?;
            phi.origins.add(origin)?;
        }
        Ok(())
    }

    /// A phi of these entries.
    fn make_phi<'l>(
        &self,
        given: &Option<Name>,
        kind: Kind,
        entries: &'l [Entry],
    ) -> Result<Phi<'l>, NoMemory>
        ensures { IfOk result (λ p. p ≡ phi_with self.now.context.now self.now.names.now
            given.now kind entries.now) }
    {
        let mut phi = Phi::new(self.alloc, into(self.names, given));
        for e in entries {
            self.add_entry(kind, &mut phi, e)?;
        }
        Ok(phi)
    }

    /// Adds an instruction that is a phi, and answers whether it is one.
    fn add_phi<'l>(
        &self,
        phis: &mut List<Phi<'l>>,
        given: &Option<Name>,
        op: &'l Op,
    ) -> Result<bool, NoMemory>
        ensures known { IfOk result (λ r. r ≡ is_phi op.now) }
        ensures added { OnOk result (phis.new ≡ phis.old ++
            phi_row self.now.context.now self.now.names.now given.now op.now) }
    {
        match op {
            Op::Phi(ty, entries) => {
                let phi = self.make_phi(given, Kind::of(ty), entries.as_slice())?;
                phis.add(phi)?;
                Ok(true)
            }
            Op::Bin(_, _, _, _) => Ok(false),
            Op::Compare(_, _, _, _) => Ok(false),
            Op::Cast(_, _, _, _) => Ok(false),
            Op::Select(_, _, _, _, _) => Ok(false),
            Op::Freeze(_, _) => Ok(false),
            Op::Alloca(_, _) => Ok(false),
            Op::Load(_, _) => Ok(false),
            Op::Store(_, _, _) => Ok(false),
            Op::Gep(_, _, _) => Ok(false),
            Op::Call(_, _, _) => Ok(false),
        }
    }

    /// Adds the phis with which instructions begin.
    #[tactic(auto, using(crate::proofs::PhiLaws::one_phi_more, crate::proofs::PhiLaws::no_phi_more))]
    fn add_phis<'l>(&self, phis: &mut List<Phi<'l>>, insts: &'l [Inst]) -> Result<(), NoMemory>
        ensures { OnOk result (phis.new ≡ phis.old ++
            map (phi_of self.now.context.now self.now.names.now) (choices_of insts.now)) }
    {
        for i in insts {
            let more = self.add_phi(phis, &i.result, &i.op)?;
            if !more {
                return Ok(());
            }
        }
        Ok(())
    }

    /// The phis with which a block begins.
    fn phis_of<'l>(&self, b: &'l Block) -> Result<List<Phi<'l>>, NoMemory>
        ensures { IfOk result (λ l. l ≡
            phis_in self.now.context.now self.now.names.now b.now) }
    {
        let mut phis = List::new(self.alloc);
        self.add_phis(&mut phis, b.insts.as_slice())?;
        Ok(phis)
    }

    /// The phis of each block.
    pub(crate) fn all_phis<'l>(&self, blocks: &'l [Block]) -> Result<List<List<Phi<'l>>>, NoMemory>
        ensures { IfOk result (λ l. l ≡
            map (phis_in self.now.context.now self.now.names.now) blocks.now) }
    {
        let mut rows = List::new(self.alloc);
        for b in blocks {
            rows.add(self.phis_of(b)?)?;
        }
        Ok(rows)
    }
}
