//! Phis, with what finds their entries by the labels of blocks.

ghost use Rattle.std.specs.Prelude.{◌≡◌, ◌++◌, IfOk, OnOk};
ghost use Rattle.std.specs.Option.{option_copied};
ghost use Rattle.phi_lower.specs.Lowered.{phis_of, put_of, take_of, put_aside, taken_up, last_first, copies, aside as aside_of};

use crate::firsts::Firsts;
use ir_core::instruction::{Entry, Inst, Op};
use ir_core::operand::Operand;
use ir_core::ty::{Name, Ty};
use low_core::copies::{copy_name, copy_operand, copy_ty};
use low_core::moves::{Move, MoveOp};
use rd_num::list::List;
use rd_num::width::NoMemory;
use std::alloc::Global;
use std::marker::Model;

/// A phi, which lends its instruction.
#[derive(Drop)]
pub struct Phi<'a> {
    into: &'a Option<Name>,
    ty: &'a Ty,
    entries: Firsts<'a>,
}

impl<'a> Model for Phi<'a> {
    ghost use Rattle.std.specs.Coded.{codes};
    ghost use Rattle.ir_core.specs.contracts.ty.Ty as types;
    ghost use Rattle.phi_lower.specs.Lowered.{PhiPart};

    ghost Value = { PhiPart };

    ghost coded = { Prim.hlevel (codes, types.the_row.coded) };

    ghost view = { λ p. record { into = p.into.now; ty = p.ty.now; entries = p.entries } };
}

/// The phis with which a block begins.
pub fn phis<'a>(alloc: Global, insts: &'a [Inst]) -> Result<List<Phi<'a>>, NoMemory>
    ensures { IfOk result (λ ps. ps ≡ phis_of insts.now) }
{
    let mut all = List::new(alloc);
    for i in insts {
        match &i.op {
            Op::Phi(ty, entries) => {
                let entries = Firsts::new(alloc, entries.as_slice())?;
                all.add(Phi {
                    into: &i.result,
                    ty,
                    entries,
                })?;
            }
            _ => return Ok(all),
        }
    }
    Ok(all)
}

/// The name in which the value of a phi is put aside.
pub fn aside(alloc: Global, name: &Name) -> Result<Name, NoMemory>
    ensures { IfOk result (λ r. r ≡ aside_of name.now) }
{
    let mut all = List::new(alloc);
    all.add(0)?;
    all.append(name.as_slice())?;
    Ok(all)
}

/// Adds the move that puts a value aside, where there is one.
fn add_put(
    alloc: Global,
    moves: &mut List<Move>,
    into: &Option<Name>,
    ty: &Ty,
    entry: Option<&Entry>,
) -> Result<(), NoMemory>
    ensures { OnOk result (moves.new ≡ moves.old ++
        put_of into.now ty.now (option_copied entry.entry)) }
{
    match (into, entry) {
        (Some(name), Some(e)) => {
            let to = aside(alloc, name)?;
            let ty = copy_ty(alloc, ty)?;
            let value = copy_operand(alloc, &e.value)?;
            moves.add(Move {
                to: Some(to),
                op: MoveOp::Copy(ty, value),
            })
        }
        _ => Ok(()),
    }
}

/// Adds the move that takes a value up, where there is one.
fn add_take(
    alloc: Global,
    moves: &mut List<Move>,
    into: &Option<Name>,
    ty: &Ty,
) -> Result<(), NoMemory>
    ensures { OnOk result (moves.new ≡ moves.old ++ take_of into.now ty.now) }
{
    match into {
        Some(name) => {
            let to = copy_name(alloc, name)?;
            let from = aside(alloc, name)?;
            let ty = copy_ty(alloc, ty)?;
            moves.add(Move {
                to: Some(to),
                op: MoveOp::Copy(ty, Operand::Local(from)),
            })
        }
        None => Ok(()),
    }
}

impl<'a> Phi<'a> {
    /// Adds the move that puts aside the value of an edge.
    fn put(&self, alloc: Global, moves: &mut List<Move>, from: &Name) -> Result<(), NoMemory>
        ensures { OnOk result (moves.new ≡ moves.old ++ put_aside from.now self.now) }
    {
        add_put(alloc, moves, self.into, self.ty, self.entries.entry(from))
    }

    /// Adds the move that takes the value up.
    fn take(&self, alloc: Global, moves: &mut List<Move>) -> Result<(), NoMemory>
        ensures { OnOk result (moves.new ≡ moves.old ++ taken_up self.now) }
    {
        add_take(alloc, moves, self.into, self.ty)
    }
}

/// Adds the moves that put values aside, the last one first.
fn put_all(alloc: Global, moves: &mut List<Move>, from: &Name, all: &[Phi]) -> Result<(), NoMemory>
    ensures { OnOk result (moves.new ≡ moves.old ++ last_first (put_aside from.now) all.now) }
{
    for k in (0..all.len()).rev() {
        all[k].put(alloc, moves, from)?;
    }
    Ok(())
}

/// Adds the moves that take values up, the last one first.
fn take_all(alloc: Global, moves: &mut List<Move>, all: &[Phi]) -> Result<(), NoMemory>
    ensures { OnOk result (moves.new ≡ moves.old ++ last_first taken_up all.now) }
{
    for k in (0..all.len()).rev() {
        all[k].take(alloc, moves)?;
    }
    Ok(())
}

/// The moves along an edge from a label to a block with these phis.
pub fn edge_moves(alloc: Global, from: &Name, all: &[Phi]) -> Result<List<Move>, NoMemory>
    ensures { IfOk result (λ ms. ms ≡ copies from.now all.now) }
{
    let mut moves = List::new(alloc);
    put_all(alloc, &mut moves, from, all)?;
    take_all(alloc, &mut moves, all)?;
    Ok(moves)
}
