//! Equal copies of chunks.

ghost use Rattle.std.specs.Prelude.{◌≡◌, IfOk};

use ir_core::instruction::{Case, Term};
use low_core::copies::{copy_name, copy_op, copy_operand, copy_result, copy_ty};
use low_core::moves::{Chunk, Move, MoveOp};
use rd_num::list::List;
use rd_num::width::NoMemory;
use std::alloc::Global;

/// What an equal move does.
fn copy_move_op(alloc: Global, op: &MoveOp) -> Result<MoveOp, NoMemory>
    ensures { IfOk result (λ c. c ≡ op.now) }
{
    match op {
        MoveOp::Keep(own) => {
            let own = copy_op(alloc, own)?;
            Ok(MoveOp::Keep(own))
        }
        MoveOp::Copy(ty, a) => {
            let ty = copy_ty(alloc, ty)?;
            let a = copy_operand(alloc, a)?;
            Ok(MoveOp::Copy(ty, a))
        }
    }
}

/// Equal moves.
pub fn copy_moves(alloc: Global, moves: &[Move]) -> Result<List<Move>, NoMemory>
    ensures { IfOk result (λ l. l ≡ moves.now) }
{
    let mut all = List::new(alloc);
    for x in moves {
        let to = copy_result(alloc, &x.to)?;
        let op = copy_move_op(alloc, &x.op)?;
        all.add(Move { to, op })?;
    }
    Ok(all)
}

/// Equal cases.
fn copy_cases(alloc: Global, cases: &[Case]) -> Result<List<Case>, NoMemory>
    ensures { IfOk result (λ l. l ≡ cases.now) }
{
    let mut all = List::new(alloc);
    for c in cases {
        let ty = copy_ty(alloc, &c.ty)?;
        let value = copy_operand(alloc, &c.value)?;
        let to = copy_name(alloc, &c.to)?;
        all.add(Case { ty, value, to })?;
    }
    Ok(all)
}

/// An equal end.
fn copy_end(alloc: Global, end: &Term) -> Result<Term, NoMemory>
    ensures { IfOk result (λ c. c ≡ end.now) }
{
    match end {
        Term::Ret => Ok(Term::Ret),
        Term::RetValue(ty, a) => {
            let ty = copy_ty(alloc, ty)?;
            let a = copy_operand(alloc, a)?;
            Ok(Term::RetValue(ty, a))
        }
        Term::Br(to) => {
            let to = copy_name(alloc, to)?;
            Ok(Term::Br(to))
        }
        Term::BrIf(condition, taken, other) => {
            let condition = copy_operand(alloc, condition)?;
            let taken = copy_name(alloc, taken)?;
            let other = copy_name(alloc, other)?;
            Ok(Term::BrIf(condition, taken, other))
        }
        Term::Switch(ty, a, default, cases) => {
            let ty = copy_ty(alloc, ty)?;
            let a = copy_operand(alloc, a)?;
            let default = copy_name(alloc, default)?;
            let cases = copy_cases(alloc, cases.as_slice())?;
            Ok(Term::Switch(ty, a, default, cases))
        }
        Term::Unreachable => Ok(Term::Unreachable),
    }
}

/// An equal chunk.
pub fn copy_chunk(alloc: Global, c: &Chunk) -> Result<Chunk, NoMemory>
    ensures { IfOk result (λ d. d ≡ c.now) }
{
    let label = copy_name(alloc, &c.label)?;
    let moves = copy_moves(alloc, c.moves.as_slice())?;
    let end = copy_end(alloc, &c.end)?;
    Ok(Chunk { label, moves, end })
}
