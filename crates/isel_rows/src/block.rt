//! Blocks on numbered registers: moves one after another, and an end.
//!
//! Bytes of allocas count on from one block to the next, each in steps of sixteen.

ghost use Rattle.std.specs.Prelude.{◌≡◌, ◌+◌, ◌*◌, ◌^◌, ◌<◌, [], ◌++◌, map, IfOk, OnOk};
ghost use Rattle.std.specs.List.{sum_by};
ghost use Rattle.ir_core.specs.declared.module.Block.{Block as OneBlock};
ghost use Rattle.ir_core.specs.Counts.{spaced, alloca_bytes};
ghost use Rattle.ir_core.specs.Shapes.{shape_of};
ghost use Rattle.low_core.specs.Plain.{op_of, inst_of, block_of};
ghost use Rattle.isel_rows.specs.Rows.{block_number, closing_of};
ghost use Rattle.isel_rows.specs.Functions.{allocas_in, insts_ops, block_selected, blocks_selected};

use crate::selector::Selector;
use crate::variables::{farther, small};
use ir_core::instruction::{Op, Term};
use ir_core::kind::Kind;
use ir_core::names::NameSet;
use ir_core::operand::Operand;
use ir_core::ty::{Name, Ty};
use low_core::moves::{Chunk, Move, MoveOp};
use low_core::sel::{SelBlock, SelEnd, SelOp};
use rd_num::list::List;
use rd_num::width::{NoMemory, Width};

/// So many things of a size, in steps of sixteen bytes, where that has room in 32 bits.
fn spaced_bytes(count: u32, size: u64) -> Result<u32, NoMemory>
    ensures value { IfOk result (λ n. n ≡ spaced (count * size)) }
    ensures within { IfOk result (λ _. size < 2 ^ 32) }
{
    if size > u64::from(u32::MAX) {
        return Err(NoMemory);
    }
    let bytes = u64::from(count) * size;
    if bytes > u64::from(u32::MAX) {
        return Err(NoMemory);
    }
    small((bytes as usize + 15) / 16 * 16)
}

/// The number of a label's block among its function's.
fn block_number_of(labels: &NameSet, to: &Name) -> Result<u32, NoMemory>
    ensures { IfOk result (λ k. k ≡ block_number labels.now to.now) }
{
    match labels.number(to) {
        Some(k) => small(k),
        None => Ok(0),
    }
}

impl<'c, 'a> Selector<'c, 'a> {
    /// The bytes of an alloca, in steps of sixteen.
    fn spaced_size(&self, ty: &Ty, count: u32) -> Result<u32, NoMemory>
        ensures { IfOk result (λ n. n ≡
            spaced (count * (shape_of self.now.context.now.types ty.now).size)) }
    {
        spaced_bytes(count, self.context.extent(ty).size)
    }

    /// The bytes of the frame that an instruction takes.
    fn op_bytes(&self, op: &Op) -> Result<u32, NoMemory>
        ensures { IfOk result (λ n. n ≡ alloca_bytes self.now.context.now.types op.now) }
    {
        match op {
            Op::Alloca(ty, count) => self.spaced_size(ty, *count),
            Op::Bin(_, _, _, _) => Ok(0),
            Op::Compare(_, _, _, _) => Ok(0),
            Op::Cast(_, _, _, _) => Ok(0),
            Op::Select(_, _, _, _, _) => Ok(0),
            Op::Freeze(_, _) => Ok(0),
            Op::Load(_, _) => Ok(0),
            Op::Store(_, _, _) => Ok(0),
            Op::Gep(_, _, _) => Ok(0),
            Op::Phi(_, _) => Ok(0),
            Op::Call(_, _, _) => Ok(0),
        }
    }

    /// The bytes of the frame that a move takes.
    fn move_bytes(&self, op: &MoveOp) -> Result<u32, NoMemory>
        ensures { IfOk result (λ n. n ≡
            alloca_bytes self.now.context.now.types (op_of op.now)) }
    {
        match op {
            MoveOp::Keep(own) => self.op_bytes(own),
            MoveOp::Copy(_, _) => Ok(0),
        }
    }

    /// Puts moves, behind so many bytes of allocas, which go on.
    fn push_moves(
        &self,
        ops: &mut List<SelOp>,
        at: &mut u32,
        moves: &[Move],
    ) -> Result<(), NoMemory>
        ensures ops { OnOk result (ops.new ≡ ops.old ++ insts_ops self.now.context.now
            self.now.variables.now at.old (map inst_of moves.now)) }
        ensures at { OnOk result (at.new ≡ at.old +
            allocas_in self.now.context.now.types (map inst_of moves.now)) }
    {
        for x in moves {
            self.push_move(ops, *at, x)?;
            *at = farther(*at, self.move_bytes(&x.op)?)?;
        }
        Ok(())
    }

    /// Puts what the return of a value reads.
    fn close_with_value(
        &self,
        ops: &mut List<SelOp>,
        ty: &Ty,
        a: &Operand,
    ) -> Result<SelEnd, NoMemory>
        ensures ops { IfOk result (λ _. ops.new ≡ ops.old ++ (closing_of self.now.context.now
            self.now.variables.now [] (Term.RetValue ty.now a.now)).ops) }
        ensures end { IfOk result (λ e. e ≡ (closing_of self.now.context.now
            self.now.variables.now [] (Term.RetValue ty.now a.now)).end) }
    {
        let s = self.operand(ops, 0, Kind::of(ty), a)?;
        Ok(SelEnd::Ret(Some(s)))
    }

    /// Puts what a branch on a condition reads.
    fn close_with_branch(
        &self,
        labels: &NameSet,
        ops: &mut List<SelOp>,
        condition: &Operand,
        taken: &Name,
        other: &Name,
    ) -> Result<SelEnd, NoMemory>
        ensures ops { IfOk result (λ _. ops.new ≡ ops.old ++ (closing_of self.now.context.now
            self.now.variables.now labels.now
            (Term.BrIf condition.now taken.now other.now)).ops) }
        ensures end { IfOk result (λ e. e ≡ (closing_of self.now.context.now
            self.now.variables.now labels.now
            (Term.BrIf condition.now taken.now other.now)).end) }
    {
        let c = self.operand(ops, 0, Kind::Number(Width::W1), condition)?;
        let first = block_number_of(labels, taken)?;
        let second = block_number_of(labels, other)?;
        Ok(SelEnd::If(c, first, second))
    }

    /// Puts what an end reads, and answers the end.
    fn close(&self, labels: &NameSet, ops: &mut List<SelOp>, end: &Term) -> Result<SelEnd, NoMemory>
        ensures ops { IfOk result (λ _. ops.new ≡ ops.old ++ (closing_of self.now.context.now
            self.now.variables.now labels.now end.now).ops) }
        ensures end { IfOk result (λ e. e ≡ (closing_of self.now.context.now
            self.now.variables.now labels.now end.now).end) }
    {
        match end {
            Term::Ret => Ok(SelEnd::Ret(None)),
            Term::RetValue(ty, a) => self.close_with_value(ops, ty, a),
            Term::Br(to) => Ok(SelEnd::Go(block_number_of(labels, to)?)),
            Term::BrIf(condition, taken, other) => {
                self.close_with_branch(labels, ops, condition, taken, other)
            }
            Term::Switch(_, _, _, _) => Ok(SelEnd::Trap),
            Term::Unreachable => Ok(SelEnd::Trap),
        }
    }

    /// A block, behind so many bytes of allocas, which go on.
    fn block(&self, labels: &NameSet, at: &mut u32, c: &Chunk) -> Result<SelBlock, NoMemory>
        ensures block { IfOk result (λ b. b ≡ block_selected self.now.context.now
            self.now.variables.now labels.now at.old (block_of c.now)) }
        ensures at { IfOk result (λ _. at.new ≡ at.old +
            allocas_in self.now.context.now.types (block_of c.now).insts) }
    {
        let mut ops = List::new(self.alloc);
        self.push_moves(&mut ops, at, c.moves.as_slice())?;
        let end = self.close(labels, &mut ops, &c.end)?;
        Ok(SelBlock { ops, end })
    }

    /// Blocks, behind so many bytes of allocas, which go on.
    pub(crate) fn blocks(
        &self,
        labels: &NameSet,
        at: &mut u32,
        chunks: &[Chunk],
    ) -> Result<List<SelBlock>, NoMemory>
        ensures blocks { IfOk result (λ bs. bs ≡ blocks_selected self.now.context.now
            self.now.variables.now labels.now at.old (map block_of chunks.now)) }
        ensures at { IfOk result (λ _. at.new ≡ at.old + sum_by
            (λ (b : OneBlock). allocas_in self.now.context.now.types b.insts)
            (map block_of chunks.now)) }
    {
        let mut all = List::new(self.alloc);
        for c in chunks {
            let own = self.block(labels, at, c)?;
            all.add(own)?;
        }
        Ok(all)
    }
}
