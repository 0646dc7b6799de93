//! Instructions as operations on numbered registers.
//!
//! The operations of an instruction are put at the end of those of its block. Calls stand in `calls`,
//! pointers that move in `moving`.

ghost use Rattle.std.specs.Prelude.{◌≡◌, [], ◌∷◌, ◌++◌, OnOk};
ghost use Rattle.low_core.specs.Plain.{op_of};
ghost use Rattle.isel_rows.specs.Rows.{bin_op as bin_op_of, cast_op as cast_op_of, stored_width as stored_width_of, load_ops, ops_of};

use crate::selector::Selector;
use crate::variables::width_of;
use ir_core::instruction::{BinOp, CastOp, Op, Pred};
use ir_core::kind::Kind;
use ir_core::operand::Operand;
use ir_core::ty::{Name, Ty};
use low_core::moves::{Move, MoveOp};
use low_core::sel::{SelAlu, SelOp};
use rd_num::list::List;
use rd_num::width::{NoMemory, Width};

/// An operation on two registers. Takes no memory.
fn bin_op(op: BinOp, w: Width, r: u32, s: u32, t: u32) -> SelOp
    ensures { result ≡ bin_op_of op w r s t }
{
    match op {
        BinOp::Add => SelOp::Alu(SelAlu::Add, w, r, s, t),
        BinOp::Sub => SelOp::Alu(SelAlu::Sub, w, r, s, t),
        BinOp::Mul => SelOp::Alu(SelAlu::Mul, w, r, s, t),
        BinOp::Udiv => SelOp::Div(false, false, w, r, s, t),
        BinOp::Sdiv => SelOp::Div(true, false, w, r, s, t),
        BinOp::Urem => SelOp::Div(false, true, w, r, s, t),
        BinOp::Srem => SelOp::Div(true, true, w, r, s, t),
        BinOp::Shl => SelOp::Alu(SelAlu::Shl, w, r, s, t),
        BinOp::Lshr => SelOp::Alu(SelAlu::Shr, w, r, s, t),
        BinOp::Ashr => SelOp::Alu(SelAlu::Sar, w, r, s, t),
        BinOp::And => SelOp::Alu(SelAlu::And, w, r, s, t),
        BinOp::Or => SelOp::Alu(SelAlu::Or, w, r, s, t),
        BinOp::Xor => SelOp::Alu(SelAlu::Xor, w, r, s, t),
    }
}

/// A number as one of another width. Takes no memory.
fn cast_op(op: CastOp, from: Width, to: Width, r: u32, s: u32) -> SelOp
    ensures { result ≡ cast_op_of op from to r s }
{
    match op {
        CastOp::Trunc => SelOp::Widen(false, to, to, r, s),
        CastOp::Zext => SelOp::Widen(false, from, to, r, s),
        CastOp::Sext => SelOp::Widen(true, from, to, r, s),
    }
}

/// The width at which a width is stored. Takes no memory.
fn stored_width(w: Width) -> Width
    ensures { result ≡ stored_width_of w }
{
    match w {
        Width::W1 => Width::W8,
        Width::W8 => Width::W8,
        Width::W16 => Width::W16,
        Width::W32 => Width::W32,
        Width::W64 => Width::W64,
    }
}

/// Puts a load; of a byte with a truth value the lowest bit counts.
fn push_load(ops: &mut List<SelOp>, w: Width, r: u32, s: u32) -> Result<(), NoMemory>
    ensures { OnOk result (ops.new ≡ ops.old ++ load_ops w r s) }
{
    match w {
        Width::W1 => {
            ops.add(SelOp::Load(Width::W8, r, s))?;
            ops.add(SelOp::Widen(false, Width::W1, Width::W8, r, r))
        }
        Width::W8 => ops.add(SelOp::Load(Width::W8, r, s)),
        Width::W16 => ops.add(SelOp::Load(Width::W16, r, s)),
        Width::W32 => ops.add(SelOp::Load(Width::W32, r, s)),
        Width::W64 => ops.add(SelOp::Load(Width::W64, r, s)),
    }
}

impl<'c, 'a> Selector<'c, 'a> {
    /// Puts the arithmetic of two operands.
    pub(crate) fn push_bin(
        &self,
        ops: &mut List<SelOp>,
        into: &Option<Name>,
        op: BinOp,
        ty: &Ty,
        a: &Operand,
        b: &Operand,
    ) -> Result<(), NoMemory>
        ensures { OnOk result (ops.new ≡ ops.old ++ ops_of self.now.context.now
            self.now.variables.now 0 into.now (Op.Bin op ty.now a.now b.now)) }
    {
        let kind = Kind::of(ty);
        let s = self.operand(ops, 0, kind, a)?;
        let t = self.operand(ops, 1, kind, b)?;
        let r = self.variables.result_register(into)?;
        ops.add(bin_op(op, width_of(kind), r, s, t))
    }

    /// Puts a comparison of two operands.
    pub(crate) fn push_compare(
        &self,
        ops: &mut List<SelOp>,
        into: &Option<Name>,
        pred: Pred,
        ty: &Ty,
        a: &Operand,
        b: &Operand,
    ) -> Result<(), NoMemory>
        ensures { OnOk result (ops.new ≡ ops.old ++ ops_of self.now.context.now
            self.now.variables.now 0 into.now (Op.Compare pred ty.now a.now b.now)) }
    {
        let kind = Kind::of(ty);
        let s = self.operand(ops, 0, kind, a)?;
        let t = self.operand(ops, 1, kind, b)?;
        let r = self.variables.result_register(into)?;
        ops.add(SelOp::Test(pred, width_of(kind), r, s, t))
    }

    /// Puts an operand as one of another width.
    pub(crate) fn push_cast(
        &self,
        ops: &mut List<SelOp>,
        into: &Option<Name>,
        op: CastOp,
        from: &Ty,
        a: &Operand,
        to: &Ty,
    ) -> Result<(), NoMemory>
        ensures { OnOk result (ops.new ≡ ops.old ++ ops_of self.now.context.now
            self.now.variables.now 0 into.now (Op.Cast op from.now a.now to.now)) }
    {
        let kind = Kind::of(from);
        let s = self.operand(ops, 0, kind, a)?;
        let r = self.variables.result_register(into)?;
        ops.add(cast_op(op, width_of(kind), width_of(Kind::of(to)), r, s))
    }

    /// Puts one of two operands.
    pub(crate) fn push_select(
        &self,
        ops: &mut List<SelOp>,
        into: &Option<Name>,
        condition: &Operand,
        ty: &Ty,
        a: &Operand,
        ty2: &Ty,
        b: &Operand,
    ) -> Result<(), NoMemory>
        ensures { OnOk result (ops.new ≡ ops.old ++ ops_of self.now.context.now
            self.now.variables.now 0 into.now
            (Op.Select condition.now ty.now a.now ty2.now b.now)) }
    {
        let c = self.operand(ops, 0, Kind::Number(Width::W1), condition)?;
        let s = self.operand(ops, 1, Kind::of(ty), a)?;
        let t = self.operand(ops, 2, Kind::of(ty2), b)?;
        let r = self.variables.result_register(into)?;
        ops.add(SelOp::Pick(r, c, s, t))
    }

    /// Puts an operand that is kept as it is.
    pub(crate) fn push_copy(
        &self,
        ops: &mut List<SelOp>,
        into: &Option<Name>,
        ty: &Ty,
        a: &Operand,
    ) -> Result<(), NoMemory>
        ensures { OnOk result (ops.new ≡ ops.old ++ ops_of self.now.context.now
            self.now.variables.now 0 into.now (Op.Freeze ty.now a.now)) }
    {
        let s = self.operand(ops, 0, Kind::of(ty), a)?;
        let r = self.variables.result_register(into)?;
        ops.add(SelOp::Copy(r, s))
    }

    /// Puts a place in the frame's own memory.
    pub(crate) fn push_alloca(
        &self,
        ops: &mut List<SelOp>,
        into: &Option<Name>,
        ty: &Ty,
        count: u32,
        at: u32,
    ) -> Result<(), NoMemory>
        ensures { OnOk result (ops.new ≡ ops.old ++ ops_of self.now.context.now
            self.now.variables.now at into.now (Op.Alloca ty.now count)) }
    {
        let r = self.variables.result_register(into)?;
        ops.add(SelOp::FrameAt(r, at))
    }

    /// Puts the value at a pointer.
    pub(crate) fn push_load(
        &self,
        ops: &mut List<SelOp>,
        into: &Option<Name>,
        ty: &Ty,
        p: &Operand,
    ) -> Result<(), NoMemory>
        ensures { OnOk result (ops.new ≡ ops.old ++ ops_of self.now.context.now
            self.now.variables.now 0 into.now (Op.Load ty.now p.now)) }
    {
        let s = self.operand(ops, 0, Kind::Pointer, p)?;
        let r = self.variables.result_register(into)?;
        push_load(ops, width_of(Kind::of(ty)), r, s)
    }

    /// Puts a value at a pointer.
    pub(crate) fn push_store(
        &self,
        ops: &mut List<SelOp>,
        into: &Option<Name>,
        ty: &Ty,
        a: &Operand,
        p: &Operand,
    ) -> Result<(), NoMemory>
        ensures { OnOk result (ops.new ≡ ops.old ++ ops_of self.now.context.now
            self.now.variables.now 0 into.now (Op.Store ty.now a.now p.now)) }
    {
        let kind = Kind::of(ty);
        let t = self.operand(ops, 0, kind, a)?;
        let s = self.operand(ops, 1, Kind::Pointer, p)?;
        ops.add(SelOp::Store(stored_width(width_of(kind)), s, t))
    }

    /// Puts an instruction; an alloca begins so many bytes into the frame's own memory.
    fn push_op(
        &self,
        ops: &mut List<SelOp>,
        at: u32,
        into: &Option<Name>,
        op: &Op,
    ) -> Result<(), NoMemory>
        ensures { OnOk result (ops.new ≡ ops.old ++ ops_of self.now.context.now
            self.now.variables.now at into.now op.now) }
    {
        match op {
            Op::Bin(op, ty, a, b) => self.push_bin(ops, into, *op, ty, a, b),
            Op::Compare(pred, ty, a, b) => self.push_compare(ops, into, *pred, ty, a, b),
            Op::Cast(op, from, a, to) => self.push_cast(ops, into, *op, from, a, to),
            Op::Select(condition, ty, a, ty2, b) => {
                self.push_select(ops, into, condition, ty, a, ty2, b)
            }
            Op::Freeze(ty, a) => self.push_copy(ops, into, ty, a),
            Op::Alloca(ty, count) => self.push_alloca(ops, into, ty, *count, at),
            Op::Load(ty, p) => self.push_load(ops, into, ty, p),
            Op::Store(ty, a, p) => self.push_store(ops, into, ty, a, p),
            Op::Gep(ty, p, indices) => self.push_gep(ops, into, ty, p, indices.as_slice()),
            Op::Phi(_, _) => Ok(()),
            Op::Call(_, callee, args) => self.push_call(ops, into, callee, args.as_slice()),
        }
    }

    /// Puts a move.
    pub(crate) fn push_move(&self, ops: &mut List<SelOp>, at: u32, x: &Move) -> Result<(), NoMemory>
        ensures { OnOk result (ops.new ≡ ops.old ++ ops_of self.now.context.now
            self.now.variables.now at x.now.to (op_of x.now.op)) }
    {
        match &x.op {
            MoveOp::Keep(op) => self.push_op(ops, at, &x.to, op),
            MoveOp::Copy(ty, a) => self.push_copy(ops, &x.to, ty, a),
        }
    }
}
