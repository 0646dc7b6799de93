//! Equal copies of the parts of modules, for passes that keep them.

ghost use Rattle.std.specs.Prelude.{◌≡◌, IfOk};
ghost use Rattle.ir_core.specs.declared.instruction.Op.TheVariants.{Bin, Compare, Cast, Select, Store};
ghost use Rattle.low_core.specs.Plain.{move_op_of, move_of};

use crate::moves::{Move, MoveOp};
use ir_core::instruction::{Arg, BinOp, CastOp, Entry, Inst, Op, Pred};
use ir_core::operand::{Index0, Operand, Place0};
use ir_core::ty::{Name, Ty};
use rd_num::boxed::Boxed;
use rd_num::copied::copy_list;
use rd_num::list::List;
use rd_num::width::NoMemory;
use std::alloc::Global;

/// An equal name.
pub fn copy_name(alloc: Global, name: &Name) -> Result<Name, NoMemory>
    ensures { IfOk result (λ c. c ≡ name.now) }
{
    copy_list(alloc, name.as_slice())
}

/// An equal type.
#[cycle(ty)]
pub fn copy_ty(alloc: Global, ty: &Ty) -> Result<Ty, NoMemory>
    ensures { IfOk result (λ c. c ≡ ty.now) }
{
    match ty {
        Ty::Void => Ok(Ty::Void),
        Ty::Int(w) => Ok(Ty::Int(*w)),
        Ty::Ptr => Ok(Ty::Ptr),
        Ty::Array(n, of) => {
            let inner = copy_ty(alloc, of.get())?;
            let own = Boxed::new(alloc, inner)?;
            Ok(Ty::Array(*n, own))
        }
        Ty::Struct(fields) => {
            let all = copy_tys(alloc, fields.as_slice())?;
            Ok(Ty::Struct(all))
        }
        Ty::Packed(fields) => {
            let all = copy_tys(alloc, fields.as_slice())?;
            Ok(Ty::Packed(all))
        }
        Ty::Named(name) => {
            let own = copy_name(alloc, name)?;
            Ok(Ty::Named(own))
        }
    }
}

#[cycle(ty)]
fn copy_tys(alloc: Global, tys: &[Ty]) -> Result<List<Ty>, NoMemory>
    ensures { IfOk result (λ l. l ≡ tys.now) }
{
    let mut all = List::new(alloc);
    for ty in tys {
        let own = copy_ty(alloc, ty)?;
        all.add(own)?;
    }
    Ok(all)
}

fn copy_indices(alloc: Global, indices: &[Index0]) -> Result<List<Index0>, NoMemory>
    ensures { IfOk result (λ l. l ≡ indices.now) }
{
    let mut all = List::new(alloc);
    for i in indices {
        let ty = copy_ty(alloc, &i.ty)?;
        all.add(Index0 { ty, value: i.value })?;
    }
    Ok(all)
}

fn copy_place(alloc: Global, place: &Place0) -> Result<Place0, NoMemory>
    ensures { IfOk result (λ c. c ≡ place.now) }
{
    let source = copy_ty(alloc, &place.source)?;
    let base = copy_name(alloc, &place.base)?;
    let indices = copy_indices(alloc, place.indices.as_slice())?;
    Ok(Place0 {
        source,
        base,
        indices,
    })
}

/// An equal operand.
pub fn copy_operand(alloc: Global, a: &Operand) -> Result<Operand, NoMemory>
    ensures { IfOk result (λ c. c ≡ a.now) }
{
    match a {
        Operand::Int(n) => Ok(Operand::Int(*n)),
        Operand::Bool(b) => Ok(Operand::Bool(*b)),
        Operand::Null => Ok(Operand::Null),
        Operand::Undef => Ok(Operand::Undef),
        Operand::Poison => Ok(Operand::Poison),
        Operand::Local(name) => {
            let own = copy_name(alloc, name)?;
            Ok(Operand::Local(own))
        }
        Operand::Global(name) => {
            let own = copy_name(alloc, name)?;
            Ok(Operand::Global(own))
        }
        Operand::Const(place) => {
            let own = copy_place(alloc, place)?;
            Ok(Operand::Const(own))
        }
    }
}

/// Equal arguments or indices.
pub fn copy_args(alloc: Global, args: &[Arg]) -> Result<List<Arg>, NoMemory>
    ensures { IfOk result (λ l. l ≡ args.now) }
{
    let mut all = List::new(alloc);
    for a in args {
        let ty = copy_ty(alloc, &a.ty)?;
        let value = copy_operand(alloc, &a.value)?;
        all.add(Arg { ty, value })?;
    }
    Ok(all)
}

fn copy_entries(alloc: Global, entries: &[Entry]) -> Result<List<Entry>, NoMemory>
    ensures { IfOk result (λ l. l ≡ entries.now) }
{
    let mut all = List::new(alloc);
    for e in entries {
        let value = copy_operand(alloc, &e.value)?;
        let from = copy_name(alloc, &e.from)?;
        all.add(Entry { value, from })?;
    }
    Ok(all)
}

fn copy_bin(alloc: Global, op: BinOp, ty: &Ty, a: &Operand, b: &Operand) -> Result<Op, NoMemory>
    ensures { IfOk result (λ c. c ≡ Bin op ty.now a.now b.now) }
{
    let ty = copy_ty(alloc, ty)?;
    let a = copy_operand(alloc, a)?;
    let b = copy_operand(alloc, b)?;
    Ok(Op::Bin(op, ty, a, b))
}

fn copy_compare(
    alloc: Global,
    pred: Pred,
    ty: &Ty,
    a: &Operand,
    b: &Operand,
) -> Result<Op, NoMemory>
    ensures { IfOk result (λ c. c ≡ Compare pred ty.now a.now b.now) }
{
    let ty = copy_ty(alloc, ty)?;
    let a = copy_operand(alloc, a)?;
    let b = copy_operand(alloc, b)?;
    Ok(Op::Compare(pred, ty, a, b))
}

fn copy_cast(alloc: Global, op: CastOp, from: &Ty, a: &Operand, to: &Ty) -> Result<Op, NoMemory>
    ensures { IfOk result (λ c. c ≡ Cast op from.now a.now to.now) }
{
    let from = copy_ty(alloc, from)?;
    let a = copy_operand(alloc, a)?;
    let to = copy_ty(alloc, to)?;
    Ok(Op::Cast(op, from, a, to))
}

fn copy_select(
    alloc: Global,
    condition: &Operand,
    ty: &Ty,
    a: &Operand,
    ty2: &Ty,
    b: &Operand,
) -> Result<Op, NoMemory>
    ensures { IfOk result (λ c. c ≡ Select condition.now ty.now a.now ty2.now b.now) }
{
    let condition = copy_operand(alloc, condition)?;
    let ty = copy_ty(alloc, ty)?;
    let a = copy_operand(alloc, a)?;
    let ty2 = copy_ty(alloc, ty2)?;
    let b = copy_operand(alloc, b)?;
    Ok(Op::Select(condition, ty, a, ty2, b))
}

fn copy_store(alloc: Global, ty: &Ty, a: &Operand, p: &Operand) -> Result<Op, NoMemory>
    ensures { IfOk result (λ c. c ≡ Store ty.now a.now p.now) }
{
    let ty = copy_ty(alloc, ty)?;
    let a = copy_operand(alloc, a)?;
    let p = copy_operand(alloc, p)?;
    Ok(Op::Store(ty, a, p))
}

/// An equal operation.
pub fn copy_op(alloc: Global, op: &Op) -> Result<Op, NoMemory>
    ensures { IfOk result (λ c. c ≡ op.now) }
{
    match op {
        Op::Bin(word, ty, a, b) => copy_bin(alloc, *word, ty, a, b),
        Op::Compare(pred, ty, a, b) => copy_compare(alloc, *pred, ty, a, b),
        Op::Cast(word, from, a, to) => copy_cast(alloc, *word, from, a, to),
        Op::Select(condition, ty, a, ty2, b) => copy_select(alloc, condition, ty, a, ty2, b),
        Op::Freeze(ty, a) => {
            let ty = copy_ty(alloc, ty)?;
            let a = copy_operand(alloc, a)?;
            Ok(Op::Freeze(ty, a))
        }
        Op::Alloca(ty, count) => {
            let ty = copy_ty(alloc, ty)?;
            Ok(Op::Alloca(ty, *count))
        }
        Op::Load(ty, p) => {
            let ty = copy_ty(alloc, ty)?;
            let p = copy_operand(alloc, p)?;
            Ok(Op::Load(ty, p))
        }
        Op::Store(ty, a, p) => copy_store(alloc, ty, a, p),
        Op::Gep(ty, p, indices) => {
            let ty = copy_ty(alloc, ty)?;
            let p = copy_operand(alloc, p)?;
            let indices = copy_args(alloc, indices.as_slice())?;
            Ok(Op::Gep(ty, p, indices))
        }
        Op::Phi(ty, entries) => {
            let ty = copy_ty(alloc, ty)?;
            let entries = copy_entries(alloc, entries.as_slice())?;
            Ok(Op::Phi(ty, entries))
        }
        Op::Call(ret, callee, args) => {
            let ret = copy_ty(alloc, ret)?;
            let callee = copy_operand(alloc, callee)?;
            let args = copy_args(alloc, args.as_slice())?;
            Ok(Op::Call(ret, callee, args))
        }
    }
}

/// An equal result's name, where there is one.
pub fn copy_result(alloc: Global, name: &Option<Name>) -> Result<Option<Name>, NoMemory>
    ensures { IfOk result (λ c. c ≡ name.now) }
{
    match name {
        Some(text) => {
            let own = copy_name(alloc, text)?;
            Ok(Some(own))
        }
        None => Ok(None),
    }
}

/// An instruction as a move.
pub fn copy_move(alloc: Global, i: &Inst) -> Result<Move, NoMemory>
    ensures { IfOk result (λ c. c ≡ move_of i.now) }
{
    let to = copy_result(alloc, &i.result)?;
    let op = copy_op(alloc, &i.op)?;
    Ok(Move {
        to,
        op: as_move(op),
    })
}

/// What an instruction does, as a move does it. Takes no memory.
fn as_move(op: Op) -> MoveOp
    ensures { result ≡ move_op_of op }
{
    match op {
        Op::Freeze(ty, a) => MoveOp::Copy(ty, a),
        other => MoveOp::Keep(other),
    }
}
