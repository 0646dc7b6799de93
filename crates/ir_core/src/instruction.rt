//! Instructions and terminators.

use crate::operand::Operand;
use crate::ty::{Name, Ty};
use rd_num::list::List;

/// The arithmetic of two numbers of one width.
#[derive(Clone, Copy, PartialEq, Eq)]
pub enum BinOp {
    Add,
    Sub,
    Mul,
    Udiv,
    Sdiv,
    Urem,
    Srem,
    Shl,
    Lshr,
    Ashr,
    And,
    Or,
    Xor,
}

/// What `icmp` asks.
#[derive(Clone, Copy, PartialEq, Eq)]
pub enum Pred {
    Eq,
    Ne,
    Ult,
    Ule,
    Ugt,
    Uge,
    Slt,
    Sle,
    Sgt,
    Sge,
}

/// The ways from one width to another.
#[derive(Clone, Copy, PartialEq, Eq)]
pub enum CastOp {
    Trunc,
    Zext,
    Sext,
}

/// What an instruction does. The fields stand in the order in which a text writes them.
#[derive(Drop)]
pub enum Op {
    Bin(BinOp, Ty, Operand, Operand),
    Compare(Pred, Ty, Operand, Operand),
    Cast(CastOp, Ty, Operand, Ty),
    Select(Operand, Ty, Operand, Ty, Operand),
    Freeze(Ty, Operand),
    Alloca(Ty, u32),
    Load(Ty, Operand),
    Store(Ty, Operand, Operand),
    Gep(Ty, Operand, List<Arg>),
    Phi(Ty, List<Entry>),
    Call(Ty, Operand, List<Arg>),
}

/// An argument of a call, or an index.
#[derive(Drop)]
pub struct Arg {
    pub ty: Ty,
    pub value: Operand,
}

/// What a phi is where its block was entered from one other block.
#[derive(Drop)]
pub struct Entry {
    pub value: Operand,
    pub from: Name,
}

/// An instruction, and the local that its result is given to.
#[derive(Drop)]
pub struct Inst {
    pub result: Option<Name>,
    pub op: Op,
}

/// How a block ends.
#[derive(Drop)]
pub enum Term {
    Ret,
    RetValue(Ty, Operand),
    Br(Name),
    BrIf(Operand, Name, Name),
    Switch(Ty, Operand, Name, List<Case>),
    Unreachable,
}

/// One case of a switch.
#[derive(Drop)]
pub struct Case {
    pub ty: Ty,
    pub value: Operand,
    pub to: Name,
}
