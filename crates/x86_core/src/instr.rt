//! The instructions, in the order of the rows of `docs/instructions.md`.
//!
//! A row's widths and operations have types of their own, so that each value of `Instr` is an
//! instruction. Operands stand in the order of the row, the destination first.

use crate::reg::Reg;

/// The width of an operation on registers.
#[derive(Clone, Copy, PartialEq, Eq)]
pub enum Wide {
    W32,
    W64,
}

/// The width of a division, a load or a store.
#[derive(Clone, Copy, PartialEq, Eq)]
pub enum Size {
    W8,
    W16,
    W32,
    W64,
}

/// The width of the number whose sign fills another register.
#[derive(Clone, Copy, PartialEq, Eq)]
pub enum HighSize {
    W16,
    W32,
    W64,
}

/// A place in memory: a register's word and a displacement.
#[derive(Clone, Copy, PartialEq, Eq)]
pub struct Mem {
    pub base: Reg,
    pub disp: i32,
}

/// An operation on two registers; `Cmp` and `Test` write flags alone.
#[derive(Clone, Copy, PartialEq, Eq)]
pub enum AluOp {
    Add,
    Or,
    And,
    Sub,
    Xor,
    Cmp,
    Test,
}

/// An operation on a register and a constant; `Cmp` writes flags alone.
#[derive(Clone, Copy, PartialEq, Eq)]
pub enum ImmOp {
    Add,
    Or,
    And,
    Sub,
    Xor,
    Cmp,
}

/// A shift to the left, to the right with zeros, to the right with the sign.
#[derive(Clone, Copy, PartialEq, Eq)]
pub enum ShiftOp {
    Shl,
    Shr,
    Sar,
}

/// How many low bits are widened: with zeros to 32 bits, with the sign to 64 bits.
#[derive(Clone, Copy, PartialEq, Eq)]
pub enum WidenKind {
    Zero8,
    Zero16,
    Sign8,
    Sign16,
    Sign32,
}

/// A condition on flags, in the order of the codes 0 to 9 and C to F.
#[derive(Clone, Copy, PartialEq, Eq)]
pub enum Cond {
    O,
    No,
    B,
    Ae,
    E,
    Ne,
    Be,
    A,
    S,
    Ns,
    L,
    Ge,
    Le,
    G,
}

/// An instruction. The `bool` of a division says that it is signed; displacements of branches count
/// from the instruction's end.
#[derive(Clone, Copy, PartialEq, Eq)]
pub enum Instr {
    Mov(Wide, Reg, Reg),
    MovImm64(Reg, u64),
    MovImm32(Reg, u32),
    Alu(AluOp, Wide, Reg, Reg),
    AluImm(ImmOp, Wide, Reg, i32),
    Imul(Wide, Reg, Reg),
    Shift(ShiftOp, Wide, Reg),
    Div(bool, Size, Reg),
    High(HighSize),
    Widen(WidenKind, Reg, Reg),
    Load(Size, Reg, Mem),
    Store(Size, Mem, Reg),
    Lea(Reg, Mem),
    Push(Reg),
    Pop(Reg),
    SetCond(Cond, Reg),
    Cmov(Cond, Reg, Reg),
    Jcc(Cond, i32),
    Jmp(i32),
    Call(i32),
    Ret,
    CallR11,
    JmpR11,
    Syscall,
    Ud2,
    Int3,
    Nop,
}

/// What bytes begin with: one instruction, with its length in bytes; a proper part of an
/// instruction, and nothing else; or no instruction.
#[derive(Clone, Copy, PartialEq, Eq)]
pub enum Decoded {
    One { instr: Instr, len: u8 },
    Short,
    Unknown,
}

/// What stands before an opcode: nothing, a REX byte with its three bits, or 66 and then a REX byte
/// where one of its bits is set.
#[derive(Clone, Copy)]
pub enum Prefix {
    Plain,
    Rex { w: bool, r: bool, b: bool },
    Word { r: bool, b: bool },
}
