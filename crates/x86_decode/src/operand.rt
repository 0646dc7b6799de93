//! Operands: registers by their bits, numbers, ModRM with its register, digit or place in memory.

ghost use Rattle.std.specs.Prelude.{◌≡◌, ◌<◌, ◌≤◌, ◌+◌};
ghost use Rattle.x86_core.specs.Decoding.{reg_bit, rm_bit, reg_of, reg_at, imm_at, shift_at, div_at, cond_at, first4, first8, signed32, taken, with_number, two_registers, indexed, displaced, at_memory};
ghost use Rattle.x86_decode.specs.Made.{made_of, made_at};

use crate::prefix;
use x86_core::instr::{
    AluOp, Cond, Decoded, ImmOp, Instr, Mem, Prefix, ShiftOp, Size, Wide, WidenKind,
};
use x86_core::reg::Reg;

/// A row whose operands are two registers.
#[derive(Clone, Copy)]
pub enum TwoRegisters {
    Mov(Wide),
    Alu(AluOp, Wide),
    Imul(Wide),
    Widen(WidenKind),
    Cmov(Cond),
}

/// A row whose operands are a register and a place in memory.
#[derive(Clone, Copy)]
pub enum Memory {
    Load(Size),
    Store(Size),
    Lea,
}

// The instruction of a row and two registers, the reg field first.
fn of_registers(row: TwoRegisters, r: Reg, m: Reg) -> Instr
    ensures { result ≡ made_of row r m }
{
    match row {
        TwoRegisters::Mov(w) => Instr::Mov(w, m, r),
        TwoRegisters::Alu(op, w) => Instr::Alu(op, w, m, r),
        TwoRegisters::Imul(w) => Instr::Imul(w, r, m),
        TwoRegisters::Widen(kind) => Instr::Widen(kind, r, m),
        TwoRegisters::Cmov(c) => Instr::Cmov(c, r, m),
    }
}

// The instruction of a row, a register and a place in memory.
fn of_memory(row: Memory, r: Reg, m: Mem) -> Instr
    ensures { result ≡ made_at row r m }
{
    match row {
        Memory::Load(size) => Instr::Load(size, r, m),
        Memory::Store(size) => Instr::Store(size, m, r),
        Memory::Lea => Instr::Lea(r, m),
    }
}

/// The register of a high bit and three low bits.
pub fn register(high: bool, low: u8) -> Reg
    requires { low < 8 }
    ensures { result ≡ reg_at high low }
{
    let n = if high { 8 + low } else { low };
    match n {
        0 => Reg::Rax,
        1 => Reg::Rcx,
        2 => Reg::Rdx,
        3 => Reg::Rbx,
        4 => Reg::Rsp,
        5 => Reg::Rbp,
        6 => Reg::Rsi,
        7 => Reg::Rdi,
        8 => Reg::R8,
        9 => Reg::R9,
        10 => Reg::R10,
        11 => Reg::R11,
        12 => Reg::R12,
        13 => Reg::R13,
        14 => Reg::R14,
        _ => Reg::R15,
    }
}

/// The operation of a digit.
pub fn imm_op(n: u8) -> Option<ImmOp>
    ensures { result ≡ imm_at n }
{
    match n {
        0 => Some(ImmOp::Add),
        1 => Some(ImmOp::Or),
        4 => Some(ImmOp::And),
        5 => Some(ImmOp::Sub),
        6 => Some(ImmOp::Xor),
        7 => Some(ImmOp::Cmp),
        _ => None,
    }
}

/// The shift of a digit.
pub fn shift_op(n: u8) -> Option<ShiftOp>
    ensures { result ≡ shift_at n }
{
    match n {
        4 => Some(ShiftOp::Shl),
        5 => Some(ShiftOp::Shr),
        7 => Some(ShiftOp::Sar),
        _ => None,
    }
}

/// Whether the division of a digit is signed.
pub fn div_sign(n: u8) -> Option<bool>
    ensures { result ≡ div_at n }
{
    match n {
        6 => Some(false),
        7 => Some(true),
        _ => None,
    }
}

/// The condition of a code.
pub fn condition(n: u8) -> Option<Cond>
    ensures { result ≡ cond_at n }
{
    match n {
        0x0 => Some(Cond::O),
        0x1 => Some(Cond::No),
        0x2 => Some(Cond::B),
        0x3 => Some(Cond::Ae),
        0x4 => Some(Cond::E),
        0x5 => Some(Cond::Ne),
        0x6 => Some(Cond::Be),
        0x7 => Some(Cond::A),
        0x8 => Some(Cond::S),
        0x9 => Some(Cond::Ns),
        0xC => Some(Cond::L),
        0xD => Some(Cond::Ge),
        0xE => Some(Cond::Le),
        0xF => Some(Cond::G),
        _ => None,
    }
}

/// The number in the first four bytes.
pub fn word(bytes: &[u8]) -> Option<u32>
    ensures { result ≡ first4 bytes.now }
{
    match bytes {
        [a, b, c, d, ..] => Some(u32::from_le_bytes([*a, *b, *c, *d])),
        _ => None,
    }
}

/// The number in the first eight bytes.
pub fn long_word(bytes: &[u8]) -> Option<u64>
    ensures { result ≡ first8 bytes.now }
{
    match bytes {
        [a, b, c, d, e, f, g, h, ..] => {
            Some(u64::from_le_bytes([*a, *b, *c, *d, *e, *f, *g, *h]))
        }
        _ => None,
    }
}

/// The signed number of 32 bits in two's complement.
pub fn signed(n: u32) -> i32
    ensures { result ≡ signed32 n }
{
    n.cast_signed()
}

/// ModRM with two registers.
pub fn two(row: TwoRegisters, len: u8, p: Prefix, bytes: &[u8]) -> Decoded
    ensures { result ≡ two_registers (made_of row) len p bytes.now }
{
    match bytes {
        [] => Decoded::Short,
        [m, ..] => {
            if m / 64 != 3 {
                return Decoded::Unknown;
            }
            let r = register(prefix::reg(p), m / 8 % 8);
            let m = register(prefix::rm(p), m % 8);
            Decoded::One {
                instr: of_registers(row, r, m),
                len,
            }
        }
    }
}

// A place in memory: its displacement.
fn with_displacement(row: Memory, r: Reg, base: Reg, len: u8, bytes: &[u8]) -> Decoded
    ensures { result ≡ with_number
        (λ d. made_at row r (record { base = base; disp = d })) len bytes.now }
{
    match word(bytes) {
        Some(n) => {
            let m = Mem {
                base,
                disp: signed(n),
            };
            Decoded::One {
                instr: of_memory(row, r, m),
                len,
            }
        }
        None => Decoded::Short,
    }
}

// A place in memory: the SIB byte, then its displacement.
fn with_index(row: Memory, r: Reg, base: Reg, len: u8, bytes: &[u8]) -> Decoded
    ensures { result ≡ indexed
        (λ d. made_at row r (record { base = base; disp = d })) len bytes.now }
{
    match bytes {
        [] => Decoded::Short,
        [0x24, rest @ ..] => with_displacement(row, r, base, len, rest),
        _ => Decoded::Unknown,
    }
}

/// ModRM with a register and a place in memory. The length is that without a SIB byte.
pub fn at(row: Memory, len: u8, p: Prefix, bytes: &[u8]) -> Decoded
    requires { len < 16 }
    ensures { result ≡ at_memory (made_at row) len p bytes.now }
{
    match bytes {
        [] => Decoded::Short,
        [m, rest @ ..] => {
            if m / 64 != 2 {
                return Decoded::Unknown;
            }
            let r = register(prefix::reg(p), m / 8 % 8);
            let base = register(prefix::rm(p), m % 8);
            at_base(row, r, base, m % 8, len, rest)
        }
    }
}

// A place in memory: the SIB byte where the base's low bits ask for one, and the displacement.
fn at_base(row: Memory, r: Reg, base: Reg, low: u8, len: u8, bytes: &[u8]) -> Decoded
    requires { len < 16 }
    ensures { result ≡ displaced
        (λ d. made_at row r (record { base = base; disp = d })) len low bytes.now }
{
    if low == 4 {
        with_index(row, r, base, len + 1, bytes)
    } else {
        with_displacement(row, r, base, len, bytes)
    }
}
