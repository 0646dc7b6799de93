//! The rows, by their opcodes.
//!
//! Functions are named for their opcodes' instruction; each first asks whether its row takes the
//! prefix.

ghost use Rattle.std.specs.Prelude.{◌≡◌, ◌<◌, ◌≤◌, ◌+◌};
ghost use Rattle.x86_core.specs.Decoding as rows;
ghost use Rattle.x86_core.specs.Decoding.{rm_bit, reg_at, taken, first4, first8, signed32, imm_at, shift_at, div_at, cond_at, with_number, two_registers, with_digit, at_memory, by_mode, wide_at, size_at, prefix_size, move_row, store_row, constants, constant_row, alu_row, alu_imm, alu_imm_row, imul_row, shifting, shift_row, dividing, byte_division_row, division_row, high_row, widen_byte_row, load_byte_row, widen_word_row, load_word_row, widen_sign_row, widen_long_row, load_row, store_byte_row, lea_row, push_row, pop_row, set_row, cmov_row, jcc_row, bare_row, branch_row, word_row, r11_row, widen_rows, second_rows, second, move_rows, bare_rows, widen_byte_rows, widen_word_rows, register_rows, digit_rows, moving_rows, opcode_rows, word_prefixed};

use crate::operand::{
    Memory, TwoRegisters, at, condition, div_sign, imm_op, long_word, register, shift_op, signed,
    two, word,
};
use crate::prefix;
use x86_core::instr::{
    AluOp, Cond, Decoded, HighSize, ImmOp, Instr, Prefix, ShiftOp, Size, Wide, WidenKind,
};
use x86_core::reg::Reg;

/// What stands behind a REX byte.
pub fn after_rex(p: Prefix, bytes: &[u8]) -> Decoded
    ensures { result ≡ rows.opcode p bytes.now }
{
    match bytes {
        [] => Decoded::Short,
        [b, rest @ ..] => opcode(p, *b, rest),
    }
}

/// What stands behind 66.
pub fn after_word(bytes: &[u8]) -> Decoded
    ensures { result ≡ word_prefixed bytes.now }
{
    match bytes {
        [] => Decoded::Short,
        [b, rest @ ..] => {
            if !prefix::is_rex_byte(*b) {
                return opcode(Prefix::Word { r: false, b: false }, *b, rest);
            }
            after_word_rex(prefix::rex_bits(*b), rest)
        }
    }
}

fn after_word_rex(p: Prefix, bytes: &[u8]) -> Decoded
    ensures { result ≡ rows.after_word p bytes.now }
{
    match p {
        Prefix::Rex { w, r, b } => {
            if !w && (r || b) {
                after_rex(Prefix::Word { r, b }, bytes)
            } else {
                Decoded::Unknown
            }
        }
        _ => Decoded::Unknown,
    }
}

/// The row of an opcode.
pub fn opcode(p: Prefix, b: u8, rest: &[u8]) -> Decoded
    ensures { result ≡ opcode_rows p b rest.now }
{
    match b {
        0x0F => second_table(p, rest),
        0x01 => alu(AluOp::Add, p, rest),
        0x09 => alu(AluOp::Or, p, rest),
        0x21 => alu(AluOp::And, p, rest),
        0x29 => alu(AluOp::Sub, p, rest),
        0x31 => alu(AluOp::Xor, p, rest),
        0x39 => alu(AluOp::Cmp, p, rest),
        0x85 => alu(AluOp::Test, p, rest),
        _ => moving(p, b, rest),
    }
}

fn moving(p: Prefix, b: u8, rest: &[u8]) -> Decoded
    ensures { result ≡ moving_rows p b rest.now }
{
    match b {
        0x89 => move_or_store(p, rest),
        0x8B => load(p, rest),
        0x88 => store_byte(p, rest),
        0x8D => lea(p, rest),
        0x63 => widen_long(p, rest),
        _ => digits(p, b, rest),
    }
}

fn digits(p: Prefix, b: u8, rest: &[u8]) -> Decoded
    ensures { result ≡ digit_rows p b rest.now }
{
    match b {
        0x81 => alu_constant(p, rest),
        0xD3 => shift(p, rest),
        0xF6 => byte_division(p, rest),
        0xF7 => division(p, rest),
        _ => in_opcode(p, b, rest),
    }
}

// The rows whose opcode names a register, and those of no group.
fn in_opcode(p: Prefix, b: u8, rest: &[u8]) -> Decoded
    ensures { result ≡ register_rows p b rest.now }
{
    match b / 8 {
        10 => push(p, b % 8),
        11 => pop(p, b % 8),
        23 => constant(p, b % 8, rest),
        _ => bare(p, b, rest),
    }
}

fn bare(p: Prefix, b: u8, rest: &[u8]) -> Decoded
    ensures { result ≡ bare_rows p b rest.now }
{
    match b {
        0xE8 => call(p, rest),
        0xE9 => jump(p, rest),
        0xC3 => alone(Instr::Ret, 1, p),
        0xCC => alone(Instr::Int3, 1, p),
        0x90 => alone(Instr::Nop, 1, p),
        0xFF => through_r11(p, rest),
        0x99 => high_half(p),
        _ => Decoded::Unknown,
    }
}

fn second_table(p: Prefix, bytes: &[u8]) -> Decoded
    ensures { result ≡ second p bytes.now }
{
    if !prefix::usual(p) {
        return Decoded::Unknown;
    }
    match bytes {
        [] => Decoded::Short,
        [b, rest @ ..] => second_opcode(p, *b, rest),
    }
}

fn second_opcode(p: Prefix, b: u8, rest: &[u8]) -> Decoded
    ensures { result ≡ second_rows p b rest.now }
{
    match b {
        0x05 => alone(Instr::Syscall, 2, p),
        0x0B => alone(Instr::Ud2, 2, p),
        _ => match b / 16 {
            4 => conditional_move(condition(b % 16), p, rest),
            8 => conditional_branch(condition(b % 16), p, rest),
            9 => set_byte(condition(b % 16), p, rest),
            _ => widening(p, b, rest),
        },
    }
}

fn widening(p: Prefix, b: u8, rest: &[u8]) -> Decoded
    ensures { result ≡ widen_rows p b rest.now }
{
    match b {
        0xAF => multiply(p, rest),
        0xB6 => byte_widening(p, rest),
        0xB7 => word_widening(p, rest),
        0xBE => sign_widening(WidenKind::Sign8, p, rest),
        0xBF => sign_widening(WidenKind::Sign16, p, rest),
        _ => Decoded::Unknown,
    }
}

fn move_or_store(p: Prefix, bytes: &[u8]) -> Decoded
    ensures { result ≡ move_rows p bytes.now }
{
    if !prefix::sized(p) {
        return Decoded::Unknown;
    }
    match bytes {
        [] => Decoded::Short,
        [m, ..] => {
            if m / 64 == 3 {
                move_registers(p, bytes)
            } else {
                store(p, bytes)
            }
        }
    }
}

fn move_registers(p: Prefix, bytes: &[u8]) -> Decoded
    ensures { result ≡ move_row p bytes.now }
{
    if prefix::free(p) {
        two(
            TwoRegisters::Mov(prefix::wide(p)),
            prefix::size(p) + 2,
            p,
            bytes,
        )
    } else {
        Decoded::Unknown
    }
}

fn store(p: Prefix, bytes: &[u8]) -> Decoded
    ensures { result ≡ store_row p bytes.now }
{
    if prefix::sized(p) {
        at(
            Memory::Store(prefix::operand_size(p)),
            prefix::size(p) + 6,
            p,
            bytes,
        )
    } else {
        Decoded::Unknown
    }
}

fn constant(p: Prefix, n: u8, bytes: &[u8]) -> Decoded
    requires { n < 8 }
    ensures { result ≡ constant_row p n bytes.now }
{
    if prefix::reg(p) {
        Decoded::Unknown
    } else {
        constant_to(register(prefix::rm(p), n), p, bytes)
    }
}

fn constant_to(d: Reg, p: Prefix, bytes: &[u8]) -> Decoded
    ensures { result ≡ constants p d bytes.now }
{
    if prefix::long(p) {
        constant_64(d, bytes)
    } else if prefix::narrow(p) {
        constant_32(d, prefix::size(p) + 5, bytes)
    } else {
        Decoded::Unknown
    }
}

fn constant_64(d: Reg, bytes: &[u8]) -> Decoded
    ensures { result ≡ taken (Instr.MovImm64 d) 10 (first8 bytes.now) }
{
    match long_word(bytes) {
        Some(n) => Decoded::One {
            instr: Instr::MovImm64(d, n),
            len: 10,
        },
        None => Decoded::Short,
    }
}

fn constant_32(d: Reg, len: u8, bytes: &[u8]) -> Decoded
    ensures { result ≡ taken (Instr.MovImm32 d) len (first4 bytes.now) }
{
    match word(bytes) {
        Some(n) => Decoded::One {
            instr: Instr::MovImm32(d, n),
            len,
        },
        None => Decoded::Short,
    }
}

fn alu(op: AluOp, p: Prefix, bytes: &[u8]) -> Decoded
    ensures { result ≡ alu_row op p bytes.now }
{
    if prefix::free(p) {
        two(
            TwoRegisters::Alu(op, prefix::wide(p)),
            prefix::size(p) + 2,
            p,
            bytes,
        )
    } else {
        Decoded::Unknown
    }
}

fn alu_constant(p: Prefix, bytes: &[u8]) -> Decoded
    ensures { result ≡ alu_imm_row p bytes.now }
{
    if !prefix::free(p) || prefix::reg(p) {
        return Decoded::Unknown;
    }
    match bytes {
        [] => Decoded::Short,
        [m, rest @ ..] => {
            if m / 64 != 3 {
                return Decoded::Unknown;
            }
            let d = register(prefix::rm(p), m % 8);
            alu_number(
                imm_op(m / 8 % 8),
                prefix::wide(p),
                d,
                prefix::size(p) + 6,
                rest,
            )
        }
    }
}

fn alu_number(op: Option<ImmOp>, w: Wide, d: Reg, len: u8, bytes: &[u8]) -> Decoded
    ensures { result ≡ alu_imm op w d len bytes.now }
{
    match op {
        Some(op) => match word(bytes) {
            Some(n) => Decoded::One {
                instr: Instr::AluImm(op, w, d, signed(n)),
                len,
            },
            None => Decoded::Short,
        },
        None => Decoded::Unknown,
    }
}

fn multiply(p: Prefix, bytes: &[u8]) -> Decoded
    ensures { result ≡ imul_row p bytes.now }
{
    if prefix::free(p) {
        two(
            TwoRegisters::Imul(prefix::wide(p)),
            prefix::size(p) + 3,
            p,
            bytes,
        )
    } else {
        Decoded::Unknown
    }
}

fn shift(p: Prefix, bytes: &[u8]) -> Decoded
    ensures { result ≡ shift_row p bytes.now }
{
    if !prefix::free(p) || prefix::reg(p) {
        return Decoded::Unknown;
    }
    match bytes {
        [] => Decoded::Short,
        [m, ..] => {
            if m / 64 != 3 {
                return Decoded::Unknown;
            }
            let d = register(prefix::rm(p), m % 8);
            shift_of(shift_op(m / 8 % 8), prefix::wide(p), d, prefix::size(p) + 2)
        }
    }
}

fn shift_of(op: Option<ShiftOp>, w: Wide, d: Reg, len: u8) -> Decoded
    ensures { result ≡ shifting op w d len }
{
    match op {
        Some(op) => Decoded::One {
            instr: Instr::Shift(op, w, d),
            len,
        },
        None => Decoded::Unknown,
    }
}

fn byte_division(p: Prefix, bytes: &[u8]) -> Decoded
    ensures { result ≡ byte_division_row p bytes.now }
{
    if !prefix::byte(p) || prefix::reg(p) {
        return Decoded::Unknown;
    }
    match bytes {
        [] => Decoded::Short,
        [m, ..] => {
            if m / 64 != 3 {
                return Decoded::Unknown;
            }
            let s = register(prefix::rm(p), m % 8);
            division_of(div_sign(m / 8 % 8), Size::W8, s, 3)
        }
    }
}

fn division(p: Prefix, bytes: &[u8]) -> Decoded
    ensures { result ≡ division_row p bytes.now }
{
    if !prefix::sized(p) || prefix::reg(p) {
        return Decoded::Unknown;
    }
    match bytes {
        [] => Decoded::Short,
        [m, ..] => {
            if m / 64 != 3 {
                return Decoded::Unknown;
            }
            let s = register(prefix::rm(p), m % 8);
            division_of(
                div_sign(m / 8 % 8),
                prefix::operand_size(p),
                s,
                prefix::size(p) + 2,
            )
        }
    }
}

fn division_of(signed: Option<bool>, size: Size, s: Reg, len: u8) -> Decoded
    ensures { result ≡ dividing signed size s len }
{
    match signed {
        Some(signed) => Decoded::One {
            instr: Instr::Div(signed, size, s),
            len,
        },
        None => Decoded::Unknown,
    }
}

fn high_half(p: Prefix) -> Decoded
    ensures { result ≡ high_row p }
{
    match p {
        Prefix::Plain => Decoded::One {
            instr: Instr::High(HighSize::W32),
            len: 1,
        },
        Prefix::Rex {
            w: true,
            r: false,
            b: false,
        } => Decoded::One {
            instr: Instr::High(HighSize::W64),
            len: 2,
        },
        Prefix::Word { r: false, b: false } => Decoded::One {
            instr: Instr::High(HighSize::W16),
            len: 2,
        },
        _ => Decoded::Unknown,
    }
}

fn byte_widening(p: Prefix, bytes: &[u8]) -> Decoded
    ensures { result ≡ widen_byte_rows p bytes.now }
{
    if !prefix::byte(p) && !prefix::plain(p) {
        return Decoded::Unknown;
    }
    match bytes {
        [] => Decoded::Short,
        [m, ..] => {
            if m / 64 == 3 {
                widen_byte(p, bytes)
            } else {
                load_byte(p, bytes)
            }
        }
    }
}

fn widen_byte(p: Prefix, bytes: &[u8]) -> Decoded
    ensures { result ≡ widen_byte_row p bytes.now }
{
    if prefix::byte(p) {
        two(TwoRegisters::Widen(WidenKind::Zero8), 4, p, bytes)
    } else {
        Decoded::Unknown
    }
}

fn load_byte(p: Prefix, bytes: &[u8]) -> Decoded
    ensures { result ≡ load_byte_row p bytes.now }
{
    if prefix::narrow(p) {
        at(Memory::Load(Size::W8), prefix::size(p) + 7, p, bytes)
    } else {
        Decoded::Unknown
    }
}

fn word_widening(p: Prefix, bytes: &[u8]) -> Decoded
    ensures { result ≡ widen_word_rows p bytes.now }
{
    if !prefix::narrow(p) {
        return Decoded::Unknown;
    }
    match bytes {
        [] => Decoded::Short,
        [m, ..] => {
            if m / 64 == 3 {
                two(
                    TwoRegisters::Widen(WidenKind::Zero16),
                    prefix::size(p) + 3,
                    p,
                    bytes,
                )
            } else {
                at(Memory::Load(Size::W16), prefix::size(p) + 7, p, bytes)
            }
        }
    }
}

fn sign_widening(kind: WidenKind, p: Prefix, bytes: &[u8]) -> Decoded
    ensures { result ≡ widen_sign_row kind p bytes.now }
{
    if prefix::long(p) {
        two(TwoRegisters::Widen(kind), 4, p, bytes)
    } else {
        Decoded::Unknown
    }
}

fn widen_long(p: Prefix, bytes: &[u8]) -> Decoded
    ensures { result ≡ widen_long_row p bytes.now }
{
    if prefix::long(p) {
        two(TwoRegisters::Widen(WidenKind::Sign32), 3, p, bytes)
    } else {
        Decoded::Unknown
    }
}

fn load(p: Prefix, bytes: &[u8]) -> Decoded
    ensures { result ≡ load_row p bytes.now }
{
    if prefix::free(p) {
        at(
            Memory::Load(prefix::operand_size(p)),
            prefix::size(p) + 6,
            p,
            bytes,
        )
    } else {
        Decoded::Unknown
    }
}

fn store_byte(p: Prefix, bytes: &[u8]) -> Decoded
    ensures { result ≡ store_byte_row p bytes.now }
{
    if prefix::byte(p) {
        at(Memory::Store(Size::W8), 7, p, bytes)
    } else {
        Decoded::Unknown
    }
}

fn lea(p: Prefix, bytes: &[u8]) -> Decoded
    ensures { result ≡ lea_row p bytes.now }
{
    if prefix::long(p) {
        at(Memory::Lea, 7, p, bytes)
    } else {
        Decoded::Unknown
    }
}

fn push(p: Prefix, n: u8) -> Decoded
    requires { n < 8 }
    ensures { result ≡ push_row p n }
{
    if prefix::narrow(p) && !prefix::reg(p) {
        Decoded::One {
            instr: Instr::Push(register(prefix::rm(p), n)),
            len: prefix::size(p) + 1,
        }
    } else {
        Decoded::Unknown
    }
}

fn pop(p: Prefix, n: u8) -> Decoded
    requires { n < 8 }
    ensures { result ≡ pop_row p n }
{
    if prefix::narrow(p) && !prefix::reg(p) {
        Decoded::One {
            instr: Instr::Pop(register(prefix::rm(p), n)),
            len: prefix::size(p) + 1,
        }
    } else {
        Decoded::Unknown
    }
}

fn set_byte(c: Option<Cond>, p: Prefix, bytes: &[u8]) -> Decoded
    ensures { result ≡ set_row c p bytes.now }
{
    match c {
        Some(c) => set_byte_by(c, p, bytes),
        None => Decoded::Unknown,
    }
}

fn set_byte_by(c: Cond, p: Prefix, bytes: &[u8]) -> Decoded
    ensures { result ≡ set_row (Some c) p bytes.now }
{
    if !prefix::byte(p) || prefix::reg(p) {
        return Decoded::Unknown;
    }
    match bytes {
        [] => Decoded::Short,
        [m, ..] => {
            if m / 64 != 3 || m / 8 % 8 != 0 {
                return Decoded::Unknown;
            }
            Decoded::One {
                instr: Instr::SetCond(c, register(prefix::rm(p), m % 8)),
                len: 4,
            }
        }
    }
}

fn conditional_move(c: Option<Cond>, p: Prefix, bytes: &[u8]) -> Decoded
    ensures { result ≡ cmov_row c p bytes.now }
{
    match c {
        Some(c) => {
            if prefix::long(p) {
                two(TwoRegisters::Cmov(c), 4, p, bytes)
            } else {
                Decoded::Unknown
            }
        }
        None => Decoded::Unknown,
    }
}

fn conditional_branch(c: Option<Cond>, p: Prefix, bytes: &[u8]) -> Decoded
    ensures { result ≡ jcc_row c p bytes.now }
{
    match c {
        Some(c) => {
            if !prefix::plain(p) {
                return Decoded::Unknown;
            }
            match word(bytes) {
                Some(n) => Decoded::One {
                    instr: Instr::Jcc(c, signed(n)),
                    len: 6,
                },
                None => Decoded::Short,
            }
        }
        None => Decoded::Unknown,
    }
}

// An instruction with no prefix and no operand.
fn alone(instr: Instr, len: u8, p: Prefix) -> Decoded
    ensures { result ≡ bare_row instr len p }
{
    if prefix::plain(p) {
        Decoded::One { instr, len }
    } else {
        Decoded::Unknown
    }
}

fn call(p: Prefix, bytes: &[u8]) -> Decoded
    ensures { result ≡ branch_row (λ d. Instr.Call d) p bytes.now }
{
    if !prefix::plain(p) {
        return Decoded::Unknown;
    }
    match word(bytes) {
        Some(n) => Decoded::One {
            instr: Instr::Call(signed(n)),
            len: 5,
        },
        None => Decoded::Short,
    }
}

fn jump(p: Prefix, bytes: &[u8]) -> Decoded
    ensures { result ≡ branch_row (λ d. Instr.Jmp d) p bytes.now }
{
    if !prefix::plain(p) {
        return Decoded::Unknown;
    }
    match word(bytes) {
        Some(n) => Decoded::One {
            instr: Instr::Jmp(signed(n)),
            len: 5,
        },
        None => Decoded::Short,
    }
}

fn through_r11(p: Prefix, bytes: &[u8]) -> Decoded
    ensures { result ≡ r11_row p bytes.now }
{
    match p {
        Prefix::Rex {
            w: false,
            r: false,
            b: true,
        } => r11_operand(bytes),
        _ => Decoded::Unknown,
    }
}

fn r11_operand(bytes: &[u8]) -> Decoded
    ensures { result ≡ word_row bytes.now }
{
    match bytes {
        [] => Decoded::Short,
        [0xD3, ..] => Decoded::One {
            instr: Instr::CallR11,
            len: 3,
        },
        [0xE3, ..] => Decoded::One {
            instr: Instr::JmpR11,
            len: 3,
        },
        _ => Decoded::Unknown,
    }
}
