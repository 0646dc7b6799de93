//! The bytes of an instruction, by the shapes of its row: prefix, opcode, operands.
//!
//! Functions stand in the order of the rows of `docs/instructions.md`; those of a shape that
//! several rows share stand before them.

ghost use Rattle.std.specs.Prelude.{◌≡◌, ◌∷◌, ◌++◌, ◌+◌, ◌*◌, ◌<◌, ◌≤◌, [], length, true, false};
ghost use Rattle.rd_num.specs.Number.{le_bytes};
ghost use Rattle.x86_core.specs.Encoding.{encoding, rex, rex_if, extended, low3, is_wide, modrm, registers, digit, low32, number32, index_of, memory, alu_opcode, imm_digit, shift_digit, div_digit, cond_code};

use crate::spelling::Spelling;
use x86_core::instr::{AluOp, Cond, HighSize, ImmOp, Instr, Mem, ShiftOp, Size, Wide, WidenKind};
use x86_core::reg::{Reg, number};

/// The bytes of an instruction.
pub fn spelled(instr: Instr) -> Spelling
    ensures { result ≡ encoding instr }
{
    match instr {
        Instr::Mov(w, d, s) => of_registers(wide(w), 0x89, s, d),
        Instr::MovImm64(d, n) => constant_64(d, n),
        Instr::MovImm32(d, n) => constant_32(d, n),
        Instr::Alu(op, w, d, s) => of_registers(wide(w), alu_code(op), s, d),
        Instr::AluImm(op, w, d, n) => {
            let mut all = of_digit(wide(w), 0x81, imm_code(op), d);
            put_number(&mut all, n);
            all
        }
        Instr::Imul(w, d, s) => of_registers_second(wide(w), 0xAF, d, s),
        Instr::Shift(op, w, d) => of_digit(wide(w), 0xD3, shift_code(op), d),
        Instr::Div(signed, size, s) => division(signed, size, s),
        Instr::High(size) => high_half(size),
        Instr::Widen(kind, d, s) => widening(kind, d, s),
        Instr::Load(size, d, m) => load(size, d, m),
        Instr::Store(size, m, s) => store(size, m, s),
        Instr::Lea(d, m) => of_memory(true, 0x8D, d, m),
        Instr::Push(r) => of_opcode_register(0x50, r),
        Instr::Pop(r) => of_opcode_register(0x58, r),
        Instr::SetCond(c, d) => set_byte(c, d),
        Instr::Cmov(c, d, s) => of_registers_second(true, 0x40 + cond(c), d, s),
        Instr::Jcc(c, by) => {
            let mut all = second(0x80 + cond(c));
            put_number(&mut all, by);
            all
        }
        Instr::Jmp(by) => branch(0xE9, by),
        Instr::Call(by) => branch(0xE8, by),
        Instr::Ret => first(0xC3),
        Instr::CallR11 => through_r11(0xD3),
        Instr::JmpR11 => through_r11(0xE3),
        Instr::Syscall => second(0x05),
        Instr::Ud2 => second(0x0B),
        Instr::Int3 => first(0xCC),
        Instr::Nop => first(0x90),
    }
}

// The high bit of a register's number.
fn high(r: Reg) -> bool
    ensures { result ≡ extended r }
{
    number(r) >= 8
}

// The low three bits of a register's number.
fn low(r: Reg) -> u8
    ensures value { result ≡ low3 r }
    ensures small { result < 8 }
{
    number(r) % 8
}

fn wide(w: Wide) -> bool
    ensures { result ≡ is_wide w }
{
    match w {
        Wide::W32 => false,
        Wide::W64 => true,
    }
}

fn alu_code(op: AluOp) -> u8
    ensures { result ≡ alu_opcode op }
{
    match op {
        AluOp::Add => 0x01,
        AluOp::Or => 0x09,
        AluOp::And => 0x21,
        AluOp::Sub => 0x29,
        AluOp::Xor => 0x31,
        AluOp::Cmp => 0x39,
        AluOp::Test => 0x85,
    }
}

fn imm_code(op: ImmOp) -> u8
    ensures value { result ≡ imm_digit op }
    ensures small { result < 8 }
{
    match op {
        ImmOp::Add => 0,
        ImmOp::Or => 1,
        ImmOp::And => 4,
        ImmOp::Sub => 5,
        ImmOp::Xor => 6,
        ImmOp::Cmp => 7,
    }
}

fn shift_code(op: ShiftOp) -> u8
    ensures value { result ≡ shift_digit op }
    ensures small { result < 8 }
{
    match op {
        ShiftOp::Shl => 4,
        ShiftOp::Shr => 5,
        ShiftOp::Sar => 7,
    }
}

fn div_code(signed: bool) -> u8
    ensures value { result ≡ div_digit signed }
    ensures small { result < 8 }
{
    if signed { 7 } else { 6 }
}

fn cond(c: Cond) -> u8
    ensures value { result ≡ cond_code c }
    ensures small { result < 16 }
{
    match c {
        Cond::O => 0x0,
        Cond::No => 0x1,
        Cond::B => 0x2,
        Cond::Ae => 0x3,
        Cond::E => 0x4,
        Cond::Ne => 0x5,
        Cond::Be => 0x6,
        Cond::A => 0x7,
        Cond::S => 0x8,
        Cond::Ns => 0x9,
        Cond::L => 0xC,
        Cond::Ge => 0xD,
        Cond::Le => 0xE,
        Cond::G => 0xF,
    }
}

fn rex_byte(w: bool, r: bool, b: bool) -> u8
    ensures { result ≡ rex w r b }
{
    let wide = if w { 8 } else { 0 };
    let reg = if r { 4 } else { 0 };
    let rm = if b { 1 } else { 0 };
    0x40 + wide + reg + rm
}

// One byte.
fn first(b: u8) -> Spelling
    ensures all { result ≡ b ∷ [] }
    ensures len { length result ≡ 1 }
{
    let mut all = Spelling::new();
    all.put(b);
    all
}

// Two bytes, of which the first leads to the second table of opcodes.
fn second(b: u8) -> Spelling
    ensures all { result ≡ 0x0F ∷ b ∷ [] }
    ensures len { length result ≡ 2 }
{
    let mut all = first(0x0F);
    all.put(b);
    all
}

// The REX byte where one of its bits is set.
fn put_rex(all: &mut Spelling, w: bool, r: bool, b: bool)
    requires { length all.old < 16 }
    ensures all { all.new ≡ all.old ++ rex_if w r b }
    ensures len { length all.new ≤ length all.old + 1 }
{
    if w || r || b {
        all.put(rex_byte(w, r, b));
    }
}

// A number in four bytes.
fn put_number(all: &mut Spelling, n: i32)
    requires { length all.old < 12 }
    ensures all { all.new ≡ all.old ++ number32 n }
    ensures len { length all.new ≡ length all.old + 4 }
{
    put_word(all, n.cast_unsigned());
}

fn put_word(all: &mut Spelling, n: u32)
    requires { length all.old < 12 }
    ensures all { all.new ≡ all.old ++ le_bytes 4 n }
    ensures len { length all.new ≡ length all.old + 4 }
{
    all.put((n % 256) as u8);
    all.put((n / 256 % 256) as u8);
    all.put((n / 256 / 256 % 256) as u8);
    all.put((n / 256 / 256 / 256 % 256) as u8);
}

fn front(w: bool, r: bool, b: bool) -> Spelling
    ensures all { result ≡ rex_if w r b }
    ensures len { length result ≤ 1 }
{
    let mut all = Spelling::new();
    put_rex(&mut all, w, r, b);
    all
}

fn put_registers(all: &mut Spelling, reg: Reg, rm: Reg)
    requires { length all.old < 16 }
    ensures all { all.new ≡ all.old ++ registers reg rm ∷ [] }
    ensures len { length all.new ≡ length all.old + 1 }
{
    all.put(192 + 8 * low(reg) + low(rm));
}

fn put_digit(all: &mut Spelling, n: u8, rm: Reg)
    requires room { length all.old < 16 }
    requires small { n < 8 }
    ensures all { all.new ≡ all.old ++ digit n rm ∷ [] }
    ensures len { length all.new ≡ length all.old + 1 }
{
    all.put(192 + 8 * n + low(rm));
}

fn put_memory(all: &mut Spelling, reg: Reg, m: Mem)
    requires { length all.old < 10 }
    ensures { all.new ≡ all.old ++ memory reg m }
{
    all.put(128 + 8 * low(reg) + low(m.base));
    if low(m.base) == 4 {
        all.put(0x24);
    }
    put_number(all, m.disp);
}

// A row of two registers.
fn of_registers(w: bool, op: u8, reg: Reg, rm: Reg) -> Spelling
    ensures { result ≡ rex_if w (extended reg) (extended rm) ++ (op ∷ registers reg rm ∷ []) }
{
    let mut all = front(w, high(reg), high(rm));
    all.put(op);
    put_registers(&mut all, reg, rm);
    all
}

// A row of two registers in the second table.
fn of_registers_second(w: bool, op: u8, reg: Reg, rm: Reg) -> Spelling
    ensures { result ≡ rex_if w (extended reg) (extended rm) ++
        (0x0F ∷ op ∷ registers reg rm ∷ []) }
{
    let mut all = front(w, high(reg), high(rm));
    all.put(0x0F);
    all.put(op);
    put_registers(&mut all, reg, rm);
    all
}

// A row of a digit and a register.
fn of_digit(w: bool, op: u8, n: u8, rm: Reg) -> Spelling
    requires { n < 8 }
    ensures all { result ≡ rex_if w false (extended rm) ++ (op ∷ digit n rm ∷ []) }
    ensures len { length result ≤ 3 }
{
    let mut all = front(w, false, high(rm));
    all.put(op);
    put_digit(&mut all, n, rm);
    all
}

// A row of a register and a place in memory.
fn of_memory(w: bool, op: u8, reg: Reg, m: Mem) -> Spelling
    ensures { result ≡ rex_if w (extended reg) (extended m.base) ++ (op ∷ memory reg m) }
{
    let mut all = front(w, high(reg), high(m.base));
    all.put(op);
    put_memory(&mut all, reg, m);
    all
}

// A row of a register and a place in memory in the second table.
fn of_memory_second(op: u8, reg: Reg, m: Mem) -> Spelling
    ensures { result ≡ rex_if false (extended reg) (extended m.base) ++
        (0x0F ∷ op ∷ memory reg m) }
{
    let mut all = front(false, high(reg), high(m.base));
    all.put(0x0F);
    all.put(op);
    put_memory(&mut all, reg, m);
    all
}

// A row of a register in the opcode.
fn of_opcode_register(op: u8, r: Reg) -> Spelling
    requires { op < 248 }
    ensures all { result ≡ rex_if false false (extended r) ++ ((op + low3 r) ∷ []) }
    ensures len { length result ≤ 2 }
{
    let mut all = front(false, false, high(r));
    all.put(op + low(r));
    all
}

fn constant_64(d: Reg, n: u64) -> Spelling
    ensures { result ≡ rex true false (extended d) ∷ (0xB8 + low3 d) ∷ le_bytes 8 n }
{
    let mut all = first(rex_byte(true, false, high(d)));
    all.put(0xB8 + low(d));
    put_word(&mut all, (n % 4294967296) as u32);
    put_word(&mut all, (n / 4294967296) as u32);
    all
}

fn constant_32(d: Reg, n: u32) -> Spelling
    ensures { result ≡ rex_if false false (extended d) ++ ((0xB8 + low3 d) ∷ le_bytes 4 n) }
{
    let mut all = of_opcode_register(0xB8, d);
    put_word(&mut all, n);
    all
}

fn division(signed: bool, size: Size, s: Reg) -> Spelling
    ensures { result ≡ encoding (Instr.Div signed size s) }
{
    match size {
        Size::W8 => {
            let mut all = first(rex_byte(false, false, high(s)));
            all.put(0xF6);
            put_digit(&mut all, div_code(signed), s);
            all
        }
        Size::W16 => {
            let mut all = first(0x66);
            put_rex(&mut all, false, false, high(s));
            all.put(0xF7);
            put_digit(&mut all, div_code(signed), s);
            all
        }
        Size::W32 => of_digit(false, 0xF7, div_code(signed), s),
        Size::W64 => of_digit(true, 0xF7, div_code(signed), s),
    }
}

fn high_half(size: HighSize) -> Spelling
    ensures { result ≡ encoding (Instr.High size) }
{
    match size {
        HighSize::W16 => {
            let mut all = first(0x66);
            all.put(0x99);
            all
        }
        HighSize::W32 => first(0x99),
        HighSize::W64 => {
            let mut all = first(0x48);
            all.put(0x99);
            all
        }
    }
}

fn widening(kind: WidenKind, d: Reg, s: Reg) -> Spelling
    ensures { result ≡ encoding (Instr.Widen kind d s) }
{
    match kind {
        WidenKind::Zero8 => {
            let mut all = first(rex_byte(false, high(d), high(s)));
            all.put(0x0F);
            all.put(0xB6);
            put_registers(&mut all, d, s);
            all
        }
        WidenKind::Zero16 => of_registers_second(false, 0xB7, d, s),
        WidenKind::Sign8 => of_registers_second(true, 0xBE, d, s),
        WidenKind::Sign16 => of_registers_second(true, 0xBF, d, s),
        WidenKind::Sign32 => of_registers(true, 0x63, d, s),
    }
}

fn load(size: Size, d: Reg, m: Mem) -> Spelling
    ensures { result ≡ encoding (Instr.Load size d m) }
{
    match size {
        Size::W64 => of_memory(true, 0x8B, d, m),
        Size::W32 => of_memory(false, 0x8B, d, m),
        Size::W16 => of_memory_second(0xB7, d, m),
        Size::W8 => of_memory_second(0xB6, d, m),
    }
}

fn store(size: Size, m: Mem, s: Reg) -> Spelling
    ensures { result ≡ encoding (Instr.Store size m s) }
{
    match size {
        Size::W64 => of_memory(true, 0x89, s, m),
        Size::W32 => of_memory(false, 0x89, s, m),
        Size::W16 => {
            let mut all = first(0x66);
            put_rex(&mut all, false, high(s), high(m.base));
            all.put(0x89);
            put_memory(&mut all, s, m);
            all
        }
        Size::W8 => {
            let mut all = first(rex_byte(false, high(s), high(m.base)));
            all.put(0x88);
            put_memory(&mut all, s, m);
            all
        }
    }
}

fn set_byte(c: Cond, d: Reg) -> Spelling
    ensures { result ≡ encoding (Instr.SetCond c d) }
{
    let mut all = first(rex_byte(false, false, high(d)));
    all.put(0x0F);
    all.put(0x90 + cond(c));
    put_digit(&mut all, 0, d);
    all
}

fn branch(op: u8, by: i32) -> Spelling
    ensures { result ≡ op ∷ number32 by }
{
    let mut all = first(op);
    put_number(&mut all, by);
    all
}

fn through_r11(operand: u8) -> Spelling
    ensures { result ≡ 0x41 ∷ 0xFF ∷ operand ∷ [] }
{
    let mut all = first(0x41);
    all.put(0xFF);
    all.put(operand);
    all
}
