//! What an instruction does to registers and flags, which access to memory it makes, and where the
//! machine goes on.
//!
//! What only the machine has is left to it: a word that is read from memory and the register that
//! gets it, the address that a call pushes, the word at the old `rsp` that a return goes to, and
//! what the kernel does. A push and a pop have their access in `Access`; a call and a return have
//! none there, and only their `rsp` is moved.

ghost use Rattle.std.specs.Prelude.{◌≡◌, ◌^◌, ◌<◌, ◌*◌};
ghost use Rattle.x86_core.specs.Registers.{word, with_word};
ghost use Rattle.x86_core.specs.Arithmetic.{size_bits, kept, moved, holds, unknown_flags};
ghost use Rattle.x86_core.specs.Effect.{effect_of, plain, going, alu_effect, imul_effect, shift_effect, dividend, with_division, div_effect, high_effect, address_of, with_stack, set_effect, cmov_effect, jcc_effect};

use crate::alu::{extended_constant, flags_of, low_bits, operation, result_of, writes};
use crate::condition::test;
use crate::divide::{Division, divide, size_low};
use crate::flags::{Flag, Flags};
use crate::instr::{AluOp, Cond, HighSize, Instr, Mem, ShiftOp, Size, Wide};
use crate::reg::{Reg, Regs};
use crate::shift::{count, flags_after, shift};
use crate::widen::{fill, widen};

/// An instruction's access to memory. A word that is read goes into a register with zeros above it.
#[derive(Clone, Copy, PartialEq, Eq)]
pub enum Access {
    Nothing,
    Read { at: u64, size: Size, into: Reg },
    Write { at: u64, size: Size, word: u64 },
}

/// Where the machine goes on, or why it stops.
#[derive(Clone, Copy, PartialEq, Eq)]
pub enum Next {
    Fall,
    Branch(i32),
    Call(i32),
    Return,
    ToR11,
    CallR11,
    Kernel,
    Divide,
    Invalid,
    Breakpoint,
    NoFlag,
}

/// Registers and flags after an instruction, its access, and where the machine goes on.
#[derive(Drop)]
pub struct Change {
    pub regs: Regs,
    pub flags: Flags,
    pub access: Access,
    pub next: Next,
}

/// What an instruction does. Takes no memory.
///
/// An instruction that stops, by a division without an answer, a flag that isn't known, or on
/// purpose, changes no register and no flag.
#[tactic(auto, unfolding(crate::specs::Effect::effect_of))]
pub fn effect(instr: &Instr, regs: &Regs, flags: &Flags) -> Change
    ensures { result ≡ effect_of instr.now regs.now flags.now }
{
    match *instr {
        Instr::Mov(w, d, s) => plain_change(changed(regs, d, low_bits(w, regs.get(s))), *flags),
        Instr::MovImm64(d, n) => plain_change(changed(regs, d, n), *flags),
        Instr::MovImm32(d, n) => plain_change(changed(regs, d, n as u64), *flags),
        Instr::Alu(op, w, d, s) => alu(op, w, d, regs.get(s), regs),
        Instr::AluImm(op, w, d, n) => alu(operation(op), w, d, extended_constant(n), regs),
        Instr::Imul(w, d, s) => multiply(w, d, s, regs),
        Instr::Shift(op, w, d) => shift_register(op, w, d, regs, flags),
        Instr::Div(signed, size, s) => division_by(signed, size, s, regs, flags),
        Instr::High(size) => plain_change(filled(size, regs), *flags),
        Instr::Widen(kind, d, s) => plain_change(
            changed(regs, d, widen(kind, regs.get(s))),
            *flags,
        ),
        Instr::Load(size, d, m) => reading(regs.copy(), *flags, address(regs, m), size, d),
        Instr::Store(size, m, s) => {
            writing(
                regs.copy(),
                *flags,
                address(regs, m),
                size,
                size_low(size, regs.get(s)),
            )
        }
        Instr::Lea(d, m) => plain_change(changed(regs, d, address(regs, m)), *flags),
        Instr::Push(r) => {
            let top = displaced(regs.get(Reg::Rsp), -8);
            writing(stacked(regs, -8), *flags, top, Size::W64, regs.get(r))
        }
        Instr::Pop(r) => reading(stacked(regs, 8), *flags, regs.get(Reg::Rsp), Size::W64, r),
        Instr::SetCond(c, d) => set_by(c, d, regs, flags),
        Instr::Cmov(c, d, s) => move_by(c, d, s, regs, flags),
        Instr::Jcc(c, by) => branch_by(c, by, regs, flags),
        Instr::Jmp(by) => going_on(regs.copy(), *flags, Next::Branch(by)),
        Instr::Call(by) => going_on(stacked(regs, -8), *flags, Next::Call(by)),
        Instr::Ret => going_on(stacked(regs, 8), *flags, Next::Return),
        Instr::CallR11 => going_on(stacked(regs, -8), *flags, Next::CallR11),
        Instr::JmpR11 => going_on(regs.copy(), *flags, Next::ToR11),
        Instr::Syscall => going_on(regs.copy(), *flags, Next::Kernel),
        Instr::Ud2 => going_on(regs.copy(), *flags, Next::Invalid),
        Instr::Int3 => going_on(regs.copy(), *flags, Next::Breakpoint),
        Instr::Nop => plain_change(regs.copy(), *flags),
    }
}

fn plain_change(regs: Regs, flags: Flags) -> Change
    ensures { result ≡ plain regs flags }
{
    going_on(regs, flags, Next::Fall)
}

fn going_on(regs: Regs, flags: Flags, next: Next) -> Change
    ensures { result ≡ going regs flags next }
{
    Change {
        regs,
        flags,
        access: Access::Nothing,
        next,
    }
}

fn reading(regs: Regs, flags: Flags, at: u64, size: Size, into: Reg) -> Change
    ensures { result ≡ record
        { regs = regs; flags = flags; access = Access.Read at size into; next = Next.Fall } }
{
    Change {
        regs,
        flags,
        access: Access::Read { at, size, into },
        next: Next::Fall,
    }
}

fn writing(regs: Regs, flags: Flags, at: u64, size: Size, word: u64) -> Change
    ensures { result ≡ record
        { regs = regs; flags = flags; access = Access.Write at size word; next = Next.Fall } }
{
    Change {
        regs,
        flags,
        access: Access::Write { at, size, word },
        next: Next::Fall,
    }
}

// The words with another one in a register.
fn changed(regs: &Regs, r: Reg, n: u64) -> Regs
    ensures { result ≡ with_word regs.now r n }
{
    let mut all = regs.copy();
    all.set(r, n);
    all
}

// A number moved by a displacement, modulo 2^64.
pub(crate) fn displaced(n: u64, by: i32) -> u64
    ensures { result ≡ moved n by }
{
    n.wrapping_add_signed(by as i64)
}

pub(crate) fn address(regs: &Regs, m: Mem) -> u64
    ensures { result ≡ address_of regs.now m }
{
    displaced(regs.get(m.base), m.disp)
}

fn stacked(regs: &Regs, by: i32) -> Regs
    ensures { result ≡ with_stack regs.now by }
{
    changed(regs, Reg::Rsp, displaced(regs.get(Reg::Rsp), by))
}

pub(crate) fn unknown() -> Flags
    ensures { result ≡ unknown_flags }
{
    Flags {
        c: Flag::Unknown,
        z: Flag::Unknown,
        s: Flag::Unknown,
        o: Flag::Unknown,
    }
}

fn alu(op: AluOp, w: Wide, d: Reg, n: u64, regs: &Regs) -> Change
    ensures { result ≡ alu_effect op w d n regs.now }
{
    let a = low_bits(w, regs.get(d));
    let b = low_bits(w, n);
    let r = result_of(op, w, a, b);
    let flags = flags_of(op, w, a, b, r);
    if writes(op) {
        plain_change(changed(regs, d, r), flags)
    } else {
        plain_change(regs.copy(), flags)
    }
}

fn multiply(w: Wide, d: Reg, s: Reg, regs: &Regs) -> Change
    ensures { result ≡ imul_effect w d s regs.now }
{
    let product = regs.get(d).wrapping_mul(regs.get(s));
    plain_change(changed(regs, d, low_bits(w, product)), unknown())
}

fn shift_register(op: ShiftOp, w: Wide, d: Reg, regs: &Regs, flags: &Flags) -> Change
    ensures { result ≡ shift_effect op w d regs.now flags.now }
{
    let by = count(w, regs.get(Reg::Rcx));
    let r = shift(op, w, low_bits(w, regs.get(d)), by);
    plain_change(changed(regs, d, r), flags_after(w, by, r, flags))
}

// The number that is divided: ax, dx:ax, edx:eax or rdx:rax.
pub(crate) fn dividend_of(size: Size, regs: &Regs) -> u128
    ensures value { result ≡ dividend size regs.now }
    ensures small { result < 2 ^ (2 * size_bits size) }
{
    let above = regs.get(Reg::Rdx);
    let below = regs.get(Reg::Rax);
    match size {
        Size::W8 => (below % 65536) as u128,
        Size::W16 => ((above % 65536) * 65536 + below % 65536) as u128,
        Size::W32 => ((above % 4294967296) as u128) * 4294967296 + ((below % 4294967296) as u128),
        Size::W64 => (above as u128) * 18446744073709551616 + (below as u128),
    }
}

// The low bits of a register's word in the place of others.
pub(crate) fn with_low(size: Size, old: u64, n: u64) -> u64
    requires { n < 2 ^ size_bits size }
    ensures { result ≡ kept size old n }
{
    match size {
        Size::W8 => old / 256 * 256 + n,
        Size::W16 => old / 65536 * 65536 + n,
        _ => n,
    }
}

fn division_by(signed: bool, size: Size, s: Reg, regs: &Regs, flags: &Flags) -> Change
    ensures { result ≡ div_effect signed size s regs.now flags.now }
{
    match divide(
        signed,
        size,
        dividend_of(size, regs),
        size_low(size, regs.get(s)),
    ) {
        Some(d) => plain_change(with_answer(size, regs, d), unknown()),
        None => going_on(regs.copy(), *flags, Next::Divide),
    }
}

fn with_answer(size: Size, regs: &Regs, d: Division) -> Regs
    requires quotient { d.quotient < 2 ^ size_bits size }
    requires remainder { d.remainder < 2 ^ size_bits size }
    ensures { result ≡ with_division size regs.now d }
{
    match size {
        Size::W8 => {
            let n = d.remainder * 256 + d.quotient;
            changed(regs, Reg::Rax, with_low(Size::W16, regs.get(Reg::Rax), n))
        }
        _ => {
            let mut all = changed(
                regs,
                Reg::Rax,
                with_low(size, regs.get(Reg::Rax), d.quotient),
            );
            all.set(Reg::Rdx, with_low(size, regs.get(Reg::Rdx), d.remainder));
            all
        }
    }
}

fn filled(size: HighSize, regs: &Regs) -> Regs
    ensures { result ≡ high_effect size regs.now }
{
    let n = fill(size, regs.get(Reg::Rax));
    match size {
        HighSize::W16 => changed(regs, Reg::Rdx, with_low(Size::W16, regs.get(Reg::Rdx), n)),
        _ => changed(regs, Reg::Rdx, n),
    }
}

fn set_by(c: Cond, d: Reg, regs: &Regs, flags: &Flags) -> Change
    ensures { result ≡ set_effect (holds c flags.now) d regs.now flags.now }
{
    match test(c, flags) {
        Some(t) => {
            let n = if t { 1 } else { 0 };
            plain_change(changed(regs, d, with_low(Size::W8, regs.get(d), n)), *flags)
        }
        None => going_on(regs.copy(), *flags, Next::NoFlag),
    }
}

fn move_by(c: Cond, d: Reg, s: Reg, regs: &Regs, flags: &Flags) -> Change
    ensures { result ≡ cmov_effect (holds c flags.now) d s regs.now flags.now }
{
    match test(c, flags) {
        Some(true) => plain_change(changed(regs, d, regs.get(s)), *flags),
        Some(false) => plain_change(regs.copy(), *flags),
        None => going_on(regs.copy(), *flags, Next::NoFlag),
    }
}

fn branch_by(c: Cond, by: i32, regs: &Regs, flags: &Flags) -> Change
    ensures { result ≡ jcc_effect (holds c flags.now) by regs.now flags.now }
{
    match test(c, flags) {
        Some(true) => going_on(regs.copy(), *flags, Next::Branch(by)),
        Some(false) => going_on(regs.copy(), *flags, Next::Fall),
        None => going_on(regs.copy(), *flags, Next::NoFlag),
    }
}
