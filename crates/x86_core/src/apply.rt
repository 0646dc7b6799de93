//! What an instruction does, with the registers and flags changed in place.
//!
//! `access` says beforehand which access to memory the instruction makes, so that it can be tested
//! and made before anything is changed. Calls and returns leave `rsp` to the machine, which moves it
//! once their access was allowed.

ghost use Rattle.std.specs.Prelude.{◌≡◌, ℕ, ◌^◌, ◌<◌, List};
ghost use Rattle.x86_core.specs.declared.flags.Flags.{Flags as AllFlags};
ghost use Rattle.x86_core.specs.Registers.{with_word};
ghost use Rattle.x86_core.specs.Arithmetic.{size_bits, holds};
ghost use Rattle.x86_core.specs.Effect.{effect_of, alu_effect, imul_effect, shift_effect, with_division, div_effect, high_effect, with_stack, set_effect, cmov_effect, jcc_effect};
ghost use Rattle.x86_core.specs.Applying.{where_it_falls};

use crate::alu::{extended_constant, flags_of, low_bits, operation, result_of, writes};
use crate::condition::test;
use crate::divide::{Division, divide, size_low};
use crate::effect::{Access, Next, address, displaced, dividend_of, unknown, with_low};
use crate::flags::Flags;
use crate::instr::{AluOp, Cond, HighSize, Instr, ShiftOp, Size, Wide};
use crate::reg::{Reg, Regs};
use crate::shift::{count, flags_after, shift};
use crate::widen::{fill, widen};

/// The access to memory that an instruction makes. Takes no memory.
///
/// Flags have no part in it, and neither have calls and returns.
#[inline]
#[tactic(auto, unfolding(crate::specs::Effect::effect_of))]
pub fn access(instr: &Instr, regs: &Regs) -> Access
    ensures { (flags : AllFlags) → result ≡ (effect_of instr.now regs.now flags).access }
{
    match *instr {
        Instr::Load(size, into, m) => Access::Read {
            at: address(regs, m),
            size,
            into,
        },
        Instr::Store(size, m, s) => Access::Write {
            at: address(regs, m),
            size,
            word: size_low(size, regs.get(s)),
        },
        Instr::Push(r) => Access::Write {
            at: displaced(regs.get(Reg::Rsp), -8),
            size: Size::W64,
            word: regs.get(r),
        },
        Instr::Pop(r) => Access::Read {
            at: regs.get(Reg::Rsp),
            size: Size::W64,
            into: r,
        },
        _ => Access::Nothing,
    }
}

/// Changes registers and flags as an instruction does that goes on to the next one, and answers
/// where the machine goes on. Takes no memory.
///
/// An instruction that leads elsewhere or stops changes nothing. A word that is read from memory is
/// left to the machine.
#[inline]
#[tactic(auto, unfolding(crate::specs::Effect::effect_of))]
pub fn apply(instr: &Instr, regs: &mut Regs, flags: &mut Flags) -> Next
    ensures next { result ≡ (effect_of instr.now regs.old flags.old).next }
    ensures regs { let c = effect_of instr.now regs.old flags.old in
        regs.new ≡ where_it_falls c.next c.regs regs.old }
    ensures flags { let c = effect_of instr.now regs.old flags.old in
        flags.new ≡ where_it_falls c.next c.flags flags.old }
{
    match *instr {
        Instr::Mov(w, d, s) => put(regs, d, low_bits(w, regs.get(s))),
        Instr::MovImm64(d, n) => put(regs, d, n),
        Instr::MovImm32(d, n) => put(regs, d, n as u64),
        Instr::Alu(op, w, d, s) => operate(op, w, d, regs.get(s), regs, flags),
        Instr::AluImm(op, w, d, n) => {
            operate(operation(op), w, d, extended_constant(n), regs, flags)
        }
        Instr::Imul(w, d, s) => multiply(w, d, s, regs, flags),
        Instr::Shift(op, w, d) => shift_in_place(op, w, d, regs, flags),
        Instr::Div(signed, size, s) => divide_by(signed, size, s, regs, flags),
        Instr::High(size) => fill_high(size, regs),
        Instr::Widen(kind, d, s) => put(regs, d, widen(kind, regs.get(s))),
        Instr::Load(_, _, _) => Next::Fall,
        Instr::Store(_, _, _) => Next::Fall,
        Instr::Lea(d, m) => put(regs, d, address(regs, m)),
        Instr::Push(_) => move_stack(regs, -8),
        Instr::Pop(_) => move_stack(regs, 8),
        Instr::SetCond(c, d) => set_by(c, d, regs, flags),
        Instr::Cmov(c, d, s) => move_by(c, d, s, regs, flags),
        Instr::Jcc(c, by) => branch_by(c, by, flags),
        Instr::Jmp(by) => Next::Branch(by),
        Instr::Call(by) => Next::Call(by),
        Instr::Ret => Next::Return,
        Instr::CallR11 => Next::CallR11,
        Instr::JmpR11 => Next::ToR11,
        Instr::Syscall => Next::Kernel,
        Instr::Ud2 => Next::Invalid,
        Instr::Int3 => Next::Breakpoint,
        Instr::Nop => Next::Fall,
    }
}

// Gives a register a word.
fn put(regs: &mut Regs, r: Reg, n: u64) -> Next
    ensures next { result ≡ Next.Fall }
    ensures regs { regs.new ≡ with_word regs.old r n }
{
    regs.set(r, n);
    Next::Fall
}

fn move_stack(regs: &mut Regs, by: i32) -> Next
    ensures next { result ≡ Next.Fall }
    ensures regs { regs.new ≡ with_stack regs.old by }
{
    let top = displaced(regs.get(Reg::Rsp), by);
    put(regs, Reg::Rsp, top)
}

fn operate(op: AluOp, w: Wide, d: Reg, n: u64, regs: &mut Regs, flags: &mut Flags) -> Next
    ensures next { result ≡ Next.Fall }
    ensures regs { regs.new ≡ (alu_effect op w d n regs.old).regs }
    ensures flags { flags.new ≡ (alu_effect op w d n regs.old).flags }
{
    let a = low_bits(w, regs.get(d));
    let b = low_bits(w, n);
    let r = result_of(op, w, a, b);
    *flags = flags_of(op, w, a, b, r);
    if writes(op) {
        regs.set(d, r);
    }
    Next::Fall
}

fn multiply(w: Wide, d: Reg, s: Reg, regs: &mut Regs, flags: &mut Flags) -> Next
    ensures next { result ≡ Next.Fall }
    ensures regs { regs.new ≡ (imul_effect w d s regs.old).regs }
    ensures flags { flags.new ≡ (imul_effect w d s regs.old).flags }
{
    let product = regs.get(d).wrapping_mul(regs.get(s));
    *flags = unknown();
    put(regs, d, low_bits(w, product))
}

fn shift_in_place(op: ShiftOp, w: Wide, d: Reg, regs: &mut Regs, flags: &mut Flags) -> Next
    ensures next { result ≡ Next.Fall }
    ensures regs { regs.new ≡ (shift_effect op w d regs.old flags.old).regs }
    ensures flags { flags.new ≡ (shift_effect op w d regs.old flags.old).flags }
{
    let by = count(w, regs.get(Reg::Rcx));
    let r = shift(op, w, low_bits(w, regs.get(d)), by);
    *flags = flags_after(w, by, r, flags);
    put(regs, d, r)
}

fn divide_by(signed: bool, size: Size, s: Reg, regs: &mut Regs, flags: &mut Flags) -> Next
    ensures next { result ≡ (div_effect signed size s regs.old flags.old).next }
    ensures regs { let c = div_effect signed size s regs.old flags.old in
        regs.new ≡ where_it_falls c.next c.regs regs.old }
    ensures flags { let c = div_effect signed size s regs.old flags.old in
        flags.new ≡ where_it_falls c.next c.flags flags.old }
{
    match divide(
        signed,
        size,
        dividend_of(size, regs),
        size_low(size, regs.get(s)),
    ) {
        Some(d) => {
            put_answer(size, regs, d);
            *flags = unknown();
            Next::Fall
        }
        None => Next::Divide,
    }
}

// Puts a quotient and a remainder into their registers.
fn put_answer(size: Size, regs: &mut Regs, d: Division)
    requires quotient { d.quotient < 2 ^ size_bits size }
    requires remainder { d.remainder < 2 ^ size_bits size }
    ensures { regs.new ≡ with_division size regs.old d }
{
    match size {
        Size::W8 => {
            let n = d.remainder * 256 + d.quotient;
            regs.set(Reg::Rax, with_low(Size::W16, regs.get(Reg::Rax), n));
        }
        _ => {
            let below = with_low(size, regs.get(Reg::Rax), d.quotient);
            let above = with_low(size, regs.get(Reg::Rdx), d.remainder);
            regs.set(Reg::Rax, below);
            regs.set(Reg::Rdx, above);
        }
    }
}

fn fill_high(size: HighSize, regs: &mut Regs) -> Next
    ensures next { result ≡ Next.Fall }
    ensures regs { regs.new ≡ high_effect size regs.old }
{
    let n = fill(size, regs.get(Reg::Rax));
    let word = match size {
        HighSize::W16 => with_low(Size::W16, regs.get(Reg::Rdx), n),
        _ => n,
    };
    put(regs, Reg::Rdx, word)
}

fn set_by(c: Cond, d: Reg, regs: &mut Regs, flags: &Flags) -> Next
    ensures next { result ≡ (set_effect (holds c flags.now) d regs.old flags.now).next }
    ensures regs { regs.new ≡ (set_effect (holds c flags.now) d regs.old flags.now).regs }
{
    match test(c, flags) {
        Some(t) => {
            let n = if t { 1 } else { 0 };
            put(regs, d, with_low(Size::W8, regs.get(d), n))
        }
        None => Next::NoFlag,
    }
}

fn move_by(c: Cond, d: Reg, s: Reg, regs: &mut Regs, flags: &Flags) -> Next
    ensures next { result ≡ (cmov_effect (holds c flags.now) d s regs.old flags.now).next }
    ensures regs { regs.new ≡ (cmov_effect (holds c flags.now) d s regs.old flags.now).regs }
{
    match test(c, flags) {
        Some(true) => put(regs, d, regs.get(s)),
        Some(false) => Next::Fall,
        None => Next::NoFlag,
    }
}

fn branch_by(c: Cond, by: i32, flags: &Flags) -> Next
    ensures { (regs : List ℕ) → result ≡ (jcc_effect (holds c flags.now) by regs flags.now).next }
{
    match test(c, flags) {
        Some(true) => Next::Branch(by),
        Some(false) => Next::Fall,
        None => Next::NoFlag,
    }
}
