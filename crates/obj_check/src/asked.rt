//! What the rules ask of one instruction: whether it is a slot's own, an end or a branch, and its
//! registers.
//!
//! Each function answers for one instruction alone and keeps nothing; `notes` puts the answers of a
//! function's instructions together. The rules are those of `specs/WellFormed.antt` and, for
//! registers, `specs/Saved.antt`, both of `obj_core`; a register is named by its number in the machine.

ghost use Rattle.std.specs.Prelude.{◌≡◌, ◌≤◌, ◌||◌, nat_eq, [], ◌∷◌};
ghost use Rattle.x86_core.specs.declared.reg.Reg.{Reg as Register};
ghost use Rattle.x86_core.specs.Registers.{number_of};
ghost use Rattle.obj_core.specs.Saved.{registers_of, is_push_or_pop, is_among};
ghost use Rattle.obj_core.specs.WellFormed.{displacement, is_zero, is_slots_own, is_end};
ghost use Rattle.obj_check.specs.Marked.{room, marked};

use crate::marks::{Table, mark};
use x86_core::instr::Instr;
use x86_core::reg::{Reg, number};

/// Whether an instruction is one that only a slot may have.
pub fn is_slots_own(instr: &Instr) -> bool
    ensures { result ≡ is_slots_own instr.now }
{
    matches!(instr, Instr::Call(_) | Instr::CallR11 | Instr::Syscall)
}

/// Whether an instruction may be a function's last one.
pub fn is_end(instr: &Instr) -> bool
    ensures { result ≡ is_end instr.now }
{
    matches!(
        instr,
        Instr::Jmp(_) | Instr::JmpR11 | Instr::Ret | Instr::Ud2 | Instr::Int3
    )
}

/// The displacement of a branch.
pub fn displacement(instr: &Instr) -> Option<i32>
    ensures { result ≡ displacement instr.now }
{
    match *instr {
        Instr::Jcc(_, by) => Some(by),
        Instr::Jmp(by) => Some(by),
        _ => None,
    }
}

/// Whether an instruction is a branch with displacement 0.
pub fn is_zero_branch(instr: &Instr) -> bool
    ensures { result ≡ is_zero (displacement instr.now) }
{
    match displacement(instr) {
        Some(by) => by == 0,
        None => false,
    }
}

pub fn is_push_or_pop(instr: &Instr) -> bool
    ensures { result ≡ is_push_or_pop instr.now }
{
    matches!(instr, Instr::Push(_) | Instr::Pop(_))
}

/// Marks the number of a register.
fn mark_register(table: &mut Table, reg: Reg)
    requires { 16 ≤ room table.old }
    ensures room { room table.new ≡ room table.old }
    ensures marks { (r : Register) → marked table.new (number_of r) ≡
        (nat_eq (number_of r) (number_of reg) || marked table.old (number_of r)) }
{
    mark(table, number(reg) as usize);
}

/// Marks the number of an instruction's only register.
fn mark_one(table: &mut Table, reg: Reg)
    requires { 16 ≤ room table.old }
    ensures room { room table.new ≡ room table.old }
    ensures marks { (r : Register) → marked table.new (number_of r) ≡
        (is_among r (reg ∷ []) || marked table.old (number_of r)) }
{
    mark_register(table, reg);
}

/// Marks the numbers of two registers.
fn mark_two(table: &mut Table, a: Reg, b: Reg)
    requires { 16 ≤ room table.old }
    ensures room { room table.new ≡ room table.old }
    ensures marks { (r : Register) → marked table.new (number_of r) ≡
        (is_among r (a ∷ b ∷ []) || marked table.old (number_of r)) }
{
    mark_register(table, b);
    mark_register(table, a);
}

/// Marks the numbers of an instruction's registers: operands, and the base of a memory operand.
pub fn mark_registers(table: &mut Table, instr: &Instr)
    requires { 16 ≤ room table.old }
    ensures room { room table.new ≡ room table.old }
    ensures marks { (r : Register) → marked table.new (number_of r) ≡
        (is_among r (registers_of instr.now) || marked table.old (number_of r)) }
{
    match *instr {
        Instr::Mov(_, d, s)
        | Instr::Alu(_, _, d, s)
        | Instr::Imul(_, d, s)
        | Instr::Widen(_, d, s)
        | Instr::Cmov(_, d, s) => mark_two(table, d, s),
        Instr::Load(_, d, m) | Instr::Lea(d, m) => mark_two(table, d, m.base),
        Instr::Store(_, m, s) => mark_two(table, m.base, s),
        Instr::MovImm64(r, _)
        | Instr::MovImm32(r, _)
        | Instr::AluImm(_, _, r, _)
        | Instr::Shift(_, _, r)
        | Instr::Div(_, _, r)
        | Instr::Push(r)
        | Instr::Pop(r)
        | Instr::SetCond(_, r) => mark_one(table, r),
        _ => {}
    }
}
