//! How many instructions of a guard stand before an instruction.

ghost use Rattle.std.specs.Prelude.{◌≡◌, ◌≤◌};
ghost use Rattle.x86_core.specs.declared.instr.Instr.TheVariants.{Ud2};
ghost use Rattle.obj_core.specs.WellFormed.{most_slots};
ghost use Rattle.guard_check.specs.Guard.{guard, is_same};
ghost use Rattle.x86_core.specs.Encoding.{IsInstr};
ghost use Rattle.guard_check.specs.Checking.{nth_of};
ghost use Rattle.guard_check.specs.Counting.{next_of};
ghost use Rattle.guard_check.specs.Steps as Steps;

use x86_core::instr::{Cond, ImmOp, Instr, Wide};
use x86_core::reg::Reg;

/// The instructions of a guard.
pub const GUARD_LENGTH: usize = 10;

/// Whether an operation on r10 is the one of a guard with a number, among so many slots.
fn is_operation(slots: usize, number: usize, op: ImmOp, by: i32) -> bool
    requires { slots ≤ most_slots }
    ensures { result ≡ Steps.is_operation slots number op by }
{
    match number {
        1 => op == ImmOp::Sub && by == 0x1000_0000,
        2 => op == ImmOp::Cmp && by == (16 * slots) as i32,
        5 => op == ImmOp::And && by == 15,
        7 => op == ImmOp::Cmp && by == 5,
        _ => false,
    }
}

/// Whether a branch is the one of a guard with a number.
fn is_branch(number: usize, cond: Cond, by: i32) -> bool
    ensures { result ≡ Steps.is_branch number cond by }
{
    match number {
        3 => cond == Cond::B && by == 2,
        6 => cond == Cond::E && by == 15,
        8 => cond == Cond::E && by == 2,
        _ => false,
    }
}

/// Whether an instruction has the parts of the one of a guard with a number, among so many slots.
fn is_step(slots: usize, number: usize, instr: Instr) -> bool
    requires { slots ≤ most_slots }
    ensures { result ≡ Steps.is_step slots number instr }
{
    match instr {
        Instr::Mov(wide, to, from) => {
            number == 0 && wide == Wide::W64 && to == Reg::R10 && from == Reg::R11
        }
        Instr::AluImm(op, wide, reg, by) => {
            wide == Wide::W64 && reg == Reg::R10 && is_operation(slots, number, op, by)
        }
        Instr::Jcc(cond, by) => is_branch(number, cond, by),
        Instr::Ud2 => number == 4 || number >= 9,
        _ => false,
    }
}

/// Whether an instruction is the one of a guard with a number, among so many slots.
fn is_the(slots: usize, number: usize, instr: Instr) -> bool
    requires few { slots ≤ most_slots }
    requires is_instr { IsInstr instr }
    ensures { result ≡ is_same (nth_of Ud2 (guard slots) number) instr }
{
    is_step(slots, number, instr)
}

/// How many instructions of a guard stand before the next instruction, where so many stand before
/// this one: the first of them stands in no other place of it.
pub fn next_count(slots: usize, count: usize, instr: Instr) -> usize
    requires few { slots ≤ most_slots }
    requires is_instr { IsInstr instr }
    requires within { count ≤ 10 }
    ensures { result ≡ next_of slots count instr }
{
    if count < GUARD_LENGTH && is_the(slots, count, instr) {
        count + 1
    } else if is_the(slots, 0, instr) {
        1
    } else {
        0
    }
}
