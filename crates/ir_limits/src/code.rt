//! How much code a module takes: a sum over its functions and what stands in them.
//!
//! Each count is greater than the bytes of code that any compiled part of the kind takes.

ghost use Rattle.std.specs.Prelude.{◌≡◌, ◌+◌, ℕ};
ghost use Rattle.std.specs.List.{sum_by};
ghost use Rattle.ir_core.specs.Counts.{told, index_count as indices_of, operand_code, op_code, end_code, block_code, function_code, code_count};

use crate::sum::{plus, times};
use ir_core::instruction::{Arg, Case, Entry, Inst, Op, Term};
use ir_core::module::{Block, Function, Module};
use ir_core::operand::Operand;
use rd_num::list::List;

/// An operand.
const OPERAND: u64 = 64;

/// An index of a constant place.
const INDEX: u64 = 64;

/// An argument of a call or an index, beside its operand.
const ARGUMENT: u64 = 64;

/// An entry of a phi or a case of a switch, beside its operand.
const CHOICE: u64 = 96;

/// An instruction or a terminator, beside what stands in it.
const STEP: u64 = 128;

/// A function, beside its blocks.
const FUNCTION: u64 = 1_024;

/// What takes code.
trait TakesCode {
    ghost code_of: { Self → ℕ };

    /// Its count, as far as 2^64 - 1. Takes no memory.
    fn code(&self) -> u64
        ensures { result ≡ told (code_of self.now) };
}

/// The sum over items. Takes no memory.
#[tactic(auto, using(crate::proofs::ToldLaws::told_more))]
fn code_of_all<T: TakesCode>(items: &List<T>) -> u64
    ensures { result ≡ told (sum_by T.code_of items.now) }
{
    let mut sum = 0;
    for item in items.as_slice() {
        sum = plus(sum, item.code());
    }
    sum
}

/// How many indices an operand has. Takes no memory.
fn index_count(a: &Operand) -> u64
    ensures { result ≡ indices_of a.now }
{
    match a {
        Operand::Const(place) => place.indices.len() as u64,
        _ => 0,
    }
}

impl TakesCode for Operand {
    ghost code_of = { operand_code };

    fn code(&self) -> u64 {
        plus(OPERAND, times(INDEX, index_count(self)))
    }
}

impl TakesCode for Arg {
    ghost code_of = { λ a. 64 + operand_code a.value };

    fn code(&self) -> u64 {
        plus(ARGUMENT, self.value.code())
    }
}

impl TakesCode for Entry {
    ghost code_of = { λ e. 96 + operand_code e.value };

    fn code(&self) -> u64 {
        plus(CHOICE, self.value.code())
    }
}

impl TakesCode for Case {
    ghost code_of = { λ c. 96 + operand_code c.value };

    fn code(&self) -> u64 {
        plus(CHOICE, self.value.code())
    }
}

/// A step with one operand. Takes no memory.
fn with_one(a: &Operand) -> u64
    ensures { result ≡ told (128 + operand_code a.now) }
{
    plus(STEP, a.code())
}

/// A step with two operands. Takes no memory.
fn with_two(a: &Operand, b: &Operand) -> u64
    ensures { result ≡ told (128 + operand_code a.now + operand_code b.now) }
{
    plus(with_one(a), b.code())
}

impl TakesCode for Op {
    ghost code_of = { op_code };

    fn code(&self) -> u64 {
        match self {
            Op::Bin(_, _, a, b) => with_two(a, b),
            Op::Compare(_, _, a, b) => with_two(a, b),
            Op::Cast(_, _, a, _) => with_one(a),
            Op::Select(condition, _, a, _, b) => plus(with_two(condition, a), b.code()),
            Op::Freeze(_, a) => with_one(a),
            Op::Alloca(_, _) => STEP,
            Op::Load(_, p) => with_one(p),
            Op::Store(_, a, p) => with_two(a, p),
            Op::Gep(_, p, indices) => plus(with_one(p), code_of_all(indices)),
            Op::Phi(_, entries) => plus(STEP, code_of_all(entries)),
            Op::Call(_, callee, args) => plus(with_one(callee), code_of_all(args)),
        }
    }
}

impl TakesCode for Inst {
    ghost code_of = { λ i. op_code i.op };

    fn code(&self) -> u64 {
        self.op.code()
    }
}

impl TakesCode for Term {
    ghost code_of = { end_code };

    fn code(&self) -> u64 {
        match self {
            Term::Ret | Term::Br(_) | Term::Unreachable => STEP,
            Term::RetValue(_, a) => with_one(a),
            Term::BrIf(condition, _, _) => with_one(condition),
            Term::Switch(_, a, _, cases) => plus(with_one(a), code_of_all(cases)),
        }
    }
}

impl TakesCode for Block {
    ghost code_of = { block_code };

    fn code(&self) -> u64 {
        plus(code_of_all(&self.insts), self.end.code())
    }
}

impl TakesCode for Function {
    ghost code_of = { function_code };

    fn code(&self) -> u64 {
        plus(FUNCTION, code_of_all(&self.blocks))
    }
}

/// The code of a module. Takes no memory.
pub fn module_code(whole: &Module) -> u64
    ensures { result ≡ code_count whole.now }
{
    code_of_all(&whole.functions)
}
