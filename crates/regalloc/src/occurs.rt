//! Which registers occur in a function.

ghost use Rattle.std.specs.Prelude.{◌≡◌, ◌++◌, ℕ, ◌<◌, ◌^◌, IfOk, OnOk, length, slice_get, slice_set, Some, true, false};
ghost use Rattle.low_core.specs.SelParts.{reads_of, end_reads};
ghost use Rattle.regalloc.specs.Occurs.{marked, assigned, op_registers, block_registers, registers_of, TellsOccurring};

use low_core::sel::{SelBlock, SelEnd, SelFun, SelOp};
use rd_num::list::List;
use rd_num::width::NoMemory;
use std::alloc::Global;

/// Marks a register, where it is one of those that are told of.
fn mark(seen: &mut List<bool>, register: u32)
    ensures { seen.new ≡ slice_set seen.old register true }
{
    if (register as usize) < seen.len() {
        seen.set(register as usize, true);
    }
}

/// Marks registers.
fn mark_all(seen: &mut List<bool>, registers: &[u32])
    ensures { seen.new ≡ marked seen.old registers.now }
{
    for r in registers {
        mark(seen, *r);
    }
}

/// Marks a register, where there is one.
fn mark_any(seen: &mut List<bool>, register: Option<u32>)
    ensures { seen.new ≡ marked seen.old (assigned register) }
{
    if let Some(r) = register {
        mark(seen, r);
    }
}

/// Marks a call's registers.
#[tactic(auto, using(crate::proofs::Marks::marked_append))]
fn mark_call(seen: &mut List<bool>, given: Option<u32>, arguments: &[u32])
    ensures { seen.new ≡ marked seen.old (arguments.now ++ assigned given) }
{
    mark_all(seen, arguments);
    mark_any(seen, given);
}

/// Marks the registers of an operation.
fn mark_op(seen: &mut List<bool>, op: &SelOp)
    ensures { seen.new ≡ marked seen.old (op_registers op.now) }
{
    match op {
        SelOp::Set(r, _) | SelOp::FrameAt(r, _) | SelOp::GlobalAt(r, _) | SelOp::FunctionAt(r, _) =>
            {
                mark(seen, *r);
            }
        SelOp::Copy(r, s) | SelOp::Widen(_, _, _, r, s) | SelOp::Load(_, r, s) => {
            mark(seen, *s);
            mark(seen, *r);
        }
        SelOp::Alu(_, _, r, s, t) | SelOp::Div(_, _, _, r, s, t) | SelOp::Test(_, _, r, s, t) => {
            mark(seen, *s);
            mark(seen, *t);
            mark(seen, *r);
        }
        SelOp::Pick(r, c, s, t) => {
            mark(seen, *c);
            mark(seen, *s);
            mark(seen, *t);
            mark(seen, *r);
        }
        SelOp::Store(_, s, t) => {
            mark(seen, *s);
            mark(seen, *t);
        }
        SelOp::Call(_, r, arguments) => mark_call(seen, *r, arguments.as_slice()),
        SelOp::CallAt(s, r, arguments) => {
            mark(seen, *s);
            mark_call(seen, *r, arguments.as_slice());
        }
        SelOp::Outside(_, r, arguments) => mark_call(seen, *r, arguments.as_slice()),
    }
}

/// Marks the registers of an end.
fn mark_end(seen: &mut List<bool>, end: SelEnd)
    ensures { seen.new ≡ marked seen.old (end_reads end) }
{
    match end {
        SelEnd::If(c, _, _) => mark(seen, c),
        SelEnd::Ret(Some(r)) => mark(seen, r),
        SelEnd::Go(_) | SelEnd::Ret(None) | SelEnd::Trap => {}
    }
}

/// Marks the registers of a block.
fn mark_block(seen: &mut List<bool>, b: &SelBlock)
    ensures { seen.new ≡ marked seen.old (block_registers b.now) }
{
    for op in b.ops.as_slice() {
        mark_op(seen, op);
    }
    mark_end(seen, b.end);
}

/// For each of so many registers that it isn't marked.
fn unmarked(alloc: Global, count: u32) -> Result<List<bool>, NoMemory>
    ensures long { IfOk result (λ seen. length seen ≡ count) }
    ensures none { IfOk result (λ seen. (x : ℕ) → x < count → slice_get seen x ≡ Some false) }
{
    let mut seen = List::new(alloc);
    for _r in 0..count {
        seen.add(false)?;
    }
    Ok(seen)
}

/// For each register of a function whether it occurs.
pub(crate) fn occurring(alloc: Global, f: &SelFun) -> Result<List<bool>, NoMemory>
    ensures tells { IfOk result (λ seen. TellsOccurring f.now seen) }
    ensures few { IfOk result (λ seen. length seen < 2 ^ 32) }
{
    let mut seen = unmarked(alloc, f.registers)?;
    mark_all(&mut seen, f.params.as_slice());
    for b in f.blocks.as_slice() {
        mark_block(&mut seen, b);
    }
    Ok(seen)
}
