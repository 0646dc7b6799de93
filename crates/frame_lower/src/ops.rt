//! Operations in the code of a function.

ghost use Rattle.std.specs.Prelude.{◌≡◌, ◌+◌, ◌*◌, ◌<◌, ◌≤◌, ◌^◌, ◌++◌, ◌∷◌, [], All, IfOk, OnOk, length};
ghost use Rattle.low_core.specs.declared.sel.SelOp.TheVariants.{Outside as OutsideOp};
ghost use Rattle.low_core.specs.SelWeights.{calls_at, arguments_of};
ghost use Rattle.frame_rows.specs.Bodies.{Reaches, addresses_of, spot_of};
ghost use Rattle.frame_rows.specs.Code.{op_row, home_read as read_row};
ghost use Rattle.obj_rows.specs.Marked.{all_unlinked};
ghost use Rattle.x86_core.specs.declared.reg.Reg.TheVariants.{R11 as TargetRegister};
ghost use Rattle.frame_lower.specs.Blocks.{calls_in, ops_row};
ghost use Rattle.frame_lower.specs.Calls.{call_row};
ghost use Rattle.frame_lower.specs.Making.{IsFit, OpsReach, making};
ghost use Rattle.frame_lower.specs.Rows.{marked_op};
ghost use Rattle.frame_lower.specs.Writing.{with_row};

use crate::code::Code;
use crate::maker::Maker;
use frame_rows::op::put_op;
use frame_rows::piece::{home_read, spot};
use low_core::sel::{SelOp, Which};
use rd_num::list::List;
use rd_num::width::NoMemory;
use std::alloc::Global;
use x86_core::instr::Instr;
use x86_core::reg::Reg;

/// How many slots an operation goes by.
pub fn calls(op: &SelOp) -> u32
    ensures { result ≡ calls_at op.now }
{
    match op {
        SelOp::Call(_, _, _) | SelOp::CallAt(_, _, _) => 1,
        SelOp::Outside(which, _, _) => match which {
            Which::Trap => 0,
            Which::Putchar | Which::Getchar | Which::Exit | Which::Memcpy | Which::Memset => 1,
        },
        SelOp::Set(_, _) | SelOp::Copy(_, _) | SelOp::Alu(_, _, _, _, _) => 0,
        SelOp::Div(_, _, _, _, _, _) | SelOp::Widen(_, _, _, _, _) => 0,
        SelOp::Test(_, _, _, _, _) | SelOp::Pick(_, _, _, _) => 0,
        SelOp::Load(_, _, _) | SelOp::Store(_, _, _) | SelOp::FrameAt(_, _) => 0,
        SelOp::GlobalAt(_, _) | SelOp::FunctionAt(_, _) => 0,
    }
}

impl<'a> Maker<'a> {
    /// An operation that isn't a call.
    fn put_plain(&self, alloc: Global, code: &mut Code, op: &SelOp) -> Result<(), NoMemory>
        requires fit { IsFit self.now }
        requires reaches { Reaches (8 * self.now.words) op.now }
        ensures { OnOk result (code.new ≡ with_row (all_unlinked (op_row (making self.now).homes
            (making self.now).plan (8 * self.now.words) op.now)) code.old) }
    {
        let mut row = List::new(alloc);
        put_op(
            &mut row,
            self.homes,
            self.globals,
            self.functions,
            8 * self.words,
            op,
        )?;
        code.put_row(row.as_slice())
    }

    /// A call by a slot that its jump names.
    #[tactic(auto, using(crate::proofs::Writing::call_joined))]
    fn put_call(
        &self,
        code: &mut Code,
        slot: u32,
        into: Option<u32>,
        args: &[u32],
    ) -> Result<(), NoMemory>
        requires fit { IsFit self.now }
        requires few { length args.now ≤ 2 ^ 10 }
        ensures { OnOk result (code.new ≡
            with_row (call_row (making self.now).homes [] slot into args.now) code.old) }
    {
        self.put_args(code, args)?;
        self.put_jump_and_result(code, slot, into)?;
        Ok(())
    }

    /// A call by a slot that goes where r11 leads.
    #[tactic(auto, using(crate::proofs::Writing::call_joined))]
    fn put_call_at(
        &self,
        code: &mut Code,
        slot: u32,
        target: u32,
        into: Option<u32>,
        args: &[u32],
    ) -> Result<(), NoMemory>
        requires fit { IsFit self.now }
        requires few { length args.now ≤ 2 ^ 10 }
        ensures { OnOk result (code.new ≡ with_row (call_row (making self.now).homes
            (read_row ((making self.now).homes target) TargetRegister ∷ []) slot into args.now)
            code.old) }
    {
        self.put_args(code, args)?;
        code.put(&home_read(spot(self.homes, target), Reg::R11))?;
        self.put_jump_and_result(code, slot, into)?;
        Ok(())
    }

    /// A call of a function outside of the program; a trap is none.
    fn put_outside(
        &self,
        code: &mut Code,
        slot: u32,
        which: Which,
        into: Option<u32>,
        args: &List<u32>,
    ) -> Result<(), NoMemory>
        requires fit { IsFit self.now }
        requires few { length args.now ≤ 2 ^ 10 }
        ensures { OnOk result (code.new ≡
            with_row (marked_op (making self.now) slot (OutsideOp which into args.now)) code.old) }
    {
        match which {
            Which::Trap => code.put(&Instr::Ud2),
            Which::Putchar => self.put_call(code, slot, into, args.as_slice()),
            Which::Getchar => self.put_call(code, slot, into, args.as_slice()),
            Which::Exit => self.put_call(code, slot, into, args.as_slice()),
            Which::Memcpy => self.put_call(code, slot, into, args.as_slice()),
            Which::Memset => self.put_call(code, slot, into, args.as_slice()),
        }
    }

    /// An operation; where it goes by a slot, by this one.
    fn put_op(&self, alloc: Global, code: &mut Code, slot: u32, op: &SelOp) -> Result<(), NoMemory>
        requires fit { IsFit self.now }
        requires reaches { Reaches (8 * self.now.words) op.now }
        requires few { arguments_of op.now ≤ 2 ^ 10 }
        ensures { OnOk result (code.new ≡
            with_row (marked_op (making self.now) slot op.now) code.old) }
    {
        match op {
            SelOp::Call(_, into, args) => self.put_call(code, slot, *into, args.as_slice()),
            SelOp::CallAt(s, into, args) => {
                self.put_call_at(code, slot, *s, *into, args.as_slice())
            }
            SelOp::Outside(which, into, args) => self.put_outside(code, slot, *which, *into, args),
            SelOp::Set(_, _) | SelOp::Copy(_, _) => self.put_plain(alloc, code, op),
            SelOp::Alu(_, _, _, _, _) => self.put_plain(alloc, code, op),
            SelOp::Div(_, _, _, _, _, _) => self.put_plain(alloc, code, op),
            SelOp::Widen(_, _, _, _, _) => self.put_plain(alloc, code, op),
            SelOp::Test(_, _, _, _, _) => self.put_plain(alloc, code, op),
            SelOp::Pick(_, _, _, _) => self.put_plain(alloc, code, op),
            SelOp::Load(_, _, _) | SelOp::Store(_, _, _) => self.put_plain(alloc, code, op),
            SelOp::FrameAt(_, _) => self.put_plain(alloc, code, op),
            SelOp::GlobalAt(_, _) | SelOp::FunctionAt(_, _) => self.put_plain(alloc, code, op),
        }
    }

    /// Operations, whose calls go by the slots from one on; the number of the next slot.
    pub fn put_ops(
        &self,
        alloc: Global,
        code: &mut Code,
        first: u32,
        ops: &[SelOp],
    ) -> Result<u32, NoMemory>
        requires fit { IsFit self.now }
        requires reaches { OpsReach self.now ops.now }
        requires few { All (λ op. arguments_of op ≤ 2 ^ 10) ops.now }
        requires slots { first + calls_in ops.now < 2 ^ 32 }
        ensures next { IfOk result (λ n. n ≡ first + calls_in ops.now) }
        ensures code { OnOk result (code.new ≡
            with_row (ops_row (making self.now) first ops.now) code.old) }
    {
        let mut slot = first;
        for op in ops {
            self.put_op(alloc, code, slot, op)?;
            slot += calls(op);
        }
        Ok(slot)
    }
}
