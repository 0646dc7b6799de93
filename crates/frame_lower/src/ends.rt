//! Ends of blocks in the code of a function.

ghost use Rattle.std.specs.Prelude.{◌≡◌, ◌+◌, ◌*◌, ◌<◌, ◌≤◌, ◌^◌, ◌++◌, ◌∷◌, [], ℕ, get_or, length, OnOk, pos};
ghost use Rattle.low_core.specs.SelParts.{leads_to};
ghost use Rattle.low_core.specs.declared.sel.SelEnd.TheVariants as end_of;
ghost use Rattle.obj_core.specs.Saved.{saved_register};
ghost use Rattle.x86_core.specs.declared.instr.Instr.TheVariants.{AluImm, Jmp as JumpBy, Jcc as JumpIf};
ghost use Rattle.x86_core.specs.declared.instr.Cond.TheVariants.{Ne as NotEqual};
ghost use Rattle.x86_core.specs.declared.instr.Wide.TheVariants.{W64 as Wide64};
ghost use Rattle.x86_core.specs.declared.reg.Reg.TheVariants.{Rsp as StackRegister};
ghost use Rattle.obj_rows.specs.Marked.{all_unlinked, row_size};
ghost use Rattle.frame_lower.specs.Blocks.{start_in};
ghost use Rattle.frame_lower.specs.Making.{IsFit, making};
ghost use Rattle.frame_rows.specs.Sizes.{row_bytes};
ghost use Rattle.frame_lower.specs.Rows as rows;
ghost use Rattle.frame_lower.specs.Writing.{with_row};

use crate::code::Code;
use crate::maker::Maker;
use frame_rows::piece::{home_read, spot};
use low_core::sel::SelEnd;
use rd_num::width::NoMemory;
use x86_core::instr::{Cond, ImmOp, Instr, Wide};
use x86_core::reg::Reg;

/// The bytes of a jump, and those of a jump on a condition.
const JUMP_BYTES: usize = 5;

const CHOICE_BYTES: usize = 6;

/// The register of a place among the five that are saved.
fn saved(place: u32) -> Reg
    ensures { result ≡ saved_register place }
{
    match place {
        0 => Reg::Rbx,
        1 => Reg::Rbp,
        2 => Reg::R12,
        3 => Reg::R13,
        _ => Reg::R14,
    }
}

/// The displacement from one place of a function to another.
fn between(from: usize, to: usize) -> i32
    requires from { from < 2 ^ 31 }
    requires to { to < 2 ^ 31 }
    ensures { result ≡ rows.between from to }
{
    (to as i64 - from as i64) as i32
}

/// So many bytes more or fewer in rsp.
pub fn stack_moved(op: ImmOp, bytes: u32) -> Instr
    requires { bytes < 2 ^ 31 }
    ensures { result ≡ AluImm op Wide64 StackRegister (pos bytes) }
{
    Instr::AluImm(op, Wide::W64, Reg::Rsp, bytes as i32)
}

/// Where a block starts; 0 for one that isn't there.
fn start(starts: &[usize], b: u32) -> usize
    ensures { result ≡ start_in starts.now b }
{
    match starts.get(b as usize) {
        Some(at) => *at,
        None => 0,
    }
}

/// A jump from its end to a place.
fn jump(from: usize, to: usize) -> Instr
    requires from { from < 2 ^ 31 }
    requires to { to < 2 ^ 31 }
    ensures { result ≡ JumpBy (rows.between from to) }
{
    Instr::Jmp(between(from, to))
}

/// The same where the bit that was tested is set.
fn choice(from: usize, to: usize) -> Instr
    requires from { from < 2 ^ 31 }
    requires to { to < 2 ^ 31 }
    ensures { result ≡ JumpIf NotEqual (rows.between from to) }
{
    Instr::Jcc(Cond::Ne, between(from, to))
}

impl<'a> Maker<'a> {
    /// The five registers are pushed.
    pub fn put_pushes(&self, code: &mut Code) -> Result<(), NoMemory>
        ensures { OnOk result (code.new ≡
            with_row (all_unlinked (rows.push_row self.now.order.now)) code.old) }
    {
        for place in self.order {
            code.put(&Instr::Push(saved(*place)))?;
        }
        Ok(())
    }

    /// They are given back in the other order.
    fn put_pops(&self, code: &mut Code) -> Result<(), NoMemory>
        ensures { OnOk result (code.new ≡
            with_row (all_unlinked (rows.pop_row self.now.order.now)) code.old) }
    {
        let count = self.order.len();
        for k in 0..count {
            code.put(&Instr::Pop(saved(self.order[count - 1 - k])))?;
        }
        Ok(())
    }

    /// The way out of a function.
    #[tactic(auto, using(crate::proofs::Writing::leave_joined))]
    fn put_leave(&self, code: &mut Code) -> Result<(), NoMemory>
        requires { IsFit self.now }
        ensures { OnOk result (code.new ≡
            with_row (all_unlinked (rows.leave_row (making self.now))) code.old) }
    {
        code.put(&stack_moved(ImmOp::Add, self.room))?;
        self.put_pops(code)?;
        code.put(&Instr::AluImm(ImmOp::Add, Wide::W64, Reg::R15, 1))?;
        code.put(&Instr::Ret)?;
        Ok(())
    }

    /// A register into rax, and the way out of a function.
    fn put_return(&self, code: &mut Code, given: Option<u32>) -> Result<(), NoMemory>
        requires { IsFit self.now }
        ensures { OnOk result (code.new ≡ with_row (all_unlinked (rows.closing_row
            (making self.now) (end_of.Ret given))) code.old) }
    {
        match given {
            Some(r) => {
                code.put(&home_read(spot(self.homes, r), Reg::Rax))?;
                self.put_leave(code)
            }
            None => self.put_leave(code),
        }
    }

    /// The low bit of a register, to be tested.
    fn put_bit(&self, code: &mut Code, c: u32) -> Result<(), NoMemory>
        requires { IsFit self.now }
        ensures { OnOk result (code.new ≡ with_row (all_unlinked (rows.closing_row
            (making self.now) (end_of.If c 0 0))) code.old) }
    {
        code.put(&home_read(spot(self.homes, c), Reg::Rax))?;
        code.put(&Instr::AluImm(ImmOp::And, Wide::W32, Reg::Rax, 1))?;
        Ok(())
    }

    /// What an end does in front of its branches.
    fn put_closing(&self, code: &mut Code, end: &SelEnd) -> Result<(), NoMemory>
        requires { IsFit self.now }
        ensures { OnOk result (code.new ≡ with_row (all_unlinked (rows.closing_row
            (making self.now) end.now)) code.old) }
    {
        match end {
            SelEnd::Go(_) => Ok(()),
            SelEnd::If(c, _, _) => self.put_bit(code, *c),
            SelEnd::Ret(given) => self.put_return(code, *given),
            SelEnd::Trap => code.put(&Instr::Ud2),
        }
    }

    /// The branches of an end, to blocks that start at these offsets.
    fn put_branches(code: &mut Code, starts: &[usize], end: &SelEnd) -> Result<(), NoMemory>
        requires near { length code.old.bytes < 2 ^ 30 }
        requires starts { (n : ℕ) → start_in starts.now n < 2 ^ 30 }
        ensures { OnOk result (code.new ≡ with_row (all_unlinked (rows.branch_row
            (start_in starts.now) (length code.old.bytes) end.now)) code.old) }
    {
        let at = code.bytes.len();
        match end {
            SelEnd::Go(b) => code.put(&jump(at + JUMP_BYTES, start(starts, *b))),
            SelEnd::If(_, b, d) => {
                code.put(&choice(at + CHOICE_BYTES, start(starts, *b)))?;
                code.put(&jump(at + (CHOICE_BYTES + JUMP_BYTES), start(starts, *d)))
            }
            SelEnd::Ret(_) => Ok(()),
            SelEnd::Trap => Ok(()),
        }
    }

    /// An end at the end of the code.
    #[tactic(auto, using(crate::proofs::Writing::end_joined))]
    pub fn put_end(&self, code: &mut Code, starts: &[usize], end: &SelEnd) -> Result<(), NoMemory>
        requires fit { IsFit self.now }
        requires near { length code.old.bytes + row_bytes (rows.closing_row (making self.now)
            end.now) < 2 ^ 30 }
        requires starts { (n : ℕ) → start_in starts.now n < 2 ^ 30 }
        ensures { OnOk result (code.new ≡ with_row (rows.end_row (making self.now)
            (start_in starts.now) (length code.old.bytes) end.now) code.old) }
    {
        self.put_closing(code, end)?;
        Maker::put_branches(code, starts, end)?;
        Ok(())
    }
}
