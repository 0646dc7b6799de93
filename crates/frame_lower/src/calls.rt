//! Arguments and parameters on their ways: six in registers, the others in the caller's lowest words.

ghost use Rattle.std.specs.Prelude.{◌≡◌, ◌+◌, ◌*◌, ◌<◌, ◌≤◌, ◌^◌, ◌++◌, ◌∷◌, [], drop, length, OnOk, None, Some, pos};
ghost use Rattle.obj_rows.specs.Marked.{all_unlinked};
ghost use Rattle.frame_lower.specs.Calls as rows;
ghost use Rattle.frame_lower.specs.Frames as frames;
ghost use Rattle.frame_lower.specs.Making.{IsFit, making};
ghost use Rattle.frame_lower.specs.Writing.{with_row};
ghost use Rattle.obj_rows.specs.Marked.{linked as linked_row};
ghost use Rattle.x86_core.specs.declared.instr.Instr.TheVariants.{Jmp as JumpBy};

use crate::code::Code;
use crate::maker::Maker;
use frame_rows::piece::{home_read, home_write, spot};
use frame_rows::spot::Spot;
use rd_num::width::NoMemory;
use x86_core::instr::{Instr, Mem, Size};
use x86_core::reg::Reg;

/// How many arguments are in registers.
const IN_REGISTERS: usize = 6;

/// What a call keeps above the frame: five registers, and the place to go back to.
const KEPT_BYTES: u32 = 48;

/// Those past the first six.
fn others(all: &[u32]) -> &[u32]
    ensures { result.now ≡ drop 6 all.now }
{
    if all.len() > IN_REGISTERS {
        &all[IN_REGISTERS..]
    } else {
        &[]
    }
}

impl<'a> Maker<'a> {
    /// An argument from its home into a register, where there are so many.
    fn put_argument(&self, code: &mut Code, args: &[u32], k: usize, t: Reg) -> Result<(), NoMemory>
        requires { IsFit self.now }
        ensures { OnOk result (code.new ≡ with_row (all_unlinked (rows.into_registers
            (making self.now).homes (t ∷ []) (drop k args.now))) code.old) }
    {
        match args.get(k) {
            Some(a) => code.put(&home_read(spot(self.homes, *a), t)),
            None => Ok(()),
        }
    }

    /// The first arguments from their homes into registers.
    #[tactic(auto, using(crate::proofs::Six::six_got))]
    fn put_into_registers(&self, code: &mut Code, args: &[u32]) -> Result<(), NoMemory>
        requires { IsFit self.now }
        ensures { OnOk result (code.new ≡ with_row (all_unlinked (rows.into_registers
            (making self.now).homes rows.argument_registers args.now)) code.old) }
    {
        self.put_argument(code, args, 0, Reg::Rdi)?;
        self.put_argument(code, args, 1, Reg::Rsi)?;
        self.put_argument(code, args, 2, Reg::Rdx)?;
        self.put_argument(code, args, 3, Reg::Rcx)?;
        self.put_argument(code, args, 4, Reg::R8)?;
        self.put_argument(code, args, 5, Reg::R9)
    }

    /// Arguments from their homes into the frame's words, from the lowest on.
    fn put_into_words(&self, code: &mut Code, args: &[u32]) -> Result<(), NoMemory>
        requires fit { IsFit self.now }
        requires few { length args.now ≤ 2 ^ 10 }
        ensures { OnOk result (code.new ≡ with_row (all_unlinked (rows.into_words
            (making self.now).homes 0 args.now)) code.old) }
    {
        for k in 0..args.len() {
            code.put(&home_read(spot(self.homes, args[k]), Reg::Rax))?;
            code.put(&home_write(Spot::Frame(k as u32), Reg::Rax))?;
        }
        Ok(())
    }

    /// All arguments of a call.
    #[tactic(auto, using(crate::proofs::Writing::row_joined, crate::proofs::Writing::unlinked_joined))]
    pub fn put_args(&self, code: &mut Code, args: &[u32]) -> Result<(), NoMemory>
        requires fit { IsFit self.now }
        requires few { length args.now ≤ 2 ^ 10 }
        ensures { OnOk result (code.new ≡ with_row (all_unlinked (rows.pass_row
            (making self.now).homes args.now)) code.old) }
    {
        self.put_into_words(code, others(args))?;
        self.put_into_registers(code, args)
    }

    /// The result of a call to its home, where it is wanted.
    fn put_result(&self, code: &mut Code, into: Option<u32>) -> Result<(), NoMemory>
        requires { IsFit self.now }
        ensures { OnOk result (code.new ≡ with_row (all_unlinked (rows.take_row
            (making self.now).homes into)) code.old) }
    {
        match into {
            Some(r) => code.put(&home_write(spot(self.homes, r), Reg::Rax)),
            None => Ok(()),
        }
    }

    /// A call by a slot, whose arguments are where they have to be.
    pub fn put_jump_and_result(
        &self,
        code: &mut Code,
        slot: u32,
        into: Option<u32>,
    ) -> Result<(), NoMemory>
        requires { IsFit self.now }
        ensures { OnOk result (code.new ≡ with_row (linked_row (JumpBy (pos 0)) slot ∷
            all_unlinked (rows.take_row (making self.now).homes into)) code.old) }
    {
        code.put_jump(slot)?;
        self.put_result(code, into)
    }

    /// A parameter from a register to its home, where there are so many.
    fn put_parameter(
        &self,
        code: &mut Code,
        params: &[u32],
        k: usize,
        t: Reg,
    ) -> Result<(), NoMemory>
        requires { IsFit self.now }
        ensures { OnOk result (code.new ≡ with_row (all_unlinked (rows.from_registers
            (making self.now).homes (t ∷ []) (drop k params.now))) code.old) }
    {
        match params.get(k) {
            Some(p) => code.put(&home_write(spot(self.homes, *p), t)),
            None => Ok(()),
        }
    }

    /// The first parameters from registers to their homes.
    #[tactic(auto, using(crate::proofs::Six::six_gave))]
    fn put_from_registers(&self, code: &mut Code, params: &[u32]) -> Result<(), NoMemory>
        requires { IsFit self.now }
        ensures { OnOk result (code.new ≡ with_row (all_unlinked (rows.from_registers
            (making self.now).homes rows.argument_registers params.now)) code.old) }
    {
        self.put_parameter(code, params, 0, Reg::Rdi)?;
        self.put_parameter(code, params, 1, Reg::Rsi)?;
        self.put_parameter(code, params, 2, Reg::Rdx)?;
        self.put_parameter(code, params, 3, Reg::Rcx)?;
        self.put_parameter(code, params, 4, Reg::R8)?;
        self.put_parameter(code, params, 5, Reg::R9)
    }

    /// Parameters from the caller's lowest words to their homes.
    fn put_from_words(&self, code: &mut Code, params: &[u32]) -> Result<(), NoMemory>
        requires fit { IsFit self.now }
        requires few { length params.now ≤ 2 ^ 10 }
        ensures { OnOk result (code.new ≡ with_row (all_unlinked (rows.from_words
            (making self.now).homes (self.now.room + frames.kept_bytes) params.now)) code.old) }
    {
        for k in 0..params.len() {
            let at = self.room + KEPT_BYTES + 8 * k as u32;
            code.put(&Instr::Load(
                Size::W64,
                Reg::Rax,
                Mem {
                    base: Reg::Rsp,
                    disp: at as i32,
                },
            ))?;
            code.put(&home_write(spot(self.homes, params[k]), Reg::Rax))?;
        }
        Ok(())
    }

    /// All parameters of a function.
    #[tactic(auto, using(crate::proofs::Writing::row_joined, crate::proofs::Writing::unlinked_joined))]
    pub fn put_params(&self, code: &mut Code, params: &[u32]) -> Result<(), NoMemory>
        requires fit { IsFit self.now }
        requires few { length params.now ≤ 2 ^ 10 }
        ensures { OnOk result (code.new ≡ with_row (all_unlinked (rows.receive_row
            (making self.now).homes self.now.room params.now)) code.old) }
    {
        self.put_from_registers(code, params)?;
        self.put_from_words(code, others(params))
    }
}
