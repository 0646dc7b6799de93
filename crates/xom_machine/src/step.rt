//! One instruction: fetched, carried out, and where it leads.
//!
//! What is refused or has no answer stops the machine, and then nothing but the outcome changes: so
//! registers and flags, which are changed in place, are changed once the access to memory was
//! allowed. Where memory for a page is wanting, nothing changes at all.

ghost use Rattle.std.specs.Prelude.{◌≡◌, ◌≤◌, true, Some, OnErr, not};
ghost use Rattle.rd_num.specs.Number.{le_bytes};
ghost use Rattle.x86_core.specs.declared.reg.Reg.TheVariants.{Rsp};
ghost use Rattle.x86_core.specs.Registers.{word};
ghost use Rattle.x86_core.specs.Arithmetic.{moved};
ghost use Rattle.x86_core.specs.Effect.{effect_of, with_stack};
ghost use Rattle.x86_core.specs.Memory.{read_at, write_at};
ghost use Rattle.x86_core.specs.Step.{size_bytes, after_read, after_write, below, called, returned, act, sorted};
ghost use Rattle.x86_core.specs.Machine.{machine_step};
ghost use Rattle.behavior.specs.Ending.{is_going};
ghost use Rattle.xom_machine.specs.Whole.{over};
ghost use Rattle.xom_machine.specs.Standing.{ending_of, streams_told};
ghost use Rattle.xom_machine.specs.Changes.{led};
ghost use Rattle.xom_machine.specs.Calls.{Becomes, Tries, Ran, Charged};
ghost use Rattle.xom_machine.specs.Silent.{Moved, Silently, Stopped};

use crate::context::Context;
use rd_io::{RunFault, Sink, Source};
use rd_num::width::NoMemory;
use x86_core::apply::{access, apply};
use x86_core::effect::{Access, Next};
use x86_core::image::MachOutcome;
use x86_core::instr::{Decoded, Instr, Size};
use x86_core::reg::Reg;
use xom_memory::memory::{Memory, WriteFault};

/// What ended steps in a row.
#[derive(Clone, Copy)]
pub enum Stop {
    /// All were taken, or the machine has stopped.
    Done,
    /// A system call comes next, with the place behind it.
    Kernel(u64),
    /// The next step wants memory.
    NoMemory,
}

/// Steps in a row without the kernel.
#[derive(Clone, Copy)]
pub struct Sprint {
    pub taken: u64,
    pub stop: Stop,
}

// A number moved by a displacement, modulo 2^64.
#[inline]
fn moved_by(n: u64, by: i32) -> u64
    ensures { result ≡ moved n by }
{
    n.wrapping_add_signed(by as i64)
}

impl Context {
    // The change of registers by an instruction with an access, and on to the next one.
    #[inline]
    #[tactic(auto, unfolding(x86_core::specs::Effect::effect_of))]
    fn commit(&mut self, instr: &Instr, after: u64)
        requires { (effect_of instr.now self.old.regs self.old.flags).access ≡ Access.Nothing → ⊥ }
        ensures { let c = effect_of instr.now self.old.regs self.old.flags in
            self.new ≡ record self.old { regs = c.regs; flags = c.flags; next = after } }
    {
        match *instr {
            Instr::Push(_) => self.move_stack(-8),
            Instr::Pop(_) => self.move_stack(8),
            _ => {}
        }
        self.next = after;
    }

    #[inline]
    fn move_stack(&mut self, by: i32)
        ensures { self.new ≡ record self.old { regs = with_stack self.old.regs by } }
    {
        let top = moved_by(self.regs.get(Reg::Rsp), by);
        self.regs.set(Reg::Rsp, top);
    }

    // An instruction that reads memory.
    #[inline]
    #[tactic(auto, using(crate::proofs::Acts::word_read, crate::proofs::Acts::no_word_read))]
    fn read(&mut self, memory: &Memory, instr: &Instr, at: u64, size: Size, into: Reg, after: u64)
        requires { (effect_of instr.now self.old.regs self.old.flags).access ≡ Access.Nothing → ⊥ }
        ensures { let c = effect_of instr.now self.old.regs self.old.flags in
            Becomes (after_read (read_at memory.now at (size_bytes size)) c into after)
            (over self.old memory.now) (over self.new memory.now) }
    {
        match memory.load_word(at, size) {
            Some(word) => {
                self.commit(instr, after);
                self.regs.set(into, word);
            }
            None => self.outcome = MachOutcome::PageFault,
        }
    }

    // An instruction that writes memory.
    #[inline]
    fn write(
        &mut self,
        memory: &mut Memory,
        instr: &Instr,
        at: u64,
        size: Size,
        word: u64,
        after: u64,
    ) -> Result<(), NoMemory>
        requires { (effect_of instr.now self.old.regs self.old.flags).access ≡ Access.Nothing → ⊥ }
        ensures { let c = effect_of instr.now self.old.regs self.old.flags in
            let written = write_at memory.old at (le_bytes (size_bytes size) word) in
            Tries (after_write written c after) (over self.old memory.old)
            (over self.new memory.new) result }
    {
        match memory.store_word(at, size, word) {
            Ok(()) => {
                self.commit(instr, after);
                Ok(())
            }
            Err(WriteFault::Refused) => {
                self.outcome = MachOutcome::PageFault;
                Ok(())
            }
            Err(WriteFault::NoMemory) => Err(NoMemory),
        }
    }

    // To a place, with a number pushed.
    #[inline]
    fn call(&mut self, memory: &mut Memory, to: u64, back: u64) -> Result<(), NoMemory>
        ensures { let pushed = write_at memory.old (below self.old.regs) (le_bytes 8 back) in
            Tries (called to pushed) (over self.old memory.old) (over self.new memory.new) result }
    {
        let top = moved_by(self.regs.get(Reg::Rsp), -8);
        match memory.store_word(top, Size::W64, back) {
            Ok(()) => {
                self.regs.set(Reg::Rsp, top);
                self.next = to;
                Ok(())
            }
            Err(WriteFault::Refused) => {
                self.outcome = MachOutcome::PageFault;
                Ok(())
            }
            Err(WriteFault::NoMemory) => Err(NoMemory),
        }
    }

    // To the place of the word on the stack, which is popped.
    #[inline]
    #[tactic(auto, using(crate::proofs::Acts::word_back, crate::proofs::Acts::no_word_back))]
    fn go_back(&mut self, memory: &Memory)
        ensures { let top = read_at memory.now (word self.old.regs Rsp) 8 in
            Becomes (returned Some top) (over self.old memory.now) (over self.new memory.now) }
    {
        let top = self.regs.get(Reg::Rsp);
        match memory.load_word(top, Size::W64) {
            Some(word) => {
                self.next = word;
                self.regs.set(Reg::Rsp, moved_by(top, 8));
            }
            None => self.outcome = MachOutcome::PageFault,
        }
    }

    // Where an instruction leads whose change of registers and flags is done, without the kernel.
    #[inline]
    fn lead(&mut self, memory: &mut Memory, next: Next, after: u64) -> Result<(), NoMemory>
        ensures led { Tries (led next after) (over self.old memory.old) (over self.new memory.new)
            result }
        ensures calls { OnErr result (next ≡ Next.Fall → ⊥) }
    {
        match next {
            Next::Fall => self.next = after,
            Next::Branch(by) => self.next = moved_by(after, by),
            Next::Call(by) => return self.call(memory, moved_by(after, by), after),
            Next::CallR11 => {
                let to = self.regs.get(Reg::R11);
                return self.call(memory, to, after);
            }
            Next::Return => self.go_back(memory),
            Next::ToR11 => self.next = self.regs.get(Reg::R11),
            Next::Kernel => {}
            Next::Divide => self.outcome = MachOutcome::Divide,
            Next::Invalid => self.outcome = MachOutcome::Invalid,
            Next::Breakpoint => self.outcome = MachOutcome::Breakpoint,
            Next::NoFlag => self.outcome = MachOutcome::NoFlag,
        }
        Ok(())
    }

    // An instruction without an access of its own; a system call is left, with the place behind it.
    #[inline]
    fn change(
        &mut self,
        memory: &mut Memory,
        instr: &Instr,
        after: u64,
    ) -> Result<Option<u64>, NoMemory>
        requires { (effect_of instr.now self.old.regs self.old.flags).access ≡ Access.Nothing }
        ensures { Moved (act Some (sorted instr.now after (moved after) after))
            (over self.old memory.old) (over self.new memory.new) result }
    {
        match apply(instr, &mut self.regs, &mut self.flags) {
            Next::Kernel => Ok(Some(after)),
            next => match self.lead(memory, next, after) {
                Ok(()) => Ok(None),
                Err(_) => Err(NoMemory),
            },
        }
    }

    // One instruction but a system call, with the place behind it.
    #[inline]
    fn execute(
        &mut self,
        memory: &mut Memory,
        instr: &Instr,
        after: u64,
    ) -> Result<Option<u64>, NoMemory>
        ensures { Moved (act Some (sorted instr.now after (moved after) after))
            (over self.old memory.old) (over self.new memory.new) result }
    {
        match access(instr, &self.regs) {
            Access::Nothing => self.change(memory, instr, after),
            Access::Read { at, size, into } => {
                self.read(memory, instr, at, size, into, after);
                Ok(None)
            }
            Access::Write { at, size, word } => {
                match self.write(memory, instr, at, size, word, after) {
                    Ok(()) => Ok(None),
                    Err(_) => Err(NoMemory),
                }
            }
        }
    }

    // What stands at the next place, unless it is a system call.
    #[inline]
    fn silent(&mut self, memory: &mut Memory) -> Result<Option<u64>, NoMemory>
        requires { is_going (ending_of self.old.outcome) ≡ true }
        ensures { Moved machine_step (over self.old memory.old) (over self.new memory.new) result }
    {
        match memory.instruction(self.next) {
            Decoded::One { instr, len } => {
                let after = self.next.wrapping_add(len as u64);
                self.execute(memory, &instr, after)
            }
            Decoded::Short => {
                self.outcome = MachOutcome::PageFault;
                Ok(None)
            }
            Decoded::Unknown => {
                self.outcome = MachOutcome::NoForm;
                Ok(None)
            }
        }
    }

    /// As many steps as come before a system call, and at most `n`.
    #[inline(never)]
    pub(crate) fn sprint(&mut self, memory: &mut Memory, n: u64) -> Sprint
        ensures few { result.taken ≤ n }
        ensures silent { Silently result.taken (over self.old memory.old)
            (over self.new memory.new) }
        ensures same { result.taken ≡ 0 → over self.new memory.new ≡ over self.old memory.old }
        ensures stop { Stopped result.stop result.taken n (over self.new memory.new) }
    {
        for i in 0..n {
            if has_stopped(self.outcome) {
                return Sprint {
                    taken: n,
                    stop: Stop::Done,
                };
            }
            match self.silent(memory) {
                Ok(None) => {}
                Ok(Some(after)) => {
                    return Sprint {
                        taken: i,
                        stop: Stop::Kernel(after),
                    };
                }
                Err(_) => {
                    return Sprint {
                        taken: i,
                        stop: Stop::NoMemory,
                    };
                }
            }
        }
        Sprint {
            taken: n,
            stop: Stop::Done,
        }
    }

    /// One step: what stands at the next place is carried out, unless the machine has stopped.
    ///
    /// After an error the machine is as it was.
    pub(crate) fn advance<I: Source, O: Sink>(
        &mut self,
        memory: &mut Memory,
        input: &mut I,
        sink: &mut O,
    ) -> Result<(), RunFault>
        ensures ran { Ran machine_step (over self.old memory.old) (over self.new memory.new)
            (streams_told (I.told input.old) (O.told sink.old))
            (streams_told (I.told input.new) (O.told sink.new)) result }
        ensures charged { Charged (I.told input.old) (I.told input.new) (O.told sink.old)
            (O.told sink.new) result }
    {
        let sprint = self.sprint(memory, 1);
        match sprint.stop {
            Stop::Done => Ok(()),
            Stop::Kernel(after) => self.system_call(memory, after, input, sink),
            Stop::NoMemory => Err(RunFault::NoMemory),
        }
    }
}

/// Whether a machine that stands so takes no further step.
#[inline]
pub(crate) fn has_stopped(outcome: MachOutcome) -> bool
    ensures { is_going (ending_of outcome) ≡ not result }
{
    match outcome {
        MachOutcome::Going => false,
        _ => true,
    }
}
