//! What a machine has besides its memory, so that several can run over one memory.

ghost use Rattle.std.specs.Prelude.{◌≡◌, ℕ, List, [], IfOk, OnOk, OnErr, IfErr};
ghost use Rattle.x86_core.specs.declared.image.Segment.{Segment};
ghost use Rattle.x86_core.specs.Run.{started};
ghost use Rattle.x86_core.specs.Machine.{machine_step};
ghost use Rattle.xom_machine.specs.Whole.{over};
ghost use Rattle.xom_machine.specs.Standing.{state_of, streams_told};
ghost use Rattle.xom_machine.specs.Calls.{Took, Charged, Kept, CutOff, Ran};

use crate::step::Stop;
use rd_io::{RunFault, Sink, Source};
use x86_core::flags::{Flag, Flags};
use x86_core::image::MachOutcome;
use x86_core::reg::{Reg, Regs};
use xom_memory::memory::Memory;

/// Registers and flags, where the next instruction stands, and whether the machine goes on.
#[derive(Drop)]
pub struct Context {
    pub(crate) regs: Regs,
    pub(crate) flags: Flags,
    pub(crate) next: u64,
    pub(crate) outcome: MachOutcome,
}

impl Context {
    /// A context before the first instruction, at an entry: all registers and flags are 0 but `rsp`
    /// and `rax`. Takes no memory.
    pub fn start(entry: u64, rsp: u64, rax: u64) -> Context
        ensures { (segments : List Segment) (input : List ℕ) →
            state_of (over result segments) input [] 0 ≡ started entry segments input rsp rax }
    {
        let mut regs = Regs::new();
        regs.set(Reg::Rax, rax);
        regs.set(Reg::Rsp, rsp);
        let flags = Flags {
            c: Flag::Zero,
            z: Flag::Zero,
            s: Flag::Zero,
            o: Flag::Zero,
        };
        Context {
            regs,
            flags,
            next: entry,
            outcome: MachOutcome::Going,
        }
    }

    /// How the machine stands. Takes no memory.
    pub fn outcome(&self) -> MachOutcome
        ensures { result ≡ self.now.outcome }
    {
        self.outcome
    }

    /// The words of the registers. Takes no memory.
    pub fn regs(&self) -> &Regs
        ensures { result.now ≡ self.now.regs }
    {
        &self.regs
    }

    /// The flags. Takes no memory.
    pub fn flags(&self) -> &Flags
        ensures { result.now ≡ self.now.flags }
    {
        &self.flags
    }

    /// Takes one step over a memory, as `Machine::step` does.
    pub fn step<I: Source, O: Sink>(
        &mut self,
        memory: &mut Memory,
        input: &mut I,
        sink: &mut O,
    ) -> Result<(), RunFault>
        ensures did { OnOk result (Took 1 (over self.old memory.old) (over self.new memory.new)
            (streams_told (I.told input.old) (O.told sink.old))
            (streams_told (I.told input.new) (O.told sink.new))) }
        ensures stands { OnErr result (over self.new memory.new ≡ over self.old memory.old) }
        ensures kept { IfErr result (Kept machine_step (over self.old memory.old)
            (streams_told (I.told input.old) (O.told sink.old))
            (streams_told (I.told input.new) (O.told sink.new))) }
        ensures charged { Charged (I.told input.old) (I.told input.new) (O.told sink.old)
            (O.told sink.new) result }
    {
        self.advance(memory, input, sink)
    }

    /// Takes `n` steps over a memory, as `Machine::run` does.
    pub fn run<I: Source, O: Sink>(
        &mut self,
        memory: &mut Memory,
        input: &mut I,
        sink: &mut O,
        n: u64,
    ) -> Result<MachOutcome, RunFault>
        ensures did { OnOk result (Took n (over self.old memory.old) (over self.new memory.new)
            (streams_told (I.told input.old) (O.told sink.old))
            (streams_told (I.told input.new) (O.told sink.new))) }
        ensures outcome { IfOk result (λ o. o ≡ self.new.outcome) }
        ensures cut { IfErr result (CutOff n (over self.old memory.old) (over self.new memory.new)
            (streams_told (I.told input.old) (O.told sink.old))
            (streams_told (I.told input.new) (O.told sink.new))) }
        ensures charged { Charged (I.told input.old) (I.told input.new) (O.told sink.old)
            (O.told sink.new) result }
    {
        let mut left = n;
        loop {
            let sprint = self.sprint(memory, left);
            left -= sprint.taken;
            match sprint.stop {
                Stop::Done => return Ok(self.outcome),
                Stop::NoMemory => return Err(RunFault::NoMemory),
                Stop::Kernel(after) => self.system_call(memory, after, input, sink)?,
            }
            left -= 1;
        }
    }
}
