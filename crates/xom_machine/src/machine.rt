//! A machine, from its start to where it stops.

ghost use Rattle.std.specs.Prelude.{◌≡◌, ℕ, List, [], length, IfOk, OnOk, OnErr, IfErr};
ghost use Rattle.x86_core.specs.Machine.{machine_start, machine_step};
ghost use Rattle.x86_core.specs.Memory.{writes, is_allowed};
ghost use Rattle.x86_core.specs.Run.{Write, acted};
ghost use Rattle.xom_memory.specs.Access.{Permits};
ghost use Rattle.xom_machine.specs.Standing.{state_of, streams_told};
ghost use Rattle.xom_machine.specs.Calls.{Becomes, Took, Charged, Kept, CutOff};

use crate::context::Context;
use rd_io::{RunFault, Sink, Source};
use rd_num::width::NoMemory;
use std::alloc::Global;
use std::marker::Model;
use x86_core::flags::Flags;
use x86_core::image::{Image, MachOutcome, STACK_END};
use x86_core::reg::Regs;
use xom_memory::memory::{Memory, WriteFault};

/// A machine: its memory, its registers and flags, where the next instruction stands, and whether
/// it goes on.
#[derive(Drop)]
pub struct Machine {
    memory: Memory,
    context: Context,
}

impl Model for Machine {
    ghost use Rattle.xom_machine.specs.Whole.{Whole, over};

    ghost Value = { Whole };

    ghost view = { λ m. over m.context m.memory };
}

impl Machine {
    /// A machine before the first instruction of an image: all registers and flags are 0 but `rsp`,
    /// which is the stack's end.
    pub fn start(alloc: Global, image: &Image) -> Result<Machine, NoMemory>
        ensures { IfOk result (λ m. (input : List ℕ) → state_of m input [] 0 ≡
            machine_start image.now input) }
    {
        let memory = Memory::load(alloc, image)?;
        let context = Context::start(image.entry, STACK_END, 0);
        Ok(Machine { memory, context })
    }

    /// How the machine stands. Takes no memory.
    pub fn outcome(&self) -> MachOutcome
        ensures { result ≡ self.now.outcome }
    {
        self.context.outcome()
    }

    /// The words of the registers. Takes no memory.
    pub fn regs(&self) -> &Regs
        ensures { result.now ≡ self.now.regs }
    {
        self.context.regs()
    }

    /// The flags. Takes no memory.
    pub fn flags(&self) -> &Flags
        ensures { result.now ≡ self.now.flags }
    {
        self.context.flags()
    }

    /// The segments and the stack. Takes no memory.
    pub fn memory(&self) -> &Memory
        ensures { result.now ≡ self.now.memory }
    {
        &self.memory
    }

    /// Takes one step. A machine that has stopped stays as it is.
    ///
    /// `Input` comes only where the source has failed, at a step that asks for a byte; `Output` only
    /// where the sink has failed, which then has a prefix of what the step prints. `NoMemory` comes
    /// where a sink wants memory, with such a prefix, or where a page can't be made, with nothing
    /// taken and put. After each error the machine stands before that instruction.
    pub fn step<I: Source, O: Sink>(&mut self, input: &mut I, sink: &mut O) -> Result<(), RunFault>
        ensures did { OnOk result (Took 1 self.old self.new
            (streams_told (I.told input.old) (O.told sink.old))
            (streams_told (I.told input.new) (O.told sink.new))) }
        ensures stands { OnErr result (self.new ≡ self.old) }
        ensures kept { IfErr result (Kept machine_step self.old
            (streams_told (I.told input.old) (O.told sink.old))
            (streams_told (I.told input.new) (O.told sink.new))) }
        ensures charged { Charged (I.told input.old) (I.told input.new) (O.told sink.old)
            (O.told sink.new) result }
    {
        self.context.step(&mut self.memory, input, sink)
    }

    /// Takes `n` steps and answers how the machine stands then.
    ///
    /// Once the machine has stopped no step is looked at any more, however many are left. An error
    /// comes as in `step`, at one of the `n` steps, before which the machine stands then.
    pub fn run<I: Source, O: Sink>(
        &mut self,
        input: &mut I,
        sink: &mut O,
        n: u64,
    ) -> Result<MachOutcome, RunFault>
        ensures did { OnOk result (Took n self.old self.new
            (streams_told (I.told input.old) (O.told sink.old))
            (streams_told (I.told input.new) (O.told sink.new))) }
        ensures outcome { IfOk result (λ o. o ≡ self.new.outcome) }
        ensures cut { IfErr result (CutOff n self.old self.new
            (streams_told (I.told input.old) (O.told sink.old))
            (streams_told (I.told input.new) (O.told sink.new))) }
        ensures charged { Charged (I.told input.old) (I.told input.new) (O.told sink.old)
            (O.told sink.new) result }
    {
        self.context.run(&mut self.memory, input, sink, n)
    }

    /// Writes bytes from the address `at` on, for somebody who looks on. A machine that has stopped
    /// is written to as any other.
    ///
    /// `Refused` comes exactly where no one segment that may be written covers the whole range;
    /// nothing changes after an error. Else these bytes of memory alone change. No bytes may be
    /// written anywhere.
    #[tactic(auto, using(crate::proofs::Pokes::poked))]
    pub fn poke(&mut self, at: u64, bytes: &[u8]) -> Result<(), WriteFault>
        ensures allowed { Permits result
            (is_allowed writes self.old.memory at (length bytes.now)) }
        ensures did { OnOk result (Becomes (acted machine_step (Write at bytes.now))
            self.old self.new) }
        ensures unchanged { OnErr result (self.new ≡ self.old) }
    {
        self.memory.write_from(at, bytes)
    }
}
