//! The three system calls: to end, to take a byte, and to print bytes.
//!
//! `rax` says which; a call that isn't known stops the machine. The answer goes to `rax`, the place
//! after the call to `rcx` and the flags to `r11`, where a flag that isn't known counts 0.

ghost use Rattle.std.specs.Prelude.{◌≡◌, ◌+◌, ◌*◌, ◌^◌, ◌<◌, ◌≤◌, Some, length};
ghost use Rattle.rd_io.specs.Told.{SourceTold, SinkTold};
ghost use Rattle.x86_core.specs.declared.reg.Reg.TheVariants.{Rsi};
ghost use Rattle.x86_core.specs.Registers.{word};
ghost use Rattle.x86_core.specs.Memory.{read_at};
ghost use Rattle.x86_core.specs.Step.{Prints, Takes, request_of, answered, flag_number, served};
ghost use Rattle.xom_machine.specs.Whole.{over};
ghost use Rattle.xom_machine.specs.Standing.{streams_told};
ghost use Rattle.xom_machine.specs.Changes.{asked_for, PrintsSome};
ghost use Rattle.xom_machine.specs.Calls.{Ran, Charged};

use crate::context::Context;
use rd_io::{PutFail, RunFault, Sink, Source};
use x86_core::flags::{Flag, Flags};
use x86_core::image::MachOutcome;
use x86_core::reg::{Reg, Regs};
use xom_memory::memory::{Memory, TakeFault};

/// The answer to an address that may not be used: -14.
const BAD_ADDRESS: u64 = u64::MAX - 13;

/// How many bytes one call prints at most.
const MOST_PRINTED: usize = 4096;

/// What a system call asks for.
#[derive(Clone, Copy)]
pub enum Request {
    Exits,
    /// To print or to take no byte.
    Idles,
    Prints(u64),
    Takes,
    Unknown,
}

/// What the registers ask of the kernel. Takes no memory.
#[tactic(auto, unfolding(x86_core::specs::Step::request_of))]
pub fn asked(regs: &Regs) -> Request
    ensures value { asked_for result ≡ request_of regs.now }
    ensures some { PrintsSome result }
{
    let count = regs.get(Reg::Rdx).min(MOST_PRINTED as u64);
    match (regs.get(Reg::Rax), regs.get(Reg::Rdi)) {
        (60, _) => Request::Exits,
        (1, 1) if count == 0 => Request::Idles,
        (1, 1) => Request::Prints(count),
        (0, 0) if count == 0 => Request::Idles,
        (0, 0) => Request::Takes,
        _ => Request::Unknown,
    }
}

// A flag as a number.
fn bit(flag: Flag) -> u64
    ensures { result ≡ flag_number flag }
{
    match flag {
        Flag::One => 1,
        _ => 0,
    }
}

// The flags as `r11` has them.
fn packed(flags: &Flags) -> u64
    ensures { result ≡ 514 + flag_number flags.now.c + 64 * flag_number flags.now.z +
        128 * flag_number flags.now.s + 2048 * flag_number flags.now.o }
{
    514 + bit(flags.c) + 64 * bit(flags.z) + 128 * bit(flags.s) + 2048 * bit(flags.o)
}

impl Context {
    /// Does what the registers ask of the kernel, with the place behind the system call.
    ///
    /// After an error the machine is as it was.
    pub(crate) fn system_call<I: Source, O: Sink>(
        &mut self,
        memory: &mut Memory,
        after: u64,
        input: &mut I,
        sink: &mut O,
    ) -> Result<(), RunFault>
        ensures ran { Ran (served (request_of self.old.regs) after after)
            (over self.old memory.old) (over self.new memory.new)
            (streams_told (I.told input.old) (O.told sink.old))
            (streams_told (I.told input.new) (O.told sink.new)) result }
        ensures charged { Charged (I.told input.old) (I.told input.new) (O.told sink.old)
            (O.told sink.new) result }
    {
        match asked(&self.regs) {
            Request::Exits => {
                self.outcome = MachOutcome::Ended((self.regs.get(Reg::Rdi) % 256) as u8);
                Ok(())
            }
            Request::Idles => {
                self.answer(0, after);
                Ok(())
            }
            Request::Prints(count) => {
                self.print::<O, MOST_PRINTED>(memory, count as usize, after, sink)
            }
            Request::Takes => self.take(memory, after, input),
            Request::Unknown => {
                self.outcome = MachOutcome::BadCall;
                Ok(())
            }
        }
    }

    // Prints the bytes that `rsi` points to, in one piece, by way of a room for so many.
    fn print<O: Sink, const N: usize>(
        &mut self,
        memory: &Memory,
        count: usize,
        after: u64,
        sink: &mut O,
    ) -> Result<(), RunFault>
        requires some { 0 < count }
        requires room { count ≤ N }
        requires small { N < 2 ^ 63 }
        ensures ran { (source : SourceTold) →
            Ran (served (Prints count) after after)
            (over self.old memory.now) (over self.new memory.now)
            (streams_told source (O.told sink.old))
            (streams_told source (O.told sink.new)) result }
        ensures charged { (source : SourceTold) →
            Charged source source (O.told sink.old) (O.told sink.new) result }
    {
        let mut room = [0; N];
        let bytes = &mut room[..count];
        match memory.read_into(self.regs.get(Reg::Rsi), bytes) {
            Ok(()) => self.put(memory, bytes, after, sink),
            Err(_) => {
                self.answer(BAD_ADDRESS, after);
                Ok(())
            }
        }
    }

    // Puts the bytes that `rsi` points to.
    fn put<O: Sink>(
        &mut self,
        memory: &Memory,
        bytes: &[u8],
        after: u64,
        sink: &mut O,
    ) -> Result<(), RunFault>
        requires some { 0 < length bytes.now }
        requires read { read_at memory.now (word self.old.regs Rsi) (length bytes.now) ≡
            Some bytes.now }
        ensures ran { (source : SourceTold) →
            Ran (served (Prints (length bytes.now)) after after)
            (over self.old memory.now) (over self.new memory.now)
            (streams_told source (O.told sink.old))
            (streams_told source (O.told sink.new)) result }
        ensures charged { (source : SourceTold) →
            Charged source source (O.told sink.old) (O.told sink.new) result }
    {
        let _ = memory;
        match sink.put(bytes) {
            Ok(()) => {
                self.answer(bytes.len() as u64, after);
                Ok(())
            }
            Err(PutFail::Failed) => Err(RunFault::Output),
            Err(PutFail::NoMemory) => Err(RunFault::NoMemory),
        }
    }

    // Takes a byte to where `rsi` points. The source is asked last.
    fn take<I: Source>(
        &mut self,
        memory: &mut Memory,
        after: u64,
        input: &mut I,
    ) -> Result<(), RunFault>
        ensures ran { (sink : SinkTold) → Ran (served Takes after after)
            (over self.old memory.old) (over self.new memory.new)
            (streams_told (I.told input.old) sink) (streams_told (I.told input.new) sink) result }
        ensures charged { (sink : SinkTold) →
            Charged (I.told input.old) (I.told input.new) sink sink result }
    {
        match memory.take(self.regs.get(Reg::Rsi), input) {
            Ok(Some(_byte)) => {
                self.answer(1, after);
                Ok(())
            }
            Ok(None) => {
                self.answer(0, after);
                Ok(())
            }
            Err(TakeFault::Refused) => {
                self.answer(BAD_ADDRESS, after);
                Ok(())
            }
            Err(TakeFault::NoMemory) => Err(RunFault::NoMemory),
            Err(TakeFault::Failed) => Err(RunFault::Input),
        }
    }

    // On behind a system call with this answer.
    pub(crate) fn answer(&mut self, n: u64, after: u64)
        ensures { let regs = answered self.old.regs self.old.flags n after in
            self.new ≡ record self.old { regs = regs; next = after } }
    {
        self.regs.set(Reg::Rax, n);
        self.regs.set(Reg::Rcx, after);
        self.regs.set(Reg::R11, packed(&self.flags));
        self.next = after;
    }
}
