//! Steps of a program between a source and a sink.
//!
//! A step that prints gives the sink its byte, and one that reads takes a byte of the source; where
//! that fails the run is cut off before the step.

ghost use Rattle.std.specs.Prelude.{◌≡◌};
ghost use Rattle.rd_io.specs.Told.{SourceTold, SinkTold};
ghost use Rattle.ir_run.specs.declared.state.State.{State as Standing};
ghost use Rattle.ir_run.specs.declared.state.Asked.TheVariants.{Print as PrintAsked, Take as TakeAsked};
ghost use Rattle.ir_run.specs.Runs.{byte_value as given_as, Exchanged, Charged, Stepped, Ran};

use crate::fault::Fault;
use crate::state::{Asked, State};
use ir_core::memory::Value;
use ir_core::stop::Stop;
use ir_program::program::Program;
use rd_io::{Failed, PutFail, RunFault, Sink, Source};
use rd_num::width::Width;
use std::alloc::Global;

/// A byte as it is given back, or the end of the input.
fn byte_value(byte: Option<u8>) -> Value
    ensures { result ≡ given_as byte }
{
    match byte {
        Some(b) => Value::Num(Width::W32, u64::from(b)),
        None => Value::Num(Width::W32, 4_294_967_295),
    }
}

/// A byte is put.
fn put<O: Sink>(byte: u8, sink: &mut O) -> Result<(), RunFault>
    ensures put { (source : SourceTold) (s : Standing) → Exchanged s (PrintAsked byte) s
        source source (O.told sink.old) (O.told sink.new) result }
    ensures charged { (source : SourceTold) → Charged source source
        (O.told sink.old) (O.told sink.new) result }
{
    match sink.put(&[byte]) {
        Ok(()) => Ok(()),
        Err(PutFail::Failed) => Err(RunFault::Output),
        Err(PutFail::NoMemory) => Err(RunFault::NoMemory),
    }
}

impl State {
    /// A byte is taken and given to a register.
    fn take<I: Source>(&mut self, into: Option<usize>, input: &mut I) -> Result<(), RunFault>
        ensures took { (sink : SinkTold) → Exchanged self.old (TakeAsked into) self.new
            (I.told input.old) (I.told input.new) sink sink result }
        ensures charged { (sink : SinkTold) → Charged (I.told input.old) (I.told input.new)
            sink sink result }
    {
        match input.take() {
            Ok(byte) => {
                self.frame.registers.give(into, byte_value(byte));
                Ok(())
            }
            Err(Failed) => Err(RunFault::Input),
        }
    }

    /// What a turn asked of the outside.
    fn exchange<I: Source, O: Sink>(
        &mut self,
        asked: Asked,
        input: &mut I,
        sink: &mut O,
    ) -> Result<(), RunFault>
        ensures exchanged { Exchanged self.old asked self.new (I.told input.old) (I.told input.new)
            (O.told sink.old) (O.told sink.new) result }
        ensures charged { Charged (I.told input.old) (I.told input.new) (O.told sink.old)
            (O.told sink.new) result }
    {
        match asked {
            Asked::Nothing => Ok(()),
            Asked::Print(byte) => put(byte, sink),
            Asked::Take(into) => self.take(into, input),
        }
    }

    /// One step. The stop of the run is handed out where the step came to one.
    fn step<I: Source, O: Sink>(
        &mut self,
        alloc: Global,
        program: &Program,
        values: &mut Vec<Value>,
        input: &mut I,
        sink: &mut O,
    ) -> Result<Option<Stop>, RunFault>
        ensures stepped { Stepped program.now self.old self.new (I.told input.old)
            (I.told input.new) (O.told sink.old) (O.told sink.new) result }
        ensures charged { Charged (I.told input.old) (I.told input.new) (O.told sink.old)
            (O.told sink.new) result }
    {
        match self.turn(alloc, program, values) {
            Ok(asked) => match self.exchange(asked, input, sink) {
                Ok(()) => Ok(None),
                Err(e) => Err(e),
            },
            Err(Fault::Stop(stop)) => Ok(Some(stop)),
            Err(Fault::NoMemory) => Err(RunFault::NoMemory),
        }
    }

    /// Takes `n` steps, or fewer where one of them stops the run, and hands out that stop.
    ///
    /// `Input` comes only where the source has failed, at a step that asks for a byte; `Output`
    /// only where the sink has failed, at a step that prints.
    pub fn run<I: Source, O: Sink>(
        &mut self,
        alloc: Global,
        program: &Program,
        input: &mut I,
        sink: &mut O,
        n: u64,
    ) -> Result<Option<Stop>, RunFault>
        ensures ran { Ran program.now self.old n (I.told input.old) (I.told input.new)
            (O.told sink.old) (O.told sink.new) result }
        ensures charged { Charged (I.told input.old) (I.told input.new) (O.told sink.old)
            (O.told sink.new) result }
    {
        let mut values = Vec::new(alloc);
        'steps: for _ in 0..n {
            match self.step(alloc, program, &mut values, input, sink) {
                Ok(None) => {}
                Ok(Some(stop)) => return Ok(Some(stop)),
                Err(e) => return Err(e),
            }
        }
        Ok(None)
    }
}
