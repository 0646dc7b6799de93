//! The machine of an image, as what runs.

ghost use Rattle.std.specs.Prelude.{◌≡◌};
ghost use Rattle.xom_machine.specs.Standing.{ending_of};
ghost use Rattle.rd_top.specs.Answers.{ending_from};
ghost use Rattle.rd_top.specs.Courses.{AnyInput};
ghost use Rattle.rd_top.specs.Machines.{machine_course};

use crate::answer::{Outcome, Stop, Trap};
use crate::stream::Program;
use rd_io::{RunFault, Sink, Source};
use std::alloc::Global;
use x86_core::image::{Image, MachOutcome};
use xom_machine::machine::Machine;

/// How a machine stands, as an outcome of a run.
fn outcome_of(outcome: MachOutcome) -> Outcome
    ensures { ending_of outcome ≡ ending_from result }
{
    match outcome {
        MachOutcome::Going => Outcome::Going,
        MachOutcome::Ended(status) => Outcome::Ended(status),
        MachOutcome::Divide => Outcome::Trapped(Trap::Divide),
        MachOutcome::Invalid => Outcome::Trapped(Trap::Invalid),
        MachOutcome::Breakpoint => Outcome::Trapped(Trap::Breakpoint),
        MachOutcome::PageFault => Outcome::Stopped(Stop::PageFault),
        MachOutcome::NoForm => Outcome::Stopped(Stop::NoForm),
        MachOutcome::NoFlag => Outcome::Stopped(Stop::NoFlag),
        MachOutcome::BadCall => Outcome::Stopped(Stop::BadCall),
    }
}

impl Program for Image {
    ghost reads = { AnyInput };

    ghost course = { machine_course };

    fn run<I: Source, O: Sink>(
        &self,
        alloc: Global,
        steps: u64,
        input: &mut I,
        out: &mut O,
    ) -> Result<Outcome, RunFault> {
        let mut machine = match Machine::start(alloc, self) {
            Ok(machine) => machine,
            Err(_) => return Err(RunFault::NoMemory),
        };
        match machine.run(input, out, steps) {
            Ok(outcome) => Ok(outcome_of(outcome)),
            Err(fault) => Err(fault),
        }
    }
}
