//! Streaming a run: the output comes out as it is printed, and the answer is how the run stands.
//!
//! `Program` is what runs: the machine of an image, in `machine`, or a module by its meaning, in
//! `meaning`. What a run is, and what each answer says of one, stands in `specs/Courses.antt`.

ghost use Rattle.std.specs.Prelude.{◌≡◌, ℕ, List as Row};
ghost use Rattle.rd_top.specs.Courses.{Course, Streams, run_answer};
ghost use Rattle.rd_top.specs.World.{KeepsInput, KeepsOut};

use crate::answer::{Answer, Outcome};
use rd_io::{RunFault, Sink, Source};
use std::alloc::Global;

/// What runs over an input and an output, step by step.
pub trait Program {
    /// The inputs of which the course is that of the run.
    ghost reads: { Row ℕ → Type 0 };

    ghost course: { Self → Course };

    /// Takes a number of steps from the start, and answers how the run stands then.
    fn run<I: Source, O: Sink>(
        &self,
        alloc: Global,
        steps: u64,
        input: &mut I,
        out: &mut O,
    ) -> Result<Outcome, RunFault>
        ensures streams { Streams reads (course self.now) steps (I.told input.old)
            (I.told input.new) (O.told out.old) (O.told out.new) (run_answer result) }
        ensures input { KeepsInput (I.told input.old) (I.told input.new) (run_answer result) }
        ensures out { KeepsOut (O.told out.old) (O.told out.new) (run_answer result) };
}

/// The answer of a run that reached its end, or of its fault.
fn answer_of(run: Result<Outcome, RunFault>) -> Answer
    ensures { result ≡ run_answer run }
{
    match run {
        Ok(outcome) => Answer::Ran(outcome),
        Err(RunFault::Input) => Answer::Input,
        Err(RunFault::Output) => Answer::Out,
        Err(RunFault::NoMemory) => Answer::Memory,
    }
}

/// Runs a program over the input and the output for a number of steps.
pub fn stream<P: Program, I: Source, O: Sink>(
    alloc: Global,
    program: &P,
    steps: u64,
    input: &mut I,
    out: &mut O,
) -> Answer
    ensures streams { Streams P.reads (P.course program.now) steps (I.told input.old)
        (I.told input.new) (O.told out.old) (O.told out.new) result }
    ensures input { KeepsInput (I.told input.old) (I.told input.new) result }
    ensures out { KeepsOut (O.told out.old) (O.told out.new) result }
{
    answer_of(program.run(alloc, steps, input, out))
}
