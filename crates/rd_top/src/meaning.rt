//! A module by its meaning, as what runs.

ghost use Rattle.std.specs.Prelude.{◌≡◌};
ghost use Rattle.behavior.specs.Moment.{AreBytes};
ghost use Rattle.ir_eval.specs.Outcomes.{outcome_ending};
ghost use Rattle.rd_top.specs.Answers.{ending_from};
ghost use Rattle.rd_top.specs.Modules.{module_course};

use crate::answer::{Outcome, Trap};
use crate::stream::Program;
use ir_core::valid::Valid;
use ir_eval::evaluate::eval;
use ir_eval::outcome::IrOutcome;
use rd_io::{RunFault, Sink, Source};
use std::alloc::Global;

/// How a module's run stands, as an outcome of a run.
fn outcome_of(outcome: IrOutcome) -> Outcome
    ensures { outcome_ending outcome ≡ ending_from result }
{
    match outcome {
        IrOutcome::Going => Outcome::Going,
        IrOutcome::Ended(status) => Outcome::Ended(status),
        IrOutcome::Divide => Outcome::Trapped(Trap::Divide),
        IrOutcome::Trap => Outcome::Trapped(Trap::Unreachable),
        IrOutcome::Depth => Outcome::Trapped(Trap::Depth),
        IrOutcome::Left(reason) => Outcome::Left(reason),
    }
}

impl Program for Valid {
    ghost reads = { AreBytes };

    ghost course = { λ v. module_course v.kept };

    fn run<I: Source, O: Sink>(
        &self,
        alloc: Global,
        steps: u64,
        input: &mut I,
        out: &mut O,
    ) -> Result<Outcome, RunFault> {
        match eval(alloc, self, input, out, steps) {
            Ok(outcome) => Ok(outcome_of(outcome)),
            Err(fault) => Err(fault),
        }
    }
}
