//! How a run stands after some steps.

ghost use Rattle.std.specs.Prelude.{◌≡◌};
ghost use Rattle.ir_eval.specs.Outcomes.{outcome_after};

use ir_core::memory::Reason;
use ir_core::stop::Stop;
use rd_io::RunFault;

/// How a run stands: it goes on, it came to its end with an exit status, it came to a division
/// without a result, to `unreachable` or `llvm.trap`, or to one call too many, or it was left where
/// its module claims nothing.
#[derive(Clone, Copy)]
pub enum IrOutcome {
    Going,
    Ended(u8),
    Divide,
    Trap,
    Depth,
    Left(Reason),
}

/// How a run stands that came to this stop, or to none. `NoMemory` comes only for a malformed stop.
pub fn outcome_of(stop: Option<Stop>) -> Result<IrOutcome, RunFault>
    ensures { result ≡ outcome_after stop }
{
    match stop {
        None => Ok(IrOutcome::Going),
        Some(Stop::Ended(status)) => Ok(IrOutcome::Ended(status)),
        Some(Stop::Divide) => Ok(IrOutcome::Divide),
        Some(Stop::Trap) => Ok(IrOutcome::Trap),
        Some(Stop::Depth) => Ok(IrOutcome::Depth),
        Some(Stop::Left(reason)) => Ok(IrOutcome::Left(reason)),
        Some(Stop::Malformed) => Err(RunFault::NoMemory),
    }
}
