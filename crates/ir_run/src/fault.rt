//! Why a step has no next state.

use ir_core::stop::Stop;
use rd_num::width::NoMemory;

/// Why a step has no next state: it stops the run, or memory is wanting.
#[derive(Clone, Copy)]
pub enum Fault {
    Stop(Stop),
    NoMemory,
}

impl From<Stop> for Fault {
    ghost use Rattle.std.specs.Prelude.{◌≡◌};
    ghost use Rattle.ir_run.specs.declared.fault.Fault.TheVariants as fault;

    ghost from_gives = { λ stop e. e ≡ fault.Stop stop };

    fn from(stop: Stop) -> Fault {
        Fault::Stop(stop)
    }
}

impl From<NoMemory> for Fault {
    ghost use Rattle.std.specs.Prelude.{◌≡◌};
    ghost use Rattle.ir_run.specs.declared.fault.Fault.TheVariants as fault;

    ghost from_gives = { λ _ e. e ≡ fault.NoMemory };

    fn from(_wanting: NoMemory) -> Fault {
        Fault::NoMemory
    }
}
