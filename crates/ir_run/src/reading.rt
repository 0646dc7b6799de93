//! What the instructions of a call read: values by their origins, one or many.
//!
//! Many are read to a list that is kept from step to step, so that a step takes no memory for them.

ghost use Rattle.std.specs.Prelude.{◌≡◌};
ghost use Rattle.ir_core.specs.Answers.{answered};
ghost use Rattle.ir_context.specs.Reads.{origin_value};
ghost use Rattle.ir_program.specs.Reads.{argument_values};
ghost use Rattle.ir_run.specs.Answers.{Puts, Tells};
ghost use Rattle.ir_run.specs.Turns.{move_values};

use crate::fault::Fault;
use ir_context::origin::Origin;
use ir_context::registers::Registers;
use ir_core::memory::{Reason, Value};
use ir_core::stop::Stop;
use ir_program::action::Argument;
use ir_program::exit::Move;

/// The value of an origin. Takes no memory.
pub fn value(registers: &Registers, origin: Origin) -> Result<Value, Stop>
    ensures { answered result ≡ origin_value registers.now origin }
{
    match origin {
        Origin::Known(v) => Ok(v),
        Origin::Register(k) => registers.get(k),
        Origin::Unset => Err(Stop::Left(Reason::Unset)),
        Origin::Malformed => Err(Stop::Malformed),
    }
}

/// The value of an origin behind other values.
fn put_value(values: &mut Vec<Value>, registers: &Registers, origin: Origin) -> Result<(), Fault>
    ensures { Puts values.old.items values.new.items (origin_value registers.now origin) result }
{
    match value(registers, origin) {
        Ok(v) => match values.push(v) {
            Ok(()) => Ok(()),
            Err(_) => Err(Fault::NoMemory),
        },
        Err(stop) => Err(Fault::Stop(stop)),
    }
}

/// The values of arguments.
pub fn read_arguments(
    values: &mut Vec<Value>,
    registers: &Registers,
    arguments: &[Argument],
) -> Result<(), Fault>
    ensures { Tells values.new.items (argument_values registers.now arguments.now) result }
{
    values.clear();
    for a in arguments {
        put_value(values, registers, a.origin)?;
    }
    Ok(())
}

/// What phis take along an edge.
pub fn read_moves(
    values: &mut Vec<Value>,
    registers: &Registers,
    moves: &[Move],
) -> Result<(), Fault>
    ensures { Tells values.new.items (move_values registers.now moves.now) result }
{
    values.clear();
    for m in moves {
        put_value(values, registers, m.origin)?;
    }
    Ok(())
}
