//! Pointers along paths, and the values of instructions that give one and change nothing else.

ghost use Rattle.std.specs.Prelude.{◌≡◌, ◌+◌, ◌%◌, ◌^◌, ◌<◌, Ok, IfOk};
ghost use Rattle.ir_core.specs.Stops.{and_then};
ghost use Rattle.ir_core.specs.Answers.{answered};
ghost use Rattle.ir_context.specs.Reads.{moved_along};
ghost use Rattle.ir_run.specs.Strides.{AreRead, stride_word, stride_total};
ghost use Rattle.ir_run.specs.Turns.{action_value};

use crate::reading::value;
use ir_context::origin::Origin;
use ir_context::path::{Path, Stride};
use ir_context::registers::Registers;
use ir_core::memory::Value;
use ir_core::stop::Stop;
use ir_core::values::index_word;
use ir_memory::memory::Memory;
use ir_memory::pointer::moved;
use ir_memory::values::{binary_value, cast_value, compared_value, selected};
use ir_program::action::Action;

/// The indices of strides are read before any of them is a number.
fn read_indices(registers: &Registers, strides: &[Stride]) -> Result<(), Stop>
    ensures { AreRead registers.now strides.now result }
{
    for s in strides {
        value(registers, s.index)?;
    }
    Ok(())
}

/// A number of bytes, and those of a stride more.
fn with_stride(bytes: u64, registers: &Registers, stride: Stride) -> Result<u64, Stop>
    ensures sum { answered result ≡ and_then (stride_word registers.now stride)
        (λ n. Ok ((bytes + n) % 2 ^ 64)) }
    ensures small { IfOk result (λ n. n < 2 ^ 64) }
{
    let v = value(registers, stride.index)?;
    let word = index_word(v)?;
    Ok(bytes.wrapping_add(word.wrapping_mul(stride.size)))
}

/// The bytes of a path.
#[tactic(auto, using(crate::proofs::StrideLaws::stride_stops_at, crate::proofs::StrideLaws::more_strides_at))]
fn path_bytes(registers: &Registers, path: &Path) -> Result<u64, Stop>
    ensures { answered result ≡ and_then (stride_total registers.now path.now.strides)
        (λ n. Ok ((path.now.constant + n) % 2 ^ 64)) }
{
    let mut bytes = path.constant;
    for s in path.strides.as_slice() {
        match with_stride(bytes, registers, *s) {
            Ok(more) => bytes = more,
            Err(stop) => return Err(stop),
        }
    }
    Ok(bytes)
}

/// A pointer along a path.
fn along(registers: &Registers, base: Origin, path: &Path) -> Result<Value, Stop>
    ensures { answered result ≡ moved_along registers.now base path.now }
{
    let v = value(registers, base)?;
    read_indices(registers, path.strides.as_slice())?;
    match path_bytes(registers, path) {
        Ok(bytes) => moved(bytes, v),
        Err(stop) => Err(stop),
    }
}

/// The value of an action that gives one and changes nothing else. Takes no memory.
pub fn action_result(memory: &Memory, registers: &Registers, action: &Action) -> Result<Value, Stop>
    ensures { answered result ≡ action_value memory.now registers.now action.now }
{
    match action {
        Action::Binary(op, kind, a, b) => {
            let x = value(registers, *a)?;
            let y = value(registers, *b)?;
            binary_value(*op, *kind, x, y)
        }
        Action::Compare(pred, kind, a, b) => {
            let x = value(registers, *a)?;
            let y = value(registers, *b)?;
            compared_value(memory, *pred, *kind, x, y)
        }
        Action::Cast(op, from, to, a) => {
            let x = value(registers, *a)?;
            cast_value(*op, *from, *to, x)
        }
        Action::Select(condition, a, b) => {
            let c = value(registers, *condition)?;
            let x = value(registers, *a)?;
            let y = value(registers, *b)?;
            selected(c, x, y)
        }
        Action::Freeze(a) => value(registers, *a),
        Action::Load(kind, p) => {
            let x = value(registers, *p)?;
            memory.load(*kind, x)
        }
        Action::Move(base, path) => along(registers, *base, path),
        Action::Alloca(_) | Action::Store(_, _) | Action::Call(_, _, _) | Action::Malformed => {
            Err(Stop::Malformed)
        }
    }
}
