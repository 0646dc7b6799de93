//! The first state of a run: the call of `main`.

ghost use Rattle.std.specs.Prelude.{◌≡◌, ◌-◌, ◌++◌, IfOk, Some, None, map, length, replicate};
ghost use Rattle.ir_run.specs.Starts.{arguments_for, started, Starts};

use crate::stack::Stack;
use crate::state::{Frame, State};
use ir_context::registers::Registers;
use ir_core::memory::Value;
use ir_memory::memory::Memory;
use ir_program::program::{Body, Program};
use rd_num::width::{NoMemory, Width};
use std::alloc::Global;

/// The registers of a `main` of so many parameters: it has none, or a number and a pointer.
#[tactic(auto, using(crate::proofs::Starting::all_arguments))]
fn first_registers(alloc: Global, parameters: usize, count: usize) -> Result<Registers, NoMemory>
    ensures { IfOk result (λ r. r ≡ map Some (arguments_for parameters) ++
        replicate (count - length (arguments_for parameters)) None) }
{
    let arguments = [Value::Num(Width::W32, 0), Value::Null];
    match parameters {
        0 => Registers::with_values(alloc, &[], count),
        1 => Registers::with_values(alloc, &[Value::Num(Width::W32, 0)], count),
        _ => Registers::with_values(alloc, &arguments, count),
    }
}

/// The first call of a function, over the first memory.
fn first_call(alloc: Global, number: usize, body: &Body, memory: Memory) -> Result<State, NoMemory>
    ensures { IfOk result (λ s. s ≡ started body.now number memory) }
{
    let registers = first_registers(alloc, body.parameters.len(), body.registers)?;
    let frame = Frame {
        function: number,
        block: 0,
        next: 0,
        registers,
        objects: Stack::new(alloc),
        into: None,
    };
    Ok(State {
        frame,
        callers: Stack::new(alloc),
        memory,
    })
}

/// Before the first instruction of `main`; no state where there is none.
#[tactic(auto, using(crate::proofs::Starting::starts_there, crate::proofs::Starting::starts_nowhere, crate::proofs::Starting::starts_past))]
pub fn start(alloc: Global, program: &Program, memory: Memory) -> Result<Option<State>, NoMemory>
    ensures { IfOk result (λ s. Starts program.now memory s) }
{
    match program.main {
        Some(number) => match program.bodies.get(number as usize) {
            Some(body) => {
                let s = first_call(alloc, number as usize, body, memory)?;
                Ok(Some(s))
            }
            None => Ok(None),
        },
        None => Ok(None),
    }
}
