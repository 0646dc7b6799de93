//! Calls of functions of the module, and returns.

ghost use Rattle.std.specs.Prelude.{◌≡◌, IfOk};
ghost use Rattle.rd_num.specs.Number.{bits};
ghost use Rattle.ir_core.specs.Kinds.{same_kind};
ghost use Rattle.ir_core.specs.Calls.{same_kinds as are_same_kinds};
ghost use Rattle.ir_core.specs.Memory.{without};
ghost use Rattle.ir_run.specs.Answers.{Turns};
ghost use Rattle.ir_run.specs.Turns.{kinds_in, is_entered_as, entered, body_turn, enter_turn, returned, return_turn};

use crate::fault::Fault;
use crate::stack::Stack;
use crate::state::{Asked, Frame, State};
use ir_context::registers::Registers;
use ir_core::MAX_CALLS;
use ir_core::kind::Kind;
use ir_core::memory::{Reason, Value};
use ir_core::stop::Stop;
use ir_memory::memory::Memory;
use ir_memory::values::last_result;
use ir_program::action::Argument;
use ir_program::program::{Body, Program};
use rd_num::width::{NoMemory, Width};
use std::alloc::Global;

/// How many calls can wait for the innermost one.
const MOST_CALLERS: usize = MAX_CALLS as usize - 1;

/// What a call says: the kind of its result, its arguments, and the register of the result.
#[derive(Clone, Copy)]
pub struct Call<'a> {
    pub result: Kind,
    pub arguments: &'a [Argument],
    pub into: Option<usize>,
}

/// How many bits a number of a width has.
fn bit_count(w: Width) -> u32
    ensures { result ≡ bits w }
{
    match w {
        Width::W1 => 1,
        Width::W8 => 8,
        Width::W16 => 16,
        Width::W32 => 32,
        Width::W64 => 64,
    }
}

/// Whether two kinds are the same.
fn is_same(a: Kind, b: Kind) -> bool
    ensures { result ≡ same_kind a b }
{
    match (a, b) {
        (Kind::NoValue, Kind::NoValue) => true,
        (Kind::Number(v), Kind::Number(w)) => bit_count(v) == bit_count(w),
        (Kind::Pointer, Kind::Pointer) => true,
        _ => false,
    }
}

/// Whether kinds are those of arguments.
fn are_kinds(kinds: &[Kind], arguments: &[Argument]) -> bool
    ensures { result ≡ are_same_kinds kinds.now (kinds_in arguments.now) }
{
    if kinds.len() != arguments.len() {
        return false;
    }
    for i in 0..kinds.len() {
        if !is_same(kinds[i], arguments[i].kind) {
            return false;
        }
    }
    true
}

/// Whether a function has the result and parameter kinds of a call.
fn is_called_as(body: &Body, result_kind: Kind, arguments: &[Argument]) -> bool
    ensures { result ≡ is_entered_as body.now result_kind (kinds_in arguments.now) }
{
    is_same(body.result, result_kind) && are_kinds(body.parameters.as_slice(), arguments)
}

/// Kills the objects of a call.
fn forget(alloc: Global, memory: &mut Memory, mut objects: Stack<u64>)
    ensures { memory.new ≡ without memory.old objects }
{
    'all: while let Some(o) = objects.pop() {
        memory.forget(alloc, &[o]);
    }
}

impl State {
    /// A call of a function of the module at its start.
    fn enter(
        &mut self,
        alloc: Global,
        number: usize,
        body: &Body,
        values: &[Value],
        into: Option<usize>,
    ) -> Result<(), NoMemory>
        ensures { IfOk result (λ _. self.new ≡ entered body.now number self.old into values.now) }
    {
        let registers = Registers::with_values(alloc, values, body.registers)?;
        let callee = Frame {
            function: number,
            block: 0,
            next: 0,
            registers,
            objects: Stack::new(alloc),
            into,
        };
        let caller = std::mem::replace(&mut self.frame, callee);
        self.callers.push(caller)
    }

    /// A call of a function of the module: its kinds and the room for it are tested first.
    fn call_body(
        &mut self,
        alloc: Global,
        number: usize,
        body: &Body,
        call: &Call,
        values: &[Value],
    ) -> Result<Asked, Fault>
        ensures { Turns self.new (body_turn body.now number self.old call.now.result
            (kinds_in call.now.arguments.now) values.now call.now.into) result }
    {
        if !is_called_as(body, call.result, call.arguments) {
            return Err(Fault::Stop(Stop::Left(Reason::Callee)));
        }
        if self.callers.len() >= MOST_CALLERS {
            return Err(Fault::Stop(Stop::Depth));
        }
        match self.enter(alloc, number, body, values, call.into) {
            Ok(()) => Ok(Asked::Nothing),
            Err(_) => Err(Fault::NoMemory),
        }
    }

    /// A call of what a value says: only a function of the module is called.
    pub fn call(
        &mut self,
        alloc: Global,
        program: &Program,
        call: &Call,
        callee: Value,
        values: &[Value],
    ) -> Result<Asked, Fault>
        ensures { Turns self.new (enter_turn program.now self.old call.now.result
            (kinds_in call.now.arguments.now) values.now call.now.into callee) result }
    {
        match callee {
            Value::Fun(f) => match program.bodies.get(f as usize) {
                Some(body) => self.call_body(alloc, f as usize, body, call, values),
                None => Err(Fault::Stop(Stop::Malformed)),
            },
            Value::Num(_, _) | Value::Null | Value::At(_, _) => {
                Err(Fault::Stop(Stop::Left(Reason::Callee)))
            }
        }
    }

    /// A return: the caller goes on with the result, and the objects of the call are dead then.
    pub fn give_back(&mut self, alloc: Global, result_value: Option<Value>) -> Result<Asked, Fault>
        ensures { Turns self.new (return_turn self.old self.old.callers result_value) result }
    {
        match self.callers.pop() {
            Some(caller) => {
                self.resume(alloc, caller, result_value);
                Ok(Asked::Nothing)
            }
            None => Err(Fault::Stop(last_result(result_value))),
        }
    }

    /// The innermost call is gone, and its caller goes on.
    fn resume(&mut self, alloc: Global, caller: Frame, result_value: Option<Value>)
        ensures { self.new ≡ returned self.old caller self.old.callers result_value }
    {
        let into = self.frame.into;
        let objects = std::mem::replace(&mut self.frame.objects, Stack::new(alloc));
        forget(alloc, &mut self.memory, objects);
        self.frame = caller;
        if let Some(v) = result_value {
            self.frame.registers.give(into, v);
        }
    }
}
