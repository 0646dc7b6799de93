//! What the innermost call of a run does next.

ghost use Rattle.std.specs.Prelude.{◌≡◌, IfOk, slice_get};
ghost use Rattle.ir_program.specs.declared.action.Action.TheVariants.{Call as CallAction};
ghost use Rattle.ir_run.specs.Answers.{Turns};
ghost use Rattle.ir_run.specs.Turns.{allocates, store_turn, value_turn, action_turn, next_turn, task_turn};

use crate::along::action_result;
use crate::calling::Call;
use crate::fault::Fault;
use crate::reading::{read_arguments, value};
use crate::state::{Asked, State};
use ir_context::origin::Origin;
use ir_core::memory::Value;
use ir_core::stop::Stop;
use ir_program::action::{Action, Callee, Task};
use ir_program::program::{Program, Stretch};
use rd_num::width::NoMemory;
use std::alloc::Global;

impl State {
    /// A new object, whose place is given to a register.
    fn allocate(&mut self, alloc: Global, into: Option<usize>, size: u64) -> Result<(), NoMemory>
        ensures { IfOk result (λ _. self.new ≡ allocates self.old into size) }
    {
        let number = self.memory.count() as u64;
        self.memory.alloca(alloc, size)?;
        self.frame.objects.push(number)?;
        self.frame.registers.give(into, Value::At(number, 0));
        Ok(())
    }

    /// A value is stored.
    fn store(&mut self, a: Origin, p: Origin) -> Result<Asked, Fault>
        ensures { Turns self.new (store_turn self.old a p) result }
    {
        let v = value(&self.frame.registers, a)?;
        let to = value(&self.frame.registers, p)?;
        self.memory.store(v, to)?;
        Ok(Asked::Nothing)
    }

    /// A call of what a value or a name says.
    fn call_callee(
        &mut self,
        alloc: Global,
        program: &Program,
        call: &Call,
        callee: Callee,
        values: &mut Vec<Value>,
    ) -> Result<Asked, Fault>
        ensures { Turns self.new (action_turn program.now self.old call.now.into
            (CallAction call.now.result callee call.now.arguments.now)) result }
    {
        match callee {
            Callee::Outside(outer) => {
                read_arguments(values, &self.frame.registers, call.arguments)?;
                self.call_outer(call.into, outer, values.as_slice())
            }
            Callee::Inside(origin) => {
                let v = value(&self.frame.registers, origin)?;
                read_arguments(values, &self.frame.registers, call.arguments)?;
                self.call(alloc, program, call, v, values.as_slice())
            }
        }
    }

    /// A value is given to a register.
    fn give(&mut self, into: Option<usize>, action: &Action) -> Result<Asked, Fault>
        ensures { Turns self.new (value_turn self.old into action.now) result }
    {
        let v = action_result(&self.memory, &self.frame.registers, action)?;
        self.frame.registers.give(into, v);
        Ok(Asked::Nothing)
    }

    /// One instruction of the innermost call, which stands past it already.
    fn act(
        &mut self,
        alloc: Global,
        program: &Program,
        task: &Task,
        values: &mut Vec<Value>,
    ) -> Result<Asked, Fault>
        ensures { Turns self.new (action_turn program.now self.old task.now.into
            task.now.action) result }
    {
        match &task.action {
            Action::Alloca(size) => {
                self.allocate(alloc, task.into, *size)?;
                Ok(Asked::Nothing)
            }
            Action::Store(a, p) => self.store(*a, *p),
            Action::Call(result, callee, arguments) => {
                let call = Call {
                    result: *result,
                    arguments: arguments.as_slice(),
                    into: task.into,
                };
                self.call_callee(alloc, program, &call, *callee, values)
            }
            _ => self.give(task.into, &task.action),
        }
    }

    /// An instruction of a block, or its end.
    fn go_on(
        &mut self,
        alloc: Global,
        program: &Program,
        stretch: &Stretch,
        values: &mut Vec<Value>,
    ) -> Result<Asked, Fault>
        ensures { Turns self.new (task_turn program.now self.old stretch.now
            (slice_get stretch.now.tasks self.old.frame.next)) result }
    {
        match stretch.tasks.as_slice().get(self.frame.next) {
            Some(task) => {
                self.frame.next += 1;
                self.act(alloc, program, task, values)
            }
            None => self.leave(alloc, stretch.edges.as_slice(), &stretch.exit, values),
        }
    }

    /// What the innermost call does next. The list of values is for the step's own use.
    pub fn turn(
        &mut self,
        alloc: Global,
        program: &Program,
        values: &mut Vec<Value>,
    ) -> Result<Asked, Fault>
        ensures { Turns self.new (next_turn program.now self.old) result }
    {
        match program.bodies.get(self.frame.function) {
            Some(body) => match body.stretches.get(self.frame.block) {
                Some(stretch) => self.go_on(alloc, program, stretch, values),
                None => Err(Fault::Stop(Stop::Malformed)),
            },
            None => Err(Fault::Stop(Stop::Malformed)),
        }
    }
}
