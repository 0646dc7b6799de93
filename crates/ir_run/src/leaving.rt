//! The ends of blocks: returns, and edges to other blocks.
//!
//! What the phis of a block take along an edge is read whole before any of it is given.

ghost use Rattle.std.specs.Prelude.{◌≡◌, []};
ghost use Rattle.ir_core.specs.Stops.{and_then};
ghost use Rattle.ir_core.specs.Answers.{answered};
ghost use Rattle.ir_program.specs.declared.exit.Exit.TheVariants.{Branch as BranchExit, Switch as SwitchExit};
ghost use Rattle.ir_context.specs.Reads.{origin_value};
ghost use Rattle.ir_run.specs.Answers.{Turns};
ghost use Rattle.ir_run.specs.Turns.{with_moves, edge_turn, goes_along, edge_if as edge_by, same_number, arm_chosen, arrived, exit_turn};

use crate::fault::Fault;
use crate::reading::{read_moves, value};
use crate::state::{Asked, State};
use ir_context::origin::Origin;
use ir_context::registers::Registers;
use ir_core::memory::{Reason, Value};
use ir_core::stop::Stop;
use ir_program::exit::{Arm, Edge, Exit, Move};
use std::alloc::Global;

/// Gives values to the registers of phis. The first phi of a register gives it its value.
#[tactic(auto, using(crate::proofs::MoveLaws::no_moves, crate::proofs::MoveLaws::one_more_move))]
fn give_all(registers: &mut Registers, moves: &[Move], values: &[Value])
    ensures { registers.new ≡ with_moves moves.now values.now registers.old }
{
    let count = moves.len().min(values.len());
    for i in (0..count).rev() {
        registers.give(moves[i].into, values[i]);
    }
}

/// One of two edges, by a truth value.
fn edge_if(condition: Value, taken: usize, other: usize) -> Result<usize, Stop>
    ensures { answered result ≡ edge_by condition taken other }
{
    match condition {
        Value::Num(_, n) => Ok(if n == 0 { other } else { taken }),
        Value::Null | Value::At(_, _) | Value::Fun(_) => Err(Stop::Malformed),
    }
}

/// Whether a case is the number of a switch.
fn is_case(known: Value, v: Value) -> Result<bool, Stop>
    ensures { answered result ≡ same_number known v }
{
    match (known, v) {
        (Value::Num(_, a), Value::Num(_, b)) => Ok(a == b),
        _ => Err(Stop::Malformed),
    }
}

/// The value of a case, which no register has.
fn case_value(origin: Origin) -> Result<Value, Stop>
    ensures { answered result ≡ origin_value [] origin }
{
    match origin {
        Origin::Known(v) => Ok(v),
        Origin::Register(_) | Origin::Unset => Err(Stop::Left(Reason::Unset)),
        Origin::Malformed => Err(Stop::Malformed),
    }
}

/// Whether an arm is for the number of a switch.
fn is_arm_for(arm: Arm, v: Value) -> Result<bool, Stop>
    ensures { answered result ≡ and_then (origin_value [] arm.value) (λ x. same_number x v) }
{
    let known = case_value(arm.value)?;
    is_case(known, v)
}

/// The edge of the first arm that is the number, or the default.
fn choose(v: Value, default: usize, arms: &[Arm]) -> Result<usize, Stop>
    ensures { answered result ≡ arm_chosen v default arms.now }
{
    for a in arms {
        if is_arm_for(*a, v)? {
            return Ok(a.edge);
        }
    }
    Ok(default)
}

impl State {
    /// The innermost call is in the block to which an edge leads.
    fn arrive(&mut self, edge: &Edge, values: &[Value])
        ensures { self.new ≡ arrived self.old edge.now values.now }
    {
        give_all(&mut self.frame.registers, edge.moves.as_slice(), values);
        self.frame.block = edge.block;
        self.frame.next = edge.next;
    }

    /// Along an edge.
    fn follow(&mut self, edge: &Edge, values: &mut Vec<Value>) -> Result<Asked, Fault>
        ensures { Turns self.new (edge_turn self.old edge.now) result }
    {
        read_moves(values, &self.frame.registers, edge.moves.as_slice())?;
        self.arrive(edge, values.as_slice());
        Ok(Asked::Nothing)
    }

    /// Along the edge of a number.
    fn go(&mut self, edges: &[Edge], number: usize, values: &mut Vec<Value>) -> Result<Asked, Fault>
        ensures { Turns self.new (goes_along self.old edges.now number) result }
    {
        match edges.get(number) {
            Some(edge) => self.follow(edge, values),
            None => Err(Fault::Stop(Stop::Malformed)),
        }
    }

    /// Along one of two edges.
    fn branch(
        &mut self,
        edges: &[Edge],
        condition: Origin,
        taken: usize,
        other: usize,
        values: &mut Vec<Value>,
    ) -> Result<Asked, Fault>
        ensures { Turns self.new (exit_turn self.old edges.now
            (BranchExit condition taken other)) result }
    {
        let v = value(&self.frame.registers, condition)?;
        let number = edge_if(v, taken, other)?;
        self.go(edges, number, values)
    }

    /// Along one of many edges.
    fn switch(
        &mut self,
        edges: &[Edge],
        origin: Origin,
        default: usize,
        arms: &[Arm],
        values: &mut Vec<Value>,
    ) -> Result<Asked, Fault>
        ensures { Turns self.new (exit_turn self.old edges.now
            (SwitchExit origin default arms.now)) result }
    {
        let v = value(&self.frame.registers, origin)?;
        let number = choose(v, default, arms)?;
        self.go(edges, number, values)
    }

    /// The end of a block.
    pub fn leave(
        &mut self,
        alloc: Global,
        edges: &[Edge],
        exit: &Exit,
        values: &mut Vec<Value>,
    ) -> Result<Asked, Fault>
        ensures { Turns self.new (exit_turn self.old edges.now exit.now) result }
    {
        match exit {
            Exit::Return => self.give_back(alloc, None),
            Exit::Give(origin) => {
                let v = value(&self.frame.registers, *origin)?;
                self.give_back(alloc, Some(v))
            }
            Exit::Jump(number) => self.go(edges, *number, values),
            Exit::Branch(condition, taken, other) => {
                self.branch(edges, *condition, *taken, *other, values)
            }
            Exit::Switch(origin, default, arms) => {
                self.switch(edges, *origin, *default, arms.as_slice(), values)
            }
            Exit::Unreachable => Err(Fault::Stop(Stop::Trap)),
        }
    }
}
