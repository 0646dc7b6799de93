//! Calls on numbered registers.

ghost use Rattle.std.specs.Prelude.{◌≡◌, ◌++◌, take, OnOk};
ghost use Rattle.ir_core.specs.Operands.{function_number};
ghost use Rattle.low_core.specs.SelShaped.{arity as arity_of};
ghost use Rattle.isel_rows.specs.Variables.{register_read};
ghost use Rattle.isel_rows.specs.Brought.{args_brought};
ghost use Rattle.isel_rows.specs.Calls.{register_into, behind_args, outside_ops, idle_ops, outer_ops, named_ops, call_ops};

use crate::selector::Selector;
use ir_context::origin::{Origin, local};
use ir_core::instruction::Arg;
use ir_core::operand::Operand;
use ir_core::outer::Outer;
use ir_core::ty::Name;
use low_core::sel::{SelOp, Which};
use rd_num::list::List;
use rd_num::width::NoMemory;

/// How many arguments a function outside reads. Takes no memory.
fn arity(which: Which) -> usize
    ensures { result ≡ arity_of which }
{
    match which {
        Which::Putchar => 1,
        Which::Getchar => 0,
        Which::Exit => 1,
        Which::Memcpy => 3,
        Which::Memset => 3,
        Which::Trap => 0,
    }
}

/// The first arguments, at most so many. Takes no memory.
fn first_of(args: &[Arg], most: usize) -> &[Arg]
    ensures { result.now ≡ take most args.now }
{
    if most < args.len() {
        &args[..most]
    } else {
        args
    }
}

impl<'c, 'a> Selector<'c, 'a> {
    /// Puts a call of a function outside, with as many arguments as it reads.
    fn push_outside(
        &self,
        ops: &mut List<SelOp>,
        into: Option<u32>,
        which: Which,
        args: &[Arg],
    ) -> Result<(), NoMemory>
        ensures { OnOk result (ops.new ≡ ops.old ++ outside_ops self.now.context.now
            self.now.variables.now into which args.now) }
    {
        let registers = self.arguments(ops, first_of(args, arity(which)))?;
        ops.add(SelOp::Outside(which, into, registers))
    }

    /// Puts an operation that does nothing.
    fn push_idle(&self, ops: &mut List<SelOp>) -> Result<(), NoMemory>
        ensures { OnOk result (ops.new ≡ ops.old ++ idle_ops self.now.variables.now) }
    {
        ops.add(SelOp::Set(self.variables.idle_register()?, 0))
    }

    /// Puts a call of what stands outside.
    fn push_outer(
        &self,
        ops: &mut List<SelOp>,
        into: Option<u32>,
        outer: Outer,
        args: &[Arg],
    ) -> Result<(), NoMemory>
        ensures { OnOk result (ops.new ≡ ops.old ++ outer_ops self.now.context.now
            self.now.variables.now into outer args.now) }
    {
        match outer {
            Outer::Putchar => self.push_outside(ops, into, Which::Putchar, args),
            Outer::Getchar => self.push_outside(ops, into, Which::Getchar, args),
            Outer::Exit => self.push_outside(ops, None, Which::Exit, args),
            Outer::Memcpy => self.push_outside(ops, None, Which::Memcpy, args),
            Outer::Memset => self.push_outside(ops, None, Which::Memset, args),
            Outer::TrapNow => self.push_outside(ops, None, Which::Trap, args),
            Outer::Lifetime => self.push_idle(ops),
            Outer::NoOuter => self.push_idle(ops),
        }
    }

    /// Puts a call of a function of the module.
    fn push_inside(
        &self,
        ops: &mut List<SelOp>,
        into: Option<u32>,
        f: u32,
        args: &[Arg],
    ) -> Result<(), NoMemory>
        ensures { OnOk result (ops.new ≡ ops.old ++ behind_args (args_brought
            self.now.context.now self.now.variables.now 0 args.now)
            (λ rs. SelOp.Call f into rs)) }
    {
        let registers = self.arguments(ops, args)?;
        ops.add(SelOp::Call(f, into, registers))
    }

    /// Puts a call of a function by its name.
    fn push_named(
        &self,
        ops: &mut List<SelOp>,
        into: Option<u32>,
        args: &[Arg],
        name: &Name,
    ) -> Result<(), NoMemory>
        ensures { OnOk result (ops.new ≡ ops.old ++ named_ops self.now.context.now
            self.now.variables.now into args.now name.now
            (function_number self.now.context.now name.now)) }
    {
        match self.context.function(name) {
            Some(f) => self.push_inside(ops, into, f, args),
            None => self.push_outer(ops, into, Outer::of(name), args),
        }
    }

    /// Puts a call of a function by a register that has its address.
    fn push_at(
        &self,
        ops: &mut List<SelOp>,
        into: Option<u32>,
        callee: Origin,
        args: &[Arg],
    ) -> Result<(), NoMemory>
        ensures { OnOk result (ops.new ≡ ops.old ++ behind_args (args_brought
            self.now.context.now self.now.variables.now 0 args.now)
            (λ rs. SelOp.CallAt (register_read self.now.variables.now callee) into rs)) }
    {
        let registers = self.arguments(ops, args)?;
        let at = self.variables.register_read(callee)?;
        ops.add(SelOp::CallAt(at, into, registers))
    }

    /// Puts a call.
    pub(crate) fn push_call(
        &self,
        ops: &mut List<SelOp>,
        into: &Option<Name>,
        callee: &Operand,
        args: &[Arg],
    ) -> Result<(), NoMemory>
        ensures { OnOk result (ops.new ≡ ops.old ++ call_ops self.now.context.now
            self.now.variables.now (register_into self.now.variables.now into.now)
            callee.now args.now) }
    {
        let into = self.variables.register_into(into)?;
        match callee {
            Operand::Global(name) => self.push_named(ops, into, args, name),
            Operand::Local(name) => {
                self.push_at(ops, into, local(self.variables.names(), name), args)
            }
            Operand::Int(_) => self.push_at(ops, into, Origin::Malformed, args),
            Operand::Bool(_) => self.push_at(ops, into, Origin::Malformed, args),
            Operand::Null => self.push_at(ops, into, Origin::Malformed, args),
            Operand::Undef => self.push_at(ops, into, Origin::Malformed, args),
            Operand::Poison => self.push_at(ops, into, Origin::Malformed, args),
            Operand::Const(_) => self.push_at(ops, into, Origin::Malformed, args),
        }
    }
}
