//! Words that are brought into registers.
//!
//! A variable is read where it is; what is known before the run is brought into a register behind the
//! variables. Operations are put at the end of those of a block.

ghost use Rattle.std.specs.Prelude.{◌≡◌, ◌++◌, IfOk, OnOk};
ghost use Rattle.ir_core.specs.Valid.{named_locals};
ghost use Rattle.ir_context.specs.Origins.{origin_of, arg_origin};
ghost use Rattle.isel_rows.specs.Brought.{place_ops, value_ops, brought, operand_brought, args_brought};
ghost use Rattle.isel_rows.specs.Kept.{argument_brought};

use crate::selector::Selector;
use crate::variables::{farther, small};
use ir_context::origin::Origin;
use ir_core::instruction::Arg;
use ir_core::kind::Kind;
use ir_core::memory::Value;
use ir_core::operand::Operand;
use low_core::sel::{SelAlu, SelOp};
use rd_num::list::List;
use rd_num::width::{NoMemory, Width};

impl<'c, 'a> Selector<'c, 'a> {
    /// Puts the address of a global, so many bytes on, into a register.
    fn push_place(
        &self,
        ops: &mut List<SelOp>,
        r: u32,
        global: u32,
        by: u64,
    ) -> Result<(), NoMemory>
        ensures { OnOk result (ops.new ≡ ops.old ++
            place_ops self.now.variables.now r global by) }
    {
        ops.add(SelOp::GlobalAt(r, global))?;
        if by == 0 {
            return Ok(());
        }
        let bytes = self.variables.bytes_register()?;
        ops.add(SelOp::Set(bytes, by))?;
        ops.add(SelOp::Alu(SelAlu::Add, Width::W64, r, r, bytes))
    }

    /// Puts the word of a value into a register.
    fn push_value(&self, ops: &mut List<SelOp>, r: u32, v: Value) -> Result<(), NoMemory>
        ensures { OnOk result (ops.new ≡ ops.old ++ value_ops self.now.variables.now r v) }
    {
        match v {
            Value::Num(_, n) => ops.add(SelOp::Set(r, n)),
            Value::Null => ops.add(SelOp::Set(r, 0)),
            Value::At(global, by) => self.push_place(ops, r, small(global as usize)?, by),
            Value::Fun(f) => ops.add(SelOp::FunctionAt(r, f)),
        }
    }

    /// Brings the word of an origin, into this register where it is known, and answers where it is.
    pub(crate) fn bring(&self, ops: &mut List<SelOp>, r: u32, o: Origin) -> Result<u32, NoMemory>
        ensures ops { IfOk result (λ _. ops.new ≡ ops.old ++
            (brought self.now.variables.now r o).ops) }
        ensures register { IfOk result (λ s. s ≡
            (brought self.now.variables.now r o).register) }
    {
        match o {
            Origin::Known(v) => {
                self.push_value(ops, r, v)?;
                Ok(r)
            }
            Origin::Register(_) => self.variables.register_read(o),
            Origin::Unset => self.variables.register_read(o),
            Origin::Malformed => self.variables.register_read(o),
        }
    }

    /// An operand of a kind.
    pub(crate) fn origin(&self, kind: Kind, a: &Operand) -> Result<Origin, NoMemory>
        ensures { IfOk result (λ o. o ≡ origin_of self.now.context.now
            (named_locals self.now.variables.now) kind a.now) }
    {
        self.context
            .origin(self.alloc, self.variables.names(), kind, a)
    }

    /// An argument or an index by itself.
    pub(crate) fn arg(&self, a: &Arg) -> Result<Origin, NoMemory>
        ensures { IfOk result (λ o. o ≡ arg_origin self.now.context.now
            (named_locals self.now.variables.now) a.now) }
    {
        self.origin(Kind::of(&a.ty), &a.value)
    }

    /// Brings an operand of a kind, the k-th of its instruction, and answers where it is.
    pub(crate) fn operand(
        &self,
        ops: &mut List<SelOp>,
        k: u32,
        kind: Kind,
        a: &Operand,
    ) -> Result<u32, NoMemory>
        ensures ops { IfOk result (λ _. ops.new ≡ ops.old ++
            (operand_brought self.now.context.now self.now.variables.now k kind a.now).ops) }
        ensures register { IfOk result (λ s. s ≡
            (operand_brought self.now.context.now self.now.variables.now k kind a.now).register) }
    {
        let own = self.variables.operand_register(k)?;
        let o = self.origin(kind, a)?;
        self.bring(ops, own, o)
    }

    /// Brings an argument of a call, by its number, and answers where it is.
    fn argument(&self, ops: &mut List<SelOp>, k: u32, a: &Arg) -> Result<u32, NoMemory>
        ensures ops { IfOk result (λ _. ops.new ≡ ops.old ++
            (argument_brought self.now.context.now self.now.variables.now k a.now).ops) }
        ensures register { IfOk result (λ s. s ≡
            (argument_brought self.now.context.now self.now.variables.now k a.now).register) }
    {
        let own = self.variables.argument_register(k)?;
        let o = self.arg(a)?;
        self.bring(ops, own, o)
    }

    /// Brings arguments, and answers where they are.
    pub(crate) fn arguments(
        &self,
        ops: &mut List<SelOp>,
        args: &[Arg],
    ) -> Result<List<u32>, NoMemory>
        ensures ops { IfOk result (λ _. ops.new ≡ ops.old ++
            (args_brought self.now.context.now self.now.variables.now 0 args.now).ops) }
        ensures registers { IfOk result (λ l. l ≡
            (args_brought self.now.context.now self.now.variables.now 0 args.now).registers) }
    {
        let mut registers = List::new(self.alloc);
        let mut k = 0;
        for a in args {
            let r = self.argument(ops, k, a)?;
            registers.add(r)?;
            k = farther(k, 1)?;
        }
        Ok(registers)
    }
}
