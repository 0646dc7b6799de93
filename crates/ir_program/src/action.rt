//! What instructions do, with kinds in place of types and numbers in place of names.

ghost use Rattle.std.specs.Prelude.{◌≡◌, ◌*◌, map, IfOk};
ghost use Rattle.rd_num.specs.declared.width.Width.TheVariants.{W1 as OneBit};
ghost use Rattle.ir_core.specs.Counts.{told};
ghost use Rattle.ir_core.specs.Operands.{function_number};
ghost use Rattle.ir_core.specs.declared.kind.Kind.TheVariants.{Number as NumberKind, Pointer as PointerKind};
ghost use Rattle.ir_core.specs.Kinds.{kind_of};
ghost use Rattle.ir_context.specs.Extents.{extent_of};
ghost use Rattle.ir_context.specs.Paths.{path_of};
ghost use Rattle.ir_context.specs.Origins.{origin_of, arg_origin};
ghost use Rattle.ir_program.specs.Actions.{into_of, argument_of, callee_named, callee_of, move_by, action_of, task_of};

use ir_context::context::Context;
use ir_context::origin::{Origin, local};
use ir_context::path::Path;
use ir_core::instruction::{Arg, BinOp, CastOp, Inst, Op, Pred};
use ir_core::kind::Kind;
use ir_core::memory::Value;
use ir_core::names::NameSet;
use ir_core::operand::Operand;
use ir_core::outer::Outer;
use ir_core::ty::{Name, Ty};
use rd_num::list::List;
use rd_num::width::{NoMemory, Width};
use std::alloc::Global;

/// An argument of a call.
#[derive(Clone, Copy)]
pub struct Argument {
    pub kind: Kind,
    pub origin: Origin,
}

/// What is called: a function outside of the module, or what a value says.
#[derive(Clone, Copy)]
pub enum Callee {
    Outside(Outer),
    Inside(Origin),
}

/// What an instruction does. What has no step, as a phi, is malformed.
#[derive(Drop)]
pub enum Action {
    Binary(BinOp, Kind, Origin, Origin),
    Compare(Pred, Kind, Origin, Origin),
    Cast(CastOp, Kind, Kind, Origin),
    Select(Origin, Origin, Origin),
    Freeze(Origin),
    Alloca(u64),
    Load(Kind, Origin),
    Store(Origin, Origin),
    Move(Origin, Path),
    Call(Kind, Callee, List<Argument>),
    Malformed,
}

/// An instruction: what it does, and the register that its result is given to.
#[derive(Drop)]
pub struct Task {
    pub into: Option<usize>,
    pub action: Action,
}

/// The register of a result, where there is one.
pub(crate) fn into(names: &NameSet, given: &Option<Name>) -> Option<usize>
    ensures { result ≡ into_of names.now given.now }
{
    match given {
        Some(name) => names.number(name),
        None => None,
    }
}

/// A pointer that moves, where its indices lead to a part.
fn moved_by(base: Origin, path: Option<Path>) -> Action
    ensures { result ≡ move_by base path }
{
    match path {
        Some(p) => Action::Move(base, p),
        None => Action::Malformed,
    }
}

/// The names of a function within those of its module.
#[derive(Drop)]
pub(crate) struct Resolver<'c, 'a> {
    pub(crate) alloc: Global,
    pub(crate) context: &'c Context<'a>,
    pub(crate) names: &'c NameSet<'a>,
}

impl<'c, 'a> Resolver<'c, 'a> {
    /// An operand of a kind.
    pub(crate) fn origin(&self, kind: Kind, a: &Operand) -> Result<Origin, NoMemory>
        ensures { IfOk result (λ o. o ≡
            origin_of self.now.context.now self.now.names.now kind a.now) }
    {
        self.context.origin(self.alloc, self.names, kind, a)
    }

    /// An argument or an index by itself.
    fn arg(&self, a: &Arg) -> Result<Origin, NoMemory>
        ensures { IfOk result (λ o. o ≡
            arg_origin self.now.context.now self.now.names.now a.now) }
    {
        self.origin(Kind::of(&a.ty), &a.value)
    }

    /// Indices.
    fn indices(&self, args: &[Arg]) -> Result<List<Origin>, NoMemory>
        ensures { IfOk result (λ l. l ≡
            map (arg_origin self.now.context.now self.now.names.now) args.now) }
    {
        let mut origins = List::new(self.alloc);
        for a in args {
            origins.add(self.arg(a)?)?;
        }
        Ok(origins)
    }

    /// An argument of a call.
    fn argument(&self, a: &Arg) -> Result<Argument, NoMemory>
        ensures { IfOk result (λ x. x ≡
            argument_of self.now.context.now self.now.names.now a.now) }
    {
        let origin = self.arg(a)?;
        Ok(Argument {
            kind: Kind::of(&a.ty),
            origin,
        })
    }

    /// The arguments of a call.
    fn arguments(&self, args: &[Arg]) -> Result<List<Argument>, NoMemory>
        ensures { IfOk result (λ l. l ≡
            map (argument_of self.now.context.now self.now.names.now) args.now) }
    {
        let mut all = List::new(self.alloc);
        for a in args {
            all.add(self.argument(a)?)?;
        }
        Ok(all)
    }

    /// A function of the module or one outside of it. Takes no memory.
    fn named_callee(&self, name: &Name) -> Callee
        ensures { result ≡ callee_named name.now
            (function_number self.now.context.now name.now) }
    {
        match self.context.function(name) {
            Some(f) => Callee::Inside(Origin::Known(Value::Fun(f))),
            None => Callee::Outside(Outer::of(name)),
        }
    }

    /// What is called. Takes no memory.
    fn callee(&self, a: &Operand) -> Callee
        ensures { result ≡ callee_of self.now.context.now self.now.names.now a.now }
    {
        match a {
            Operand::Local(name) => Callee::Inside(local(self.names, name)),
            Operand::Global(name) => self.named_callee(name),
            Operand::Int(_) => Callee::Inside(Origin::Malformed),
            Operand::Bool(_) => Callee::Inside(Origin::Malformed),
            Operand::Null => Callee::Inside(Origin::Malformed),
            Operand::Undef => Callee::Inside(Origin::Malformed),
            Operand::Poison => Callee::Inside(Origin::Malformed),
            Operand::Const(_) => Callee::Inside(Origin::Malformed),
        }
    }

    /// The arithmetic of two operands.
    fn binary(&self, op: BinOp, ty: &Ty, a: &Operand, b: &Operand) -> Result<Action, NoMemory>
        ensures { IfOk result (λ r. r ≡ Action.Binary op (kind_of ty.now)
            (origin_of self.now.context.now self.now.names.now (kind_of ty.now) a.now)
            (origin_of self.now.context.now self.now.names.now (kind_of ty.now) b.now)) }
    {
        let kind = Kind::of(ty);
        let x = self.origin(kind, a)?;
        let y = self.origin(kind, b)?;
        Ok(Action::Binary(op, kind, x, y))
    }

    /// A comparison of two operands.
    fn compare(&self, pred: Pred, ty: &Ty, a: &Operand, b: &Operand) -> Result<Action, NoMemory>
        ensures { IfOk result (λ r. r ≡ Action.Compare pred (kind_of ty.now)
            (origin_of self.now.context.now self.now.names.now (kind_of ty.now) a.now)
            (origin_of self.now.context.now self.now.names.now (kind_of ty.now) b.now)) }
    {
        let kind = Kind::of(ty);
        let x = self.origin(kind, a)?;
        let y = self.origin(kind, b)?;
        Ok(Action::Compare(pred, kind, x, y))
    }

    /// An operand as one of another width.
    fn cast(&self, op: CastOp, from: &Ty, a: &Operand, to: &Ty) -> Result<Action, NoMemory>
        ensures { IfOk result (λ r. r ≡ Action.Cast op (kind_of from.now) (kind_of to.now)
            (origin_of self.now.context.now self.now.names.now (kind_of from.now) a.now)) }
    {
        let kind = Kind::of(from);
        let x = self.origin(kind, a)?;
        Ok(Action::Cast(op, kind, Kind::of(to), x))
    }

    /// One of two operands of their kinds.
    fn select(
        &self,
        condition: &Operand,
        taken: Kind,
        a: &Operand,
        other: Kind,
        b: &Operand,
    ) -> Result<Action, NoMemory>
        ensures { IfOk result (λ r. r ≡ Action.Select
            (origin_of self.now.context.now self.now.names.now (NumberKind OneBit) condition.now)
            (origin_of self.now.context.now self.now.names.now taken a.now)
            (origin_of self.now.context.now self.now.names.now other b.now)) }
    {
        let c = self.origin(Kind::Number(Width::W1), condition)?;
        let x = self.origin(taken, a)?;
        let y = self.origin(other, b)?;
        Ok(Action::Select(c, x, y))
    }

    /// An operand that is kept as it is.
    fn freeze(&self, ty: &Ty, a: &Operand) -> Result<Action, NoMemory>
        ensures { IfOk result (λ r. r ≡ Action.Freeze
            (origin_of self.now.context.now self.now.names.now (kind_of ty.now) a.now)) }
    {
        let x = self.origin(Kind::of(ty), a)?;
        Ok(Action::Freeze(x))
    }

    /// So many elements of a type. Takes no memory.
    fn alloca(&self, ty: &Ty, count: u32) -> Action
        ensures { result ≡ Action.Alloca
            (told (count * (extent_of self.now.context.now.types ty.now).size)) }
    {
        let extent = self.context.extent(ty);
        Action::Alloca(u64::from(count).saturating_mul(extent.size))
    }

    /// The value at a pointer.
    fn load(&self, ty: &Ty, p: &Operand) -> Result<Action, NoMemory>
        ensures { IfOk result (λ r. r ≡ Action.Load (kind_of ty.now)
            (origin_of self.now.context.now self.now.names.now PointerKind p.now)) }
    {
        let x = self.origin(Kind::Pointer, p)?;
        Ok(Action::Load(Kind::of(ty), x))
    }

    /// A value that is put at a pointer.
    fn store(&self, ty: &Ty, a: &Operand, p: &Operand) -> Result<Action, NoMemory>
        ensures { IfOk result (λ r. r ≡ Action.Store
            (origin_of self.now.context.now self.now.names.now (kind_of ty.now) a.now)
            (origin_of self.now.context.now self.now.names.now PointerKind p.now)) }
    {
        let x = self.origin(Kind::of(ty), a)?;
        let y = self.origin(Kind::Pointer, p)?;
        Ok(Action::Store(x, y))
    }

    /// A pointer that moves.
    fn moved(&self, ty: &Ty, p: &Operand, indices: &[Arg]) -> Result<Action, NoMemory>
        ensures { IfOk result (λ r. r ≡ move_by
            (origin_of self.now.context.now self.now.names.now PointerKind p.now)
            (path_of self.now.context.now.types ty.now
            (map (arg_origin self.now.context.now self.now.names.now) indices.now))) }
    {
        let base = self.origin(Kind::Pointer, p)?;
        let indices = self.indices(indices)?;
        let path = self.context.path(self.alloc, ty, indices.as_slice())?;
        Ok(moved_by(base, path))
    }

    /// A call.
    fn call(&self, ret: &Ty, callee: &Operand, args: &[Arg]) -> Result<Action, NoMemory>
        ensures { IfOk result (λ r. r ≡ Action.Call (kind_of ret.now)
            (callee_of self.now.context.now self.now.names.now callee.now)
            (map (argument_of self.now.context.now self.now.names.now) args.now)) }
    {
        let arguments = self.arguments(args)?;
        Ok(Action::Call(Kind::of(ret), self.callee(callee), arguments))
    }

    /// What an instruction does.
    fn action(&self, op: &Op) -> Result<Action, NoMemory>
        ensures { IfOk result (λ r. r ≡
            action_of self.now.context.now self.now.names.now op.now) }
    {
        match op {
            Op::Bin(op, ty, a, b) => self.binary(*op, ty, a, b),
            Op::Compare(pred, ty, a, b) => self.compare(*pred, ty, a, b),
            Op::Cast(op, from, a, to) => self.cast(*op, from, a, to),
            Op::Select(condition, ty, a, ty2, b) => {
                self.select(condition, Kind::of(ty), a, Kind::of(ty2), b)
            }
            Op::Freeze(ty, a) => self.freeze(ty, a),
            Op::Alloca(ty, count) => Ok(self.alloca(ty, *count)),
            Op::Load(ty, p) => self.load(ty, p),
            Op::Store(ty, a, p) => self.store(ty, a, p),
            Op::Gep(ty, p, indices) => self.moved(ty, p, indices.as_slice()),
            Op::Phi(_, _) => Ok(Action::Malformed),
            Op::Call(ret, callee, args) => self.call(ret, callee, args.as_slice()),
        }
    }

    /// An instruction.
    fn task(&self, i: &Inst) -> Result<Task, NoMemory>
        ensures { IfOk result (λ t. t ≡
            task_of self.now.context.now self.now.names.now i.now) }
    {
        let action = self.action(&i.op)?;
        Ok(Task {
            into: into(self.names, &i.result),
            action,
        })
    }

    /// Instructions.
    pub(crate) fn tasks(&self, insts: &[Inst]) -> Result<List<Task>, NoMemory>
        ensures { IfOk result (λ l. l ≡
            map (task_of self.now.context.now self.now.names.now) insts.now) }
    {
        let mut all = List::new(self.alloc);
        for i in insts {
            all.add(self.task(i)?)?;
        }
        Ok(all)
    }
}
