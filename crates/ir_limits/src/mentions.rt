//! The types that a module's text mentions, in its order: the first that is past a limit.
//!
//! Named types come first, then globals, declarations and functions. Types stand in instructions and
//! in constant places, and in front of parameters, arguments, elements and cases.

ghost use Rattle.std.specs.Prelude.{◌≡◌, ◌∷◌, ◌++◌, [], List as Row};
ghost use Rattle.std.specs.List.{flat_map};
ghost use Rattle.ir_core.specs.Mentions.{Mention, OfType, OfLabel, of_operand, of_typed, of_callee, of_op, of_end, of_block, of_function, of_init, of_global, of_extern, mentions, outside_functions};
ghost use Rattle.ir_core.specs.declared.init.Elem.{Elem as OneElem};
ghost use Rattle.ir_limits.specs.Past.{past_in};

use crate::gauge::{Gauge, past_ty};
use ir_core::init::{Elem, Init};
use ir_core::instruction::{Arg, Case, Entry, Inst, Op, Term};
use ir_core::module::{Block, Extern, Function, GlobalVar, Module, Param};
use ir_core::operand::{Index0, Operand};
use ir_core::ty::{NamedTy, Ty};

/// What mentions types.
trait Mentions {
    ghost mentioned: { Self → Row Mention };

    /// The first of its types that is past the limit of a measure.
    fn past_types(&self, gauge: &Gauge) -> Option<u64>
        ensures { result ≡ past_in gauge.now (mentioned self.now) };
}

/// The first of the types of all items that is past the limit.
#[tactic(auto, using(crate::proofs::PastLaws::mention_laws))]
fn past_all<T: Mentions>(gauge: &Gauge, items: &[T]) -> Option<u64>
    ensures { result ≡ past_in gauge.now (flat_map T.mentioned items.now) }
{
    for item in items {
        match item.past_types(gauge) {
            Some(count) => return Some(count),
            None => {}
        }
    }
    None
}

impl Mentions for Ty {
    ghost mentioned = { λ t. OfType t ∷ [] };

    #[tactic(auto, using(crate::proofs::PastLaws::mention_laws))]
    fn past_types(&self, gauge: &Gauge) -> Option<u64> {
        past_ty(gauge, self)
    }
}

impl Mentions for Index0 {
    ghost mentioned = { λ i. OfType i.ty ∷ [] };

    fn past_types(&self, gauge: &Gauge) -> Option<u64> {
        self.ty.past_types(gauge)
    }
}

impl Mentions for Param {
    ghost mentioned = { λ p. OfType p.ty ∷ [] };

    fn past_types(&self, gauge: &Gauge) -> Option<u64> {
        self.ty.past_types(gauge)
    }
}

impl Mentions for NamedTy {
    ghost mentioned = { λ t. OfType t.fields ∷ [] };

    fn past_types(&self, gauge: &Gauge) -> Option<u64> {
        self.fields.past_types(gauge)
    }
}

impl Mentions for Operand {
    ghost mentioned = { of_operand };

    #[tactic(auto, using(crate::proofs::PastLaws::mention_laws))]
    fn past_types(&self, gauge: &Gauge) -> Option<u64> {
        match self {
            Operand::Const(place) => {
                past_ty(gauge, &place.source).or(past_all(gauge, place.indices.as_slice()))
            }
            Operand::Int(_)
            | Operand::Bool(_)
            | Operand::Null
            | Operand::Undef
            | Operand::Poison
            | Operand::Local(_)
            | Operand::Global(_) => None,
        }
    }
}

/// The first of a type and those of an operand behind it.
#[tactic(auto, using(crate::proofs::PastLaws::mention_laws))]
fn past_typed(gauge: &Gauge, ty: &Ty, a: &Operand) -> Option<u64>
    ensures { result ≡ past_in gauge.now (of_typed ty.now a.now) }
{
    past_ty(gauge, ty).or(a.past_types(gauge))
}

impl Mentions for Arg {
    ghost mentioned = { λ a. of_typed a.ty a.value };

    fn past_types(&self, gauge: &Gauge) -> Option<u64> {
        past_typed(gauge, &self.ty, &self.value)
    }
}

impl Mentions for Entry {
    ghost mentioned = { λ e. of_operand e.value ++ OfLabel e.from ∷ [] };

    #[tactic(auto, using(crate::proofs::PastLaws::mention_laws))]
    fn past_types(&self, gauge: &Gauge) -> Option<u64> {
        self.value.past_types(gauge)
    }
}

impl Mentions for Case {
    ghost mentioned = { λ c. of_typed c.ty c.value ++ OfLabel c.to ∷ [] };

    #[tactic(auto, using(crate::proofs::PastLaws::mention_laws))]
    fn past_types(&self, gauge: &Gauge) -> Option<u64> {
        past_typed(gauge, &self.ty, &self.value)
    }
}

impl Mentions for Op {
    ghost mentioned = { of_op };

    #[tactic(auto, using(crate::proofs::PastLaws::mention_laws))]
    fn past_types(&self, gauge: &Gauge) -> Option<u64> {
        match self {
            Op::Bin(_, ty, a, b) => past_two(gauge, ty, a, b),
            Op::Compare(_, ty, a, b) => past_two(gauge, ty, a, b),
            Op::Cast(_, from, a, to) => { past_typed(gauge, from, a).or(to.past_types(gauge)) }
            Op::Select(condition, ty, a, ty2, b) => {
                condition
                    .past_types(gauge)
                    .or(past_typed(gauge, ty, a))
                    .or(past_typed(gauge, ty2, b))
            }
            Op::Freeze(ty, a) => past_typed(gauge, ty, a),
            Op::Alloca(ty, _) => ty.past_types(gauge),
            Op::Load(ty, p) => past_typed(gauge, ty, p),
            Op::Store(ty, a, p) => past_two(gauge, ty, a, p),
            Op::Gep(source, p, indices) => {
                past_typed(gauge, source, p).or(past_all(gauge, indices.as_slice()))
            }
            Op::Phi(ty, entries) => { past_ty(gauge, ty).or(past_all(gauge, entries.as_slice())) }
            Op::Call(ret, callee, args) => {
                past_typed(gauge, ret, callee).or(past_all(gauge, args.as_slice()))
            }
        }
    }
}

/// The first of a type and those of two operands behind it.
#[tactic(auto, using(crate::proofs::PastLaws::mention_laws))]
fn past_two(gauge: &Gauge, ty: &Ty, a: &Operand, b: &Operand) -> Option<u64>
    ensures { result ≡ past_in gauge.now (of_typed ty.now a.now ++ of_operand b.now) }
{
    past_typed(gauge, ty, a).or(b.past_types(gauge))
}

impl Mentions for Inst {
    ghost mentioned = { λ i. of_op i.op };

    fn past_types(&self, gauge: &Gauge) -> Option<u64> {
        self.op.past_types(gauge)
    }
}

impl Mentions for Term {
    ghost mentioned = { of_end };

    #[tactic(auto, using(crate::proofs::PastLaws::mention_laws))]
    fn past_types(&self, gauge: &Gauge) -> Option<u64> {
        match self {
            Term::Ret | Term::Br(_) | Term::Unreachable => None,
            Term::RetValue(ty, a) => past_typed(gauge, ty, a),
            Term::BrIf(condition, _, _) => condition.past_types(gauge),
            Term::Switch(ty, a, _, cases) => {
                past_typed(gauge, ty, a).or(past_all(gauge, cases.as_slice()))
            }
        }
    }
}

impl Mentions for Block {
    ghost mentioned = { of_block };

    #[tactic(auto, using(crate::proofs::PastLaws::mention_laws))]
    fn past_types(&self, gauge: &Gauge) -> Option<u64> {
        past_all(gauge, self.insts.as_slice()).or(self.end.past_types(gauge))
    }
}

impl Mentions for Function {
    ghost mentioned = { of_function };

    #[tactic(auto, using(crate::proofs::PastLaws::mention_laws))]
    fn past_types(&self, gauge: &Gauge) -> Option<u64> {
        past_ty(gauge, &self.ret)
            .or(past_all(gauge, self.params.as_slice()))
            .or(past_all(gauge, self.blocks.as_slice()))
    }
}

impl Mentions for Extern {
    ghost mentioned = { of_extern };

    #[tactic(auto, using(crate::proofs::PastLaws::mention_laws))]
    fn past_types(&self, gauge: &Gauge) -> Option<u64> {
        past_ty(gauge, &self.ret).or(past_all(gauge, self.params.as_slice()))
    }
}

/// The first of the types of an initialiser.
#[cycle(init)]
#[tactic(auto, using(crate::proofs::PastLaws::init_laws))]
fn past_init(gauge: &Gauge, init: &Init) -> Option<u64>
    ensures { result ≡ past_in gauge.now (of_init init.now) }
{
    match init {
        Init::Value(v) => v.past_types(gauge),
        Init::Zero | Init::Text(_) => None,
        Init::Array(es) => past_elems(gauge, es.as_slice()),
        Init::Struct(es) => past_elems(gauge, es.as_slice()),
        Init::Packed(es) => past_elems(gauge, es.as_slice()),
    }
}

#[cycle(init)]
#[tactic(auto, using(crate::proofs::PastLaws::init_laws))]
fn past_elems(gauge: &Gauge, es: &[Elem]) -> Option<u64>
    ensures { result ≡ past_in gauge.now
        (flat_map (λ (e : OneElem). OfType e.ty ∷ of_init e.init) es.now) }
{
    for e in es {
        match past_elem(gauge, e) {
            Some(count) => return Some(count),
            None => {}
        }
    }
    None
}

/// The first of the types of an element.
#[cycle(init)]
#[tactic(auto, using(crate::proofs::PastLaws::init_laws))]
fn past_elem(gauge: &Gauge, e: &Elem) -> Option<u64>
    ensures { result ≡ past_in gauge.now (OfType e.now.ty ∷ of_init e.now.init) }
{
    past_ty(gauge, &e.ty).or(past_init(gauge, &e.init))
}

impl Mentions for GlobalVar {
    ghost mentioned = { of_global };

    #[tactic(auto, using(crate::proofs::PastLaws::mention_laws))]
    fn past_types(&self, gauge: &Gauge) -> Option<u64> {
        past_ty(gauge, &self.ty).or(past_init(gauge, &self.init))
    }
}

/// The first of all types that a module mentions that is past the limit of a measure.
#[tactic(auto, using(crate::proofs::PastLaws::mention_laws))]
pub fn past_module(gauge: &Gauge, whole: &Module) -> Option<u64>
    ensures { result ≡ past_in gauge.now (mentions whole.now) }
{
    past_all(gauge, whole.types.as_slice())
        .or(past_all(gauge, whole.globals.as_slice()))
        .or(past_all(gauge, whole.externs.as_slice()))
        .or(past_all(gauge, whole.functions.as_slice()))
}
