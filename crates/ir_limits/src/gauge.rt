//! What is measured of types, and the first type past the limit of a measure.
//!
//! The types inside of a type are measured as well, each behind the one in which it stands.

ghost use Rattle.std.specs.Prelude.{◌≡◌, ◌∷◌, []};
ghost use Rattle.std.specs.List.{flat_map};
ghost use Rattle.ir_core.specs.Mentions.{parts_of};
ghost use Rattle.ir_limits.specs.Past.{first_past, measured_by, most_by, past_types};

use ir_core::limit::{MAX_NESTING, MAX_SIZE};
use ir_core::size::Sizes;
use ir_core::ty::Ty;

/// What is measured of a type: how deep arrays and structs nest in it, or its bytes.
#[derive(Clone, Copy)]
pub enum Measure {
    Depth,
    Bytes,
}

impl Measure {
    /// The most that a type may have of it. Takes no memory.
    fn most(self) -> u32
        ensures { result ≡ most_by self }
    {
        match self {
            Measure::Depth => MAX_NESTING,
            Measure::Bytes => MAX_SIZE,
        }
    }
}

/// A measure over the sizes of a module's types.
#[derive(Clone, Copy)]
pub struct Gauge<'s, 'm> {
    pub sizes: &'s Sizes<'m>,
    pub measure: Measure,
}

/// A count that is past a limit. Takes no memory.
#[tactic(auto, using(crate::proofs::PastLaws::limit_laws))]
pub fn past(count: u64, most: u32) -> Option<u64>
    ensures { result ≡ first_past most (count ∷ []) }
{
    if u64::from(most) < count {
        Some(count)
    } else {
        None
    }
}

/// What is measured of a type. Takes no memory.
fn measured(gauge: &Gauge, ty: &Ty) -> u64
    ensures { result ≡ measured_by gauge.now.measure gauge.now.sizes.now ty.now }
{
    match gauge.measure {
        Measure::Depth => u64::from(gauge.sizes.depth(ty)),
        Measure::Bytes => gauge.sizes.size(ty),
    }
}

/// The first of a type and the types inside of it that is past the limit of a measure.
#[cycle(ty)]
#[tactic(auto, using(crate::proofs::PastLaws::part_laws))]
pub fn past_ty(gauge: &Gauge, ty: &Ty) -> Option<u64>
    ensures { result ≡ past_types gauge.now (parts_of ty.now) }
{
    let own = past(measured(gauge, ty), gauge.measure.most());
    match ty {
        Ty::Void | Ty::Int(_) | Ty::Ptr | Ty::Named(_) => own,
        Ty::Array(_, of) => own.or(past_ty(gauge, of.get())),
        Ty::Struct(fields) => own.or(past_tys(gauge, fields.as_slice())),
        Ty::Packed(fields) => own.or(past_tys(gauge, fields.as_slice())),
    }
}

#[cycle(ty)]
#[tactic(auto, using(crate::proofs::PastLaws::part_laws))]
fn past_tys(gauge: &Gauge, types: &[Ty]) -> Option<u64>
    ensures { result ≡ past_types gauge.now (flat_map parts_of types.now) }
{
    for ty in types {
        match past_ty(gauge, ty) {
            Some(count) => return Some(count),
            None => {}
        }
    }
    None
}
