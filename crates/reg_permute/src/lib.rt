//! The names of the registers that live across calls: which of the five a colour is.
//!
//! A register seed draws them for each function, and the verifier of objects looks that they are the
//! ones drawn. The five, by their places, are rbx, rbp, r12, r13 and r14.
#![tactic(auto)]

ghost use Rattle.std.specs.Prelude.{◌≡◌, ◌∷◌, [], IfOk, length};
ghost use Rattle.obj_core.specs.Saved.{saved_register, name_of, five_of};
ghost use Rattle.obj_core.specs.Slots.{name_purpose};

use rd_draw::perm;
use rd_num::list::List;
use rd_num::width::NoMemory;
use std::alloc::Global;
use x86_core::reg::Reg;

/// What the names of registers are drawn for.
const NAME_PURPOSE: u32 = 3;

/// The register of a place among the five.
fn saved(place: u32) -> Reg
    ensures { result ≡ saved_register place }
{
    match place {
        0 => Reg::Rbx,
        1 => Reg::Rbp,
        2 => Reg::R12,
        3 => Reg::R13,
        _ => Reg::R14,
    }
}

/// The places of the five, as they are drawn for a function.
#[tactic(auto, unfolding(obj_core::specs::Saved::five_of), using(rd_draw::proofs::Permuted::shuffled_long))]
fn drawn(alloc: Global, reg_seed: u64, function: u32) -> Result<List<u32>, NoMemory>
    ensures drawn { IfOk result (λ all. all ≡ five_of reg_seed name_purpose function) }
    ensures five { IfOk result (λ all. length all ≡ 5) }
{
    perm(alloc, reg_seed, NAME_PURPOSE, function, 5)
}

/// The register of each colour in a function, by the function's number.
pub fn names(alloc: Global, reg_seed: u64, function: u32) -> Result<[Reg; 5], NoMemory>
    ensures { IfOk result (λ all. all ≡ name_of reg_seed function 0 ∷
        name_of reg_seed function 1 ∷ name_of reg_seed function 2 ∷
        name_of reg_seed function 3 ∷ name_of reg_seed function 4 ∷ []) }
{
    let order = drawn(alloc, reg_seed, function)?;
    let places = order.as_slice();
    Ok([
        saved(places[0]),
        saved(places[1]),
        saved(places[2]),
        saved(places[3]),
        saved(places[4]),
    ])
}
