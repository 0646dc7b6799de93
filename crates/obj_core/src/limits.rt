//! How large a well-formed object is at most, made known to proofs.
//!
//! The functions do nothing when they run; they are called where sums of lengths are taken, so that
//! these fit their types. The limits themselves are rule 1 of `specs/WellFormed.antt`.

ghost use Rattle.std.specs.Prelude.{◌≤◌, length};
ghost use Rattle.std.specs.List.{sum_by};
ghost use Rattle.obj_core.specs.declared.object.Func.{Func};
ghost use Rattle.obj_core.specs.Pieces.{pieces, piece_len};
ghost use Rattle.obj_core.specs.Placement.{order, row};
ghost use Rattle.obj_core.specs.WellFormed.{IsWellFormed, most_code, most_functions, most_pieces, most_slots};

use crate::object::Object;

/// Makes it known to a proof how large a well-formed object is at most.
pub fn sizes_known(o: &Object)
    requires { ∥ IsWellFormed o.now ∥₁ }
    ensures functions { length o.now.functions ≤ most_functions }
    ensures slots { length o.now.slots ≤ most_slots }
    ensures code { sum_by (λ (f : Func). length f.bytes) o.now.functions ≤ most_code }
{}

/// Makes it known to a proof that the pieces are few and as large, also in their order. Takes no memory.
pub fn row_known(o: &Object, layout_seed: u64)
    requires { ∥ IsWellFormed o.now ∥₁ }
    ensures few { length (pieces o.now) ≤ most_pieces }
    ensures order { length (order o.now layout_seed) ≤ most_pieces }
    ensures pieces { sum_by piece_len (pieces o.now) ≤ most_code }
    ensures row { sum_by piece_len (row o.now layout_seed) ≤ most_code }
{}
