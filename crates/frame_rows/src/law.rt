//! How long rows are, and what stands in them.
//!
//! What a row does is told over a family of types, which no contract ranges over: `op_law` in
//! `proofs/Operations` says of every operation but calls that its row meets it.

ghost use Rattle.std.specs.Prelude.{ℕ, ◌<◌, ◌*◌, ◌^◌};
ghost use Rattle.low_core.specs.declared.sel.SelOp.{SelOp};
ghost use Rattle.low_core.specs.Plan.{Plan};
ghost use Rattle.low_core.specs.SelWeights.{sel_op_weight};
ghost use Rattle.frame_rows.specs.declared.spot.Spot.{Spot};
ghost use Rattle.frame_rows.specs.Code.{op_row};
ghost use Rattle.frame_rows.specs.Sizes.{IsNoCall, IsSized, AreInstrs};
ghost use Rattle.frame_rows.specs.Steps.{IsReady};
ghost use Rattle.frame_rows.specs.Ties.{IsHome};

/// A row has at least one instruction and at most nine, and no more bytes than its operation
/// weighs, wherever registers live.
pub fn rows_are_short()
    ensures { (homes : ℕ → Spot) (plan : Plan) (own : ℕ) (op : SelOp) → IsNoCall op →
        IsSized (op_row homes plan own op) 9 (sel_op_weight op) }
{}

/// Constants and displacements of a row are in range, where each word of the frame is near.
pub fn rows_are_instructions()
    ensures { (homes : ℕ → Spot) (plan : Plan) (base words own : ℕ) →
        ((x : ℕ) → IsHome words (homes x)) → 8 * words < 2 ^ 31 → (op : SelOp) →
        IsReady plan base own op → AreInstrs (op_row homes plan own op) }
{}
