//! Laws of data that is placed, which do nothing.

ghost use Rattle.std.specs.Prelude.{◌≡◌, ◌+◌, ◌-◌, ◌≤◌, ℕ, List, All, Some, length, map, slice_get, if◌then◌else◌};
ghost use Rattle.ir_core.specs.declared.limit.TheConstants.{MAX_BYTES};
ghost use Rattle.ir_core.specs.declared.module.Module.{Module};
ghost use Rattle.low_core.specs.declared.sel.Sel.{Sel};
ghost use Rattle.low_core.specs.Contents.{data_bytes};
ghost use Rattle.low_core.specs.Placing.{ArePlaced, part_start};
ghost use Rattle.low_core.specs.Plan.{Plan, Content};
ghost use Rattle.obj_core.specs.declared.address.SlotAddr.{SlotAddr};
ghost use Rattle.data_place.specs.Fits.{IsSlotOfFew, DataFits};
ghost use Rattle.data_place.specs.Placed.{slot_word, first_contents};

/// What a module's globals hold at first is the data under each plan with these addresses.
pub fn contents_are_data()
    ensures { (m : Module) (pointers : List SlotAddr) (plan : Plan) →
        plan.functions ≡ map slot_word pointers →
        first_contents m plan.globals pointers ≡ data_bytes m plan }
{}

/// Each byte of a placed global stands at its address, in the part in which the global lies.
pub fn placed_bytes_stand()
    ensures { (contents : List Content) (globals constants others : List ℕ) (g at i b : ℕ)
        (c : Content) → ArePlaced contents globals constants others →
        slice_get globals g ≡ Some at → slice_get contents g ≡ Some c →
        slice_get c.bytes i ≡ Some b →
        slice_get (if c.constant then constants else others) (at + i - part_start c.constant)
        ≡ Some b }
{}

/// Globals that are placed within the limit of data fit a plan whose functions have addresses of
/// slots: all of them are at addresses of their own, off the stack, and not at 0.
pub fn placed_data_fits()
    ensures { (sel : Sel) (contents : List Content) (plan : Plan) (pointers : List SlotAddr)
        (constants others : List ℕ) → ArePlaced contents plan.globals constants others →
        length constants + length others ≤ MAX_BYTES → plan.functions ≡ map slot_word pointers →
        All IsSlotOfFew pointers → DataFits sel contents plan }
{}
