//! What routines do in any object in which they stand, and what those of a plan keep.

ghost use Rattle.std.specs.Prelude.{◌≡◌, ◌+◌, ◌<◌, ◌≤◌, ◌^◌, ℕ, List, length, slice_get, Some};
ghost use Rattle.ir_core.specs.declared.TheConstants.{MAX_CALLS};
ghost use Rattle.low_core.specs.declared.sel.Sel.{Sel};
ghost use Rattle.low_core.specs.SelShaped.{IsSel};
ghost use Rattle.obj_core.specs.declared.object.Func.{Func};
ghost use Rattle.obj_core.specs.declared.object.Link.{Link};
ghost use Rattle.obj_core.specs.declared.object.Object.{Object};
ghost use Rattle.obj_core.specs.declared.object.Slot.{Slot};
ghost use Rattle.obj_core.specs.declared.plan.Placing.{Placing};
ghost use Rattle.obj_core.specs.declared.plan.SlotPlan.{SlotPlan};
ghost use Rattle.obj_core.specs.Object.{Each};
ghost use Rattle.obj_core.specs.WellFormed.{most_data};
ghost use Rattle.obj_rows.specs.Assembled.{IsAssembled, LinkOnce};
ghost use Rattle.obj_rows.specs.Marked.{IsFunction};
ghost use Rattle.obj_rows.specs.Sound.{AreSound};
ghost use Rattle.rt_routines.specs.Code.{putchar_row, getchar_row, exit_row, start_row, memcpy_row, memset_row, routines_of};
ghost use Rattle.obj_rows.specs.Routines.{IsPutchar, IsGetchar, IsExit, IsStart, IsMemcpy, IsMemset, AreRoutines};
ghost use Rattle.slot_plan.specs.Slots.{IsPlan};

/// One byte is printed, and given back.
pub fn prints()
    ensures { (o : Object) (n k : ℕ) → IsFunction o n (putchar_row k) →
        slice_get o.slots k ≡ Some (Slot.System (record { function = n; offset = 36 })) →
        IsPutchar o n }
{}

/// One byte is taken, and given; at the end of the input the answer is that of -1 in 32 bits.
pub fn takes()
    ensures { (o : Object) (n k : ℕ) → IsFunction o n (getchar_row k) →
        slice_get o.slots k ≡ Some (Slot.System (record { function = n; offset = 28 })) →
        IsGetchar o n }
{}

/// The run ends with the low byte of the argument.
pub fn ends()
    ensures { (o : Object) (n k : ℕ) → IsFunction o n (exit_row k) →
        slice_get o.slots k ≡ Some (Slot.System (record { function = n; offset = 10 })) →
        IsExit o n }
{}

/// A run begins: it comes to the first function of the program with two arguments of 0 and all
/// calls left, and ends with what that gives.
pub fn starts()
    ensures { (o : Object) (n main k j : ℕ) → IsFunction o n (start_row k j) →
        slice_get o.slots 0 ≡ Some (Slot.Entry n) →
        slice_get o.slots k ≡ Some (Slot.Call main (record { function = n; offset = 21 })) →
        slice_get o.slots j ≡ Some (Slot.System (record { function = n; offset = 34 })) →
        length o.slots ≤ 1048576 → length o.ro + length o.rw ≤ most_data →
        (input : List ℕ) → IsStart o main MAX_CALLS input }
{}

/// Bytes are copied.
pub fn copies()
    ensures { (o : Object) (n : ℕ) → IsFunction o n memcpy_row → IsMemcpy o n }
{}

/// A byte is put as many times as it should.
pub fn fills()
    ensures { (o : Object) (n : ℕ) → IsFunction o n memset_row → IsMemset o n }
{}

/// A plan of slots of a program has those of the routines, and is one for which they can be made;
/// it has a pointer for each function.
pub fn plans()
    ensures some { (sel : Sel) (slot_draw : ℕ) (plan : SlotPlan) → IsSel sel →
        IsPlan sel slot_draw plan → 6 ≤ length plan.slots }
    ensures few { (sel : Sel) (slot_draw : ℕ) (plan : SlotPlan) → IsSel sel →
        IsPlan sel slot_draw plan → length plan.slots < 2 ^ 20 }
    ensures pointers { (sel : Sel) (slot_draw : ℕ) (plan : SlotPlan) → IsSel sel →
        IsPlan sel slot_draw plan → length plan.pointers ≡ length sel.functions }
{}

/// The routines of a plan are six, which keep the rules of objects by themselves.
pub fn keeps()
    ensures six { (plan : SlotPlan) → length (routines_of plan) ≡ 6 }
    ensures sound { (sel : Sel) (slot_draw : ℕ) (plan : SlotPlan) → IsSel sel →
        IsPlan sel slot_draw plan → AreSound (routines_of plan) plan }
{}

/// They have one link to each planned slot whose site is in one of them, and none to another slot
/// that comes back; the end of a link is in range.
pub fn links()
    ensures once { (sel : Sel) (slot_draw : ℕ) (plan : SlotPlan) → IsSel sel →
        IsPlan sel slot_draw plan → LinkOnce (length plan.pointers) (routines_of plan) plan.slots }
    ensures range { (plan : SlotPlan) →
        Each (λ (f : Func). Each (λ (l : Link). l.at + 4 < 2 ^ 32) f.links) (routines_of plan) }
{}

/// In each object that is put together of as many functions as the program has, the routines, the
/// slots of the plan and no more data than an object may have, they do what they should.
pub fn stands()
    ensures { (sel : Sel) (slot_draw reg_draw : ℕ) (plan : SlotPlan) (placing : Placing)
        (funcs : List Func) (o : Object) → IsSel sel → IsPlan sel slot_draw plan →
        length funcs ≡ length sel.functions →
        IsAssembled funcs (routines_of plan) plan placing slot_draw reg_draw o →
        length o.ro + length o.rw ≤ most_data →
        AreRoutines o (length sel.functions) sel.main MAX_CALLS }
{}
