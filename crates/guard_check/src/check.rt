//! The checker: takes exactly the guarded objects, and hands any other one back with the first rule
//! that fails.

ghost use Rattle.std.specs.Prelude.{◌≡◌, ◌≤◌, ◌+◌, ℕ, true, ◌||◌, nat_eq, length, List as Row, Some};
ghost use Rattle.std.specs.Prelude.{IfOk, IfErr};
ghost use Rattle.std.specs.List.{list_all};
ghost use Rattle.x86_core.specs.declared.instr.Instr.{Instr as Instruction};
ghost use Rattle.x86_core.specs.Arithmetic.{moved};
ghost use Rattle.obj_core.specs.Disassembly.{found, size_of, disassembly_of};
ghost use Rattle.obj_core.specs.WellFormed.{AreFew, in_functions, in_slots, is_linked, is_start};
ghost use Rattle.obj_core.specs.WellFormed.{goes_well, displacement};
ghost use Rattle.guard_check.specs.Guard.{follows_guard};
ghost use Rattle.guard_check.specs.Form.{is_refused, guarded_places, breaks_in, guard_violation};
ghost use Rattle.guard_check.specs.Form.{is_good_back, is_good_way, HasGuardForm, IsFirstUnguarded};
ghost use Rattle.guard_check.specs.Checking.{IsKnown, AreKnown, Judges};
ghost use Rattle.guard_check.specs.Checking.{disassemblies_of, rule_number, fails_at, failing, first_of};
ghost use Rattle.guard_check.specs.Checking.{comes_well, as_violation, violation_of};

use crate::fault::{GuardFault, GuardSpot};
use crate::guard::{GUARD_LENGTH, next_count};
use crate::guarded::Guarded;
use crate::inside::{is_guarded, is_inside, is_linked, leads_indirect};
use crate::instr_at::{InstrAt, instr_at};
use obj_core::checked::Checked;
use obj_core::object::{CodeAt, Func, Object, Slot};
use x86_core::instr::Instr;

/// A rule that speaks of functions one by one.
#[derive(Clone, Copy)]
pub enum CodeRule {
    /// No return, and no branch under a condition to the slot of a call by r11.
    Refused,
    /// Before each guarded place stands the guard.
    Unguarded,
    /// No branch without a link leads into a guard, but those of that guard.
    Breaking,
}

fn number(rule: CodeRule) -> u8
    ensures { result ≡ rule_number rule }
{
    match rule {
        CodeRule::Refused => 1,
        CodeRule::Unguarded => 2,
        CodeRule::Breaking => 3,
    }
}

/// Takes exactly the guarded objects, and hands any other one back unchanged with the first rule
/// that fails, where it fails first. Takes time linear in the object, and no memory.
pub fn check(o: Checked) -> Result<Guarded, (Checked, GuardFault)>
    ensures taken { IfOk result (λ g. g.checked ≡ o) }
    ensures guarded { IfOk result (λ g. HasGuardForm o.object) }
    ensures back { IfErr result (λ r. r.0 ≡ o) }
    ensures first { IfErr result (λ r. IsFirstUnguarded o.object (violation_of r.1)) }
{
    match first_of_checked(&o) {
        None => Ok(Guarded::new(o)),
        Some(fault) => Err((o, fault)),
    }
}

/// The first rule that fails.
fn first_of_checked(o: &Checked) -> Option<GuardFault>
    ensures { Judges o.now.object result }
{
    first_fault(o.object())
}

/// The first rule that fails, where it fails first.
fn first_fault(o: &Object) -> Option<GuardFault>
    requires known { AreKnown (length o.now.slots) o.now.functions }
    requires few { AreFew o.now }
    requires ways { list_all (comes_well (disassemblies_of o.now.functions)) o.now.slots ≡ true }
    ensures { as_violation result ≡ guard_violation o.now (disassemblies_of o.now.functions) }
{
    if let Some(fault) = first_in_functions(CodeRule::Refused, o) {
        return Some(fault);
    }
    if let Some(fault) = first_in_functions(CodeRule::Unguarded, o) {
        return Some(fault);
    }
    if let Some(fault) = first_in_functions(CodeRule::Breaking, o) {
        return Some(fault);
    }
    first_bad_way(o)
}

/// The first function in which a rule fails, and the least offset there.
fn first_in_functions(rule: CodeRule, o: &Object) -> Option<GuardFault>
    requires known { AreKnown (length o.now.slots) o.now.functions }
    requires few { AreFew o.now }
    ensures { as_violation result ≡ in_functions (rule_number rule)
        (λ n f instrs. failing rule o.now.slots f instrs) 0 o.now.functions
        (disassemblies_of o.now.functions) }
{
    let slots = o.slots.as_slice();
    let functions = o.functions.as_slice();
    for (n, function) in functions.iter().enumerate() {
        if let Some(offset) = first_in_function(rule, slots, function) {
            return Some(GuardFault::Rule {
                rule: number(rule),
                spot: GuardSpot::Function(n as u32),
                offset: offset as u32,
            });
        }
    }
    None
}

/// The least offset at which a rule fails.
fn first_in_function(rule: CodeRule, slots: &[Slot], function: &Func) -> Option<usize>
    requires { IsKnown (length slots.now) function.now }
    ensures first { result ≡ first_of (failing rule slots.now function.now
        (disassembly_of function.now.bytes)) }
    ensures few { (off : ℕ) → result ≡ Some off → off ≤ length function.now.bytes }
{
    let bytes = function.bytes.as_slice();
    let mut at = 0;
    let mut count = 0;
    while let Some(here) = instr_at(bytes, at) {
        if breaks(rule, slots, function, count, &here) {
            return Some(at);
        }
        count = next_count(slots.len(), count, here.instr);
        at = here.end;
    }
    None
}

/// Whether a rule fails at an instruction with so many instructions of a guard before it.
fn breaks(rule: CodeRule, slots: &[Slot], function: &Func, count: usize, here: &InstrAt) -> bool
    requires known { IsKnown (length slots.now) function.now }
    requires end { here.now.end ≡ here.now.at + size_of here.now.instr }
    requires goes { (is_linked function.now.links here.now.end ||
        goes_well (found (disassembly_of function.now.bytes)) here.now.end
        (displacement here.now.instr)) ≡ true }
    ensures { (behind : Row Instruction) →
        follows_guard (length slots.now) behind ≡ nat_eq count 10 →
        result ≡ fails_at rule slots.now function.now (disassembly_of function.now.bytes) behind
        here.now.at here.now.instr }
{
    match rule {
        CodeRule::Refused => is_refused(slots, function, here),
        CodeRule::Unguarded => is_guarded(slots, function, here) && count != GUARD_LENGTH,
        CodeRule::Breaking => leads_inside(slots, function, here),
    }
}

fn is_refused(slots: &[Slot], function: &Func, here: &InstrAt) -> bool
    requires { IsKnown (length slots.now) function.now }
    ensures { result ≡ is_refused slots.now function.now here.now.end here.now.instr }
{
    match here.instr {
        Instr::Ret => true,
        Instr::Jcc(_, _) => leads_indirect(slots, function, here.end),
        _ => false,
    }
}

/// The displacement of a branch.
fn displacement(instr: Instr) -> Option<i32>
    ensures { result ≡ displacement instr }
{
    match instr {
        Instr::Jcc(_, by) => Some(by),
        Instr::Jmp(by) => Some(by),
        _ => None,
    }
}

/// A place moved by a displacement, modulo 2^64.
fn moved_by(place: usize, by: i32) -> usize
    ensures { result ≡ moved place by }
{
    (place as u64).wrapping_add_signed(by as i64) as usize
}

/// Whether a branch without a link leads into a guard that it is not of.
fn leads_inside(slots: &[Slot], function: &Func, here: &InstrAt) -> bool
    requires known { IsKnown (length slots.now) function.now }
    requires end { here.now.end ≡ here.now.at + size_of here.now.instr }
    requires goes { (is_linked function.now.links here.now.end ||
        goes_well (found (disassembly_of function.now.bytes)) here.now.end
        (displacement here.now.instr)) ≡ true }
    ensures { result ≡ breaks_in (guarded_places slots.now function.now
        (disassembly_of function.now.bytes)) function.now here.now.at here.now.instr }
{
    if is_linked(slots, function, here.end) {
        return false;
    }
    match displacement(here.instr) {
        None => false,
        Some(by) => is_inside(slots, function, moved_by(here.end, by), Some(here.at)),
    }
}

/// The first slot whose way back leads into a guard.
fn first_bad_way(o: &Object) -> Option<GuardFault>
    requires known { AreKnown (length o.now.slots) o.now.functions }
    requires few { AreFew o.now }
    requires ways { list_all (comes_well (disassemblies_of o.now.functions)) o.now.slots ≡ true }
    ensures { as_violation result ≡ in_slots 4
        (λ k s. is_good_way o.now (disassemblies_of o.now.functions) s) 0 o.now.slots }
{
    let slots = o.slots.as_slice();
    for (k, slot) in slots.iter().enumerate() {
        if !is_good_way(o, slot) {
            return Some(GuardFault::Rule {
                rule: 4,
                spot: GuardSpot::Slot(k as u32),
                offset: 0,
            });
        }
    }
    None
}

/// Whether the way back of a slot, if it has one, leads into no guard.
fn is_good_way(o: &Object, slot: &Slot) -> bool
    requires known { AreKnown (length o.now.slots) o.now.functions }
    requires comes { comes_well (disassemblies_of o.now.functions) slot.now ≡ true }
    ensures { result ≡ is_good_way o.now (disassemblies_of o.now.functions) slot.now }
{
    match *slot {
        Slot::Entry { .. } => true,
        Slot::Jump { .. } => true,
        Slot::Call { back, .. } => is_good_back(o, back),
        Slot::Indirect { back } => is_good_back(o, back),
        Slot::System { back } => is_good_back(o, back),
    }
}

fn is_good_back(o: &Object, back: CodeAt) -> bool
    requires known { AreKnown (length o.now.slots) o.now.functions }
    requires start { is_start (disassemblies_of o.now.functions) back ≡ true }
    ensures { result ≡ is_good_back o.now (disassemblies_of o.now.functions) back }
{
    match o.functions.get(back.function as usize) {
        Some(function) => { !is_inside(o.slots.as_slice(), function, back.offset as usize, None) }
        None => true,
    }
}
