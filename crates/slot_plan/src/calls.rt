//! The slots of calls, in the order of functions and operations.

ghost use Rattle.std.specs.Prelude.{◌≡◌, ◌+◌, ◌-◌, ◌<◌, ◌≤◌, ◌^◌, ◌++◌, OnOk, length};
ghost use Rattle.low_core.specs.SelParts.{ops_of};
ghost use Rattle.slot_plan.specs.Slots.{list_of, routine_place, call_slot, calls_from, all_calls_from, operations};

use low_core::sel::{SelFun, SelOp, Which};
use obj_core::plan::{Site, Slot0};
use rd_num::list::List;
use rd_num::width::NoMemory;

/// The place of a routine among the six.
fn place_of(which: Which) -> u32
    ensures value { result ≡ routine_place which }
    ensures small { result < 6 }
{
    match which {
        Which::Putchar => 1,
        Which::Getchar => 2,
        Which::Exit => 3,
        Which::Memcpy => 4,
        Which::Memset => 5,
        Which::Trap => 0,
    }
}

/// The slot of an operation, where it is a call, in a program of so many functions.
fn call_of(count: u32, site: Site, op: &SelOp) -> Option<Slot0>
    requires { count < 2 ^ 20 }
    ensures { list_of result ≡ call_slot count site.function site.number op.now }
{
    match op {
        SelOp::Call(target, _, _) => Some(Slot0::Call {
            target: *target,
            site,
        }),
        SelOp::CallAt(_, _, _) => Some(Slot0::Indirect { site }),
        SelOp::Outside(Which::Trap, _, _) => None,
        SelOp::Outside(which, _, _) => Some(Slot0::Call {
            target: count + place_of(*which),
            site,
        }),
        _ => None,
    }
}

/// Adds a slot to others, where there is one.
fn add_slot(slots: &mut List<Slot0>, slot: Option<Slot0>) -> Result<(), NoMemory>
    ensures { OnOk result (slots.new ≡ slots.old ++ list_of slot) }
{
    match slot {
        Some(slot) => slots.add(slot),
        None => Ok(()),
    }
}

/// Adds the slots of the calls among operations of a function, behind those of its earlier ones, the
/// first of which stands at `first`.
fn add_calls(
    slots: &mut List<Slot0>,
    count: u32,
    function: u32,
    first: usize,
    ops: &[SelOp],
) -> Result<(), NoMemory>
    requires small { count < 2 ^ 20 }
    requires behind { first ≤ length slots.old }
    requires few { length slots.old + length ops.now < 2 ^ 32 }
    ensures added { OnOk result (slots.new ≡ slots.old ++
        calls_from count function (length slots.old - first) ops.now) }
    ensures grown { OnOk result (length slots.new ≤ length slots.old + length ops.now) }
    ensures behind { OnOk result (length slots.old ≤ length slots.new) }
{
    for op in ops {
        let number = (slots.len() - first) as u32;
        add_slot(slots, call_of(count, Site { function, number }, op))?;
    }
    Ok(())
}

/// Adds the slots of the calls of a function.
#[tactic(auto, using(crate::proofs::InTurn::calls_append))]
fn add_function(
    slots: &mut List<Slot0>,
    count: u32,
    number: u32,
    function: &SelFun,
) -> Result<(), NoMemory>
    requires small { count < 2 ^ 20 }
    requires few { length slots.old + length (ops_of function.now) < 2 ^ 32 }
    ensures added { OnOk result (slots.new ≡ slots.old ++
        calls_from count number 0 (ops_of function.now)) }
    ensures grown { OnOk result (length slots.new ≤ length slots.old +
        length (ops_of function.now)) }
{
    let first = slots.len();
    for b in function.blocks.as_slice() {
        add_calls(slots, count, number, first, b.ops.as_slice())?;
    }
    Ok(())
}

/// Adds the slots of the calls of all functions.
pub(crate) fn add_functions(
    slots: &mut List<Slot0>,
    count: u32,
    functions: &[SelFun],
) -> Result<(), NoMemory>
    requires small { count < 2 ^ 20 }
    requires functions { length functions.now < 2 ^ 20 }
    requires few { length slots.old + operations functions.now < 2 ^ 32 }
    ensures { OnOk result (slots.new ≡ slots.old ++ all_calls_from count 0 functions.now) }
{
    for number in 0..functions.len() {
        add_function(slots, count, number as u32, &functions[number])?;
    }
    Ok(())
}
