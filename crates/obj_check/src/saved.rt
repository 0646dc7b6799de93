//! The rule of saved registers: how a saved function begins, and which of the five it uses.
//!
//! A saved function begins with a test and five pushes, in an order that the register seed draws with
//! purpose 4 and the function's number; the registers that occur in it are those of the first colours,
//! by the order of purpose 3. The definition is `specs/Saved.antt` of `obj_core`. A plain function
//! passes.

ghost use Rattle.std.specs.Prelude.{◌≡◌, ◌++◌, ◌<◌, ◌&&◌, nat_lt, slice_index, IfOk, OnOk, length};
ghost use Rattle.obj_core.specs.Disassembly.{spelled, disassembly_of};
ghost use Rattle.obj_core.specs.Saved.{saved_register, five_of, prologue, begins_with, one_if, agree, are_first_colors};
ghost use Rattle.obj_core.specs.WellFormed.{is_saved_well};
ghost use Rattle.obj_check.specs.Disassembled.{IsNoted};
ghost use Rattle.obj_check.specs.Orders.{pushes_in, used_in, count_used, are_colored};

use crate::marks::{Table, is_marked};
use crate::notes::Notes;
use obj_core::object::{Func, FuncKind};
use rd_draw::{perm, shuffle_known};
use rd_num::list::List;
use rd_num::width::NoMemory;
use std::alloc::Global;
use x86_core::instr::{Cond, ImmOp, Instr, Wide};
use x86_core::reg::{Reg, number};
use x86_encode::put;

/// Whether a function saves no registers, or begins and uses them as it must.
pub fn is_saved_well(
    alloc: Global,
    reg_seed: u64,
    n: u32,
    function: &Func,
    notes: &Notes,
) -> Result<bool, NoMemory>
    requires { IsNoted function.now.bytes notes.now }
    ensures { IfOk result (λ r. r ≡ is_saved_well reg_seed n function.now
        (disassembly_of function.now.bytes)) }
{
    match function.kind {
        FuncKind::Plain => Ok(true),
        FuncKind::Saved => is_saved(alloc, reg_seed, n, function, notes),
    }
}

/// Whether a function begins as a saved one, and its instructions use the registers of the first
/// colours.
fn is_saved(
    alloc: Global,
    reg_seed: u64,
    n: u32,
    function: &Func,
    notes: &Notes,
) -> Result<bool, NoMemory>
    requires { IsNoted function.now.bytes notes.now }
    ensures { IfOk result (λ r. r ≡ (begins_with (prologue reg_seed n) function.now.bytes &&
        are_first_colors reg_seed n (disassembly_of function.now.bytes))) }
{
    let front = prologue(alloc, reg_seed, n)?;
    let names = five(alloc, reg_seed, 3, n)?;
    Ok(begins_and_uses(
        front.as_slice(),
        names.as_slice(),
        function.bytes.as_slice(),
        &notes.registers,
    ))
}

fn begins_and_uses(front: &[u8], names: &[u32], bytes: &[u8], registers: &Table) -> bool
    requires { length names.now ≡ 5 }
    ensures { result ≡ (begins_with front.now bytes.now &&
        are_colored names.now (used_in registers.now)) }
{
    begins_with(front, bytes) && are_colored(names, registers)
}

/// The five places of saved registers, in the order that a seed draws for a function.
#[tactic(auto, unfolding(obj_core::specs::Saved::five_of))]
fn five(alloc: Global, reg_seed: u64, purpose: u32, n: u32) -> Result<List<u32>, NoMemory>
    ensures order { IfOk result (λ l. l ≡ five_of reg_seed purpose n) }
    ensures long { IfOk result (λ l. length l ≡ 5) }
{
    shuffle_known();
    perm(alloc, reg_seed, purpose, n, 5)
}

/// A saved register by its place.
fn saved_register(place: u32) -> Reg
    ensures { result ≡ saved_register place }
{
    match place {
        0 => Reg::Rbx,
        1 => Reg::Rbp,
        2 => Reg::R12,
        3 => Reg::R13,
        _ => Reg::R14,
    }
}

/// The bytes with which a saved function begins.
fn prologue(alloc: Global, reg_seed: u64, n: u32) -> Result<List<u8>, NoMemory>
    ensures { IfOk result (λ l. l ≡ prologue reg_seed n) }
{
    let order = five(alloc, reg_seed, 4, n)?;
    let mut out = List::new(alloc);
    put(&mut out, &Instr::AluImm(ImmOp::Sub, Wide::W64, Reg::R15, 1))?;
    put(&mut out, &Instr::Jcc(Cond::Ae, 1))?;
    put(&mut out, &Instr::Int3)?;
    put_pushes(&mut out, order.as_slice())?;
    Ok(out)
}

fn put_pushes(out: &mut List<u8>, order: &[u32]) -> Result<(), NoMemory>
    ensures { OnOk result (out.new ≡ out.old ++ spelled (pushes_in order.now)) }
{
    for place in order {
        put(out, &Instr::Push(saved_register(*place)))?;
    }
    Ok(())
}

/// Whether bytes begin with others.
fn begins_with(front: &[u8], bytes: &[u8]) -> bool
    ensures { result ≡ begins_with front.now bytes.now }
{
    front.len() <= bytes.len() && front == &bytes[..front.len()]
}

/// Whether the saved register of a place is used.
fn is_used(place: u32, registers: &Table) -> bool
    ensures { result ≡ used_in registers.now (saved_register place) }
{
    is_marked(registers, number(saved_register(place)) as usize)
}

/// 1 where the saved register of a place is used, else 0.
fn one_if_used(place: u32, registers: &Table) -> u32
    ensures { result ≡ one_if (used_in registers.now (saved_register place)) }
{
    if is_used(place, registers) { 1 } else { 0 }
}

/// How many of the five are used.
fn count_used(registers: &Table) -> u32
    ensures { result ≡ count_used (used_in registers.now) }
{
    one_if_used(0, registers)
        + (one_if_used(1, registers)
            + (one_if_used(2, registers) + (one_if_used(3, registers) + one_if_used(4, registers))))
}

/// Whether those of the five that are used are the first ones of an order.
fn are_colored(order: &[u32], registers: &Table) -> bool
    requires { length order.now ≡ 5 }
    ensures { result ≡ are_colored order.now (used_in registers.now) }
{
    let count = count_used(registers);
    is_colored(order, 0, count, registers)
        && is_colored(order, 1, count, registers)
        && is_colored(order, 2, count, registers)
        && is_colored(order, 3, count, registers)
        && is_colored(order, 4, count, registers)
}

/// Whether a colour's register is used exactly where the colour is below a number.
fn is_colored(order: &[u32], color: usize, count: u32, registers: &Table) -> bool
    requires { color < length order.now }
    ensures { result ≡ agree (used_in registers.now (saved_register (slice_index order.now color)))
        (nat_lt color count) }
{
    is_used(order[color], registers) == (color < count as usize)
}
