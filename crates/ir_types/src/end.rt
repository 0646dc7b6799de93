//! What terminators ask besides their types: cases that differ, and no edge to the entry block.

ghost use Rattle.std.specs.Prelude.{◌≡◌, ◌^◌, [], map, IfOk};
ghost use Rattle.std.specs.List.{list_any};
ghost use Rattle.rd_num.specs.Number.{bits};
ghost use Rattle.ir_core.specs.declared.instruction.Case.{Case as OneCase};
ghost use Rattle.ir_core.specs.Kinds.{literal};
ghost use Rattle.ir_core.specs.Valid.{case_number, cases_differ, none_repeats, is_entry, spares_entry};

use crate::same::is_same_name;
use indexmap::IndexSet;
use ir_core::instruction::{Case, Term};
use ir_core::kind::Kind;
use ir_core::module::Block;
use ir_core::operand::Operand;
use ir_core::ty::Name;
use rd_num::width::{NoMemory, Width};
use std::alloc::Global;

/// One more than the greatest number of a width. Takes no memory.
fn modulus(w: Width) -> u128
    ensures { result ≡ 2 ^ bits w }
{
    match w {
        Width::W1 => 2,
        Width::W8 => 256,
        Width::W16 => 65_536,
        Width::W32 => 4_294_967_296,
        Width::W64 => 18_446_744_073_709_551_616,
    }
}

/// The number of a width that a literal stands for. Takes no memory.
fn number_of(w: Width, n: i128) -> u64
    ensures { result ≡ literal w n }
{
    let whole = modulus(w);
    if n < 0 {
        let below = (-(n + 1)) as u128;
        (whole - 1 - below % whole) as u64
    } else {
        (n as u128 % whole) as u64
    }
}

/// The number that a case of a switch on a kind stands for. Takes no memory.
fn case_value(kind: Kind, value: &Operand) -> u64
    ensures { result ≡ case_number kind value.now }
{
    match (kind, value) {
        (Kind::Number(w), Operand::Int(n)) => number_of(w, *n),
        (_, Operand::Bool(true)) => 1,
        _ => 0,
    }
}

/// Whether no two cases of a switch on a kind stand for one number.
fn all_differ(alloc: Global, kind: Kind, cases: &[Case]) -> Result<bool, NoMemory>
    ensures { IfOk result (λ r. r ≡ none_repeats []
        (map (λ (c : OneCase). case_number kind c.value) cases.now)) }
{
    let mut numbers: IndexSet<u64> = IndexSet::new(alloc);
    for c in cases {
        match numbers.insert_full(case_value(kind, &c.value)) {
            Ok((_, new)) => {
                if !new {
                    return Ok(false);
                }
            }
            Err(_) => return Err(NoMemory),
        }
    }
    Ok(true)
}

/// Whether the cases of a terminator differ, where it has cases.
pub fn have_apart(alloc: Global, end: &Term) -> Result<bool, NoMemory>
    ensures { IfOk result (λ r. r ≡ cases_differ end.now) }
{
    match end {
        Term::Switch(ty, _, _, cases) => all_differ(alloc, Kind::of(ty), cases.as_slice()),
        _ => Ok(true),
    }
}

/// Whether a label is that of the first block. Takes no memory.
fn leads_back(blocks: &[Block], label: &Name) -> bool
    ensures { result ≡ is_entry blocks.now label.now }
{
    match blocks {
        [] => false,
        [entry, ..] => is_same_name(label, &entry.label),
    }
}

/// Whether a case leads to the first block.
fn cases_lead_back(blocks: &[Block], cases: &[Case]) -> bool
    ensures { result ≡ list_any (is_entry blocks.now) (map (λ (c : OneCase). c.to) cases.now) }
{
    for c in cases {
        if leads_back(blocks, &c.to) {
            return true;
        }
    }
    false
}

/// Whether no edge of a terminator goes to the first block.
pub fn leaves_entry(blocks: &[Block], end: &Term) -> bool
    ensures { result ≡ spares_entry blocks.now end.now }
{
    match end {
        Term::Ret | Term::RetValue(_, _) | Term::Unreachable => true,
        Term::Br(to) => !leads_back(blocks, to),
        Term::BrIf(_, taken, other) => !(leads_back(blocks, taken) || leads_back(blocks, other)),
        Term::Switch(_, _, default, cases) => {
            !(leads_back(blocks, default) || cases_lead_back(blocks, cases.as_slice()))
        }
    }
}
