//! The ways out of a switch, the least number first.

ghost use Rattle.std.specs.Prelude.{◌≡◌, ◌^◌, IfOk, OnOk};
ghost use Rattle.std.specs.BTreeMap.{insert_entry};
ghost use Rattle.std.specs.Ordering.{nat_cmp};
ghost use Rattle.rd_num.specs.Number.{bits};
ghost use Rattle.ir_core.specs.Kinds.{literal as literal_of};
ghost use Rattle.ir_core.specs.Valid.{case_number as number_of_case};
ghost use Rattle.switch_lower.specs.Ways.{ways as ways_of};

use ir_core::instruction::Case;
use ir_core::kind::Kind;
use ir_core::operand::Operand;
use ir_core::ty::{Name, Ty};
use low_core::copies::copy_name;
use rd_num::list::List;
use rd_num::width::{NoMemory, Width};
use std::alloc::Global;
use std::collections::BTreeMap;

/// One more than the greatest number of a width. Takes no memory.
fn modulus(w: Width) -> u128
    ensures { result ≡ 2 ^ bits w }
{
    match w {
        Width::W1 => 2,
        Width::W8 => 256,
        Width::W16 => 65536,
        Width::W32 => 4294967296,
        Width::W64 => 18446744073709551616,
    }
}

/// The number of a width that a literal stands for. Takes no memory.
fn literal(w: Width, n: i128) -> u64
    ensures { result ≡ literal_of w n }
{
    let whole = modulus(w);
    if n < 0 {
        let below = (-(n + 1)) as u128;
        (whole - 1 - below % whole) as u64
    } else {
        (n as u128 % whole) as u64
    }
}

/// The number that a case of a kind stands for. Takes no memory.
fn case_number(kind: Kind, value: &Operand) -> u64
    ensures { result ≡ number_of_case kind value.now }
{
    match (kind, value) {
        (Kind::Number(w), Operand::Int(n)) => literal(w, *n),
        (_, Operand::Bool(true)) => 1,
        _ => 0,
    }
}

/// Adds a case to those of greater numbers of cases.
fn add_way(
    alloc: Global,
    all: &mut BTreeMap<u64, Name>,
    kind: Kind,
    c: &Case,
) -> Result<(), NoMemory>
    ensures { OnOk result (all.new.entries ≡
        insert_entry nat_cmp all.old.entries (number_of_case kind c.now.value) c.now.to) }
{
    let to = copy_name(alloc, &c.to)?;
    match all.insert(case_number(kind, &c.value), to) {
        Ok(_) => Ok(()),
        Err(_) => Err(NoMemory),
    }
}

/// The labels to which cases lead, by their numbers.
fn by_number(alloc: Global, ty: &Ty, cases: &[Case]) -> Result<BTreeMap<u64, Name>, NoMemory>
    ensures { IfOk result (λ m. m.entries ≡ ways_of ty.now cases.now) }
{
    let kind = Kind::of(ty);
    let mut all = BTreeMap::new(alloc);
    for k in (0..cases.len()).rev() {
        add_way(alloc, &mut all, kind, &cases[k])?;
    }
    Ok(all)
}

/// The ways out of a switch with these cases.
pub fn ways(alloc: Global, ty: &Ty, cases: &[Case]) -> Result<List<(u64, Name)>, NoMemory>
    ensures { IfOk result (λ ws. ws ≡ ways_of ty.now cases.now) }
{
    let mut all = List::new(alloc);
    for way in by_number(alloc, ty, cases)? {
        all.add(way)?;
    }
    Ok(all)
}
