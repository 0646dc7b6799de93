//! Whether the entries of a phi are those of the edges to its block, and agree where blocks do.

ghost use Rattle.std.specs.Prelude.{◌≡◌, ◌&&◌, true, map, slice_get, IfOk};
ghost use Rattle.std.specs.List.{list_all, list_any};
ghost use Rattle.std.specs.Option.{option_copied, option_map_or};
ghost use Rattle.ir_core.specs.declared.instruction.Entry.{Entry as OneEntry};
ghost use Rattle.ir_core.specs.Names.{same_name, first_where};
ghost use Rattle.ir_core.specs.Definitions.{is_among};
ghost use Rattle.ir_core.specs.Valid.{agrees_with, entries_fit, entries_agree};
ghost use Rattle.ir_types.specs.Entries.{entry_names, firsts_in};

use crate::same::is_same_operand;
use ir_core::instruction::Entry;
use ir_core::names::NameSet;
use ir_core::ty::Name;
use rd_num::list::List;
use rd_num::width::NoMemory;
use std::alloc::Global;

/// The first entry for each block, and the names of the blocks in the same order.
#[derive(Drop)]
struct Firsts<'a> {
    names: NameSet<'a>,
    entries: List<&'a Entry>,
}

/// The first entries of a phi.
fn first_entries<'a>(alloc: Global, entries: &'a [Entry]) -> Result<Firsts<'a>, NoMemory>
    ensures firsts { IfOk result (λ f. map (λ r. r.now) f.entries ≡ firsts_in entries.now) }
    ensures named { IfOk result (λ f. f.names ≡ entry_names (map (λ r. r.now) f.entries)) }
{
    let mut names = NameSet::new(alloc);
    let mut firsts = List::new(alloc);
    for e in entries {
        if names.add(&e.from)? {
            firsts.add(e)?;
        }
    }
    Ok(Firsts {
        names,
        entries: firsts,
    })
}

impl<'a> Firsts<'a> {
    /// The first entry for a block. Takes no memory.
    fn entry(&self, block: &Name) -> Option<&'a Entry>
        requires { self.now.names ≡ entry_names (map (λ r. r.now) self.now.entries) }
        ensures { option_copied result ≡ first_where (λ (g : OneEntry). same_name g.from block.now)
            (map (λ r. r.now) self.now.entries) }
    {
        match self.names.number(block) {
            Some(k) => self.entries.get(k).copied(),
            None => None,
        }
    }
}

/// Whether an entry has the operand of another, where there is one.
fn agrees(e: &Entry, first: Option<&Entry>) -> bool
    ensures { result ≡ agrees_with e.now (option_copied first.entry) }
{
    match first {
        Some(first) => is_same_operand(&first.value, &e.value),
        None => true,
    }
}

/// Whether an entry has the operand of the first one for its block.
fn agrees_in(firsts: &Firsts, entries: &[Entry], e: &Entry) -> bool
    requires firsts { map (λ r. r.now) firsts.now.entries ≡ firsts_in entries.now }
    requires named { firsts.now.names ≡ entry_names (map (λ r. r.now) firsts.now.entries) }
    ensures { result ≡ agrees_with e.now (first_where
        (λ (g : OneEntry). same_name g.from e.now.from) entries.now) }
{
    agrees(e, firsts.entry(&e.from))
}

/// Whether entries for one block have one operand.
fn do_agree(firsts: &Firsts, entries: &[Entry]) -> bool
    requires firsts { map (λ r. r.now) firsts.now.entries ≡ firsts_in entries.now }
    requires named { firsts.now.names ≡ entry_names (map (λ r. r.now) firsts.now.entries) }
    ensures { result ≡ entries_agree entries.now }
{
    for e in entries {
        if !agrees_in(firsts, entries, e) {
            return false;
        }
    }
    true
}

/// Whether each entry is for a block of a row.
fn are_for(row: &NameSet, entries: &[Entry]) -> bool
    ensures { result ≡ list_all (λ (e : OneEntry). is_among row.now e.from) entries.now }
{
    for e in entries {
        if !row.has(&e.from) {
            return false;
        }
    }
    true
}

/// Whether the name of a number is among names; there may be none.
fn is_among_at(names: &NameSet, row: &NameSet, k: usize) -> bool
    ensures { result ≡ option_map_or (is_among names.now) (slice_get row.now k) true }
{
    match row.get(k) {
        Some(name) => names.has(name),
        None => true,
    }
}

/// Whether each name of a row is among names.
#[tactic(auto, using(crate::proofs::RowLaws::all_step))]
fn are_among(names: &NameSet, row: &NameSet) -> bool
    ensures { result ≡ list_all (is_among names.now) row.now }
{
    for k in 0..row.len() {
        if !is_among_at(names, row, k) {
            return false;
        }
    }
    true
}

/// Whether there is an entry for each name of a row.
fn have_entries(firsts: &Firsts, row: &NameSet, entries: &[Entry]) -> bool
    requires firsts { map (λ r. r.now) firsts.now.entries ≡ firsts_in entries.now }
    requires named { firsts.now.names ≡ entry_names (map (λ r. r.now) firsts.now.entries) }
    ensures { result ≡ list_all (λ l. list_any (λ (e : OneEntry). same_name e.from l) entries.now)
        row.now }
{
    let _all = entries;
    are_among(&firsts.names, row)
}

/// Whether entries are for the blocks of a row and agree.
fn do_fit(firsts: &Firsts, row: &NameSet, entries: &[Entry]) -> bool
    requires firsts { map (λ r. r.now) firsts.now.entries ≡ firsts_in entries.now }
    requires named { firsts.now.names ≡ entry_names (map (λ r. r.now) firsts.now.entries) }
    ensures { result ≡ (entries_fit row.now entries.now && entries_agree entries.now) }
{
    (have_entries(firsts, row, entries) && are_for(row, entries)) && do_agree(firsts, entries)
}

/// Whether the entries of a phi are for the blocks of a row, and those for one block agree.
pub fn fits_edges(alloc: Global, row: &NameSet, entries: &[Entry]) -> Result<bool, NoMemory>
    ensures { IfOk result (λ r. r ≡
        (entries_fit row.now entries.now && entries_agree entries.now)) }
{
    let firsts = first_entries(alloc, entries)?;
    let fit = do_fit(&firsts, row, entries);
    Ok(fit)
}
