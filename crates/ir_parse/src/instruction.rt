//! Instructions, each with the alignment and the attachments that may stand behind it.
//!
//! An operation gives its value and the tokens behind it. Alignments, attachments, flags and debug
//! records are passed and leave no trace; an alloca without a count has the count 1.

ghost use Rattle.std.specs.Prelude.{◌≡◌, [], codes};
ghost use Rattle.ir_grammar.specs.Tokens.{kinds, starts};
ghost use Rattle.ir_grammar.specs.Grammar.{◌▹◌};
ghost use Rattle.ir_grammar.specs.Reading.{done, first, read, Gives, put_row};
ghost use Rattle.ir_syntax.specs.Words.{maybe};
ghost use Rattle.ir_grammar.specs.Parts.{the_word};
ghost use Rattle.ir_syntax.specs.Metadata.{attach, attaches as all_attaches};
ghost use Rattle.ir_syntax.specs.Instructions.{binary as a_binary, compare as a_compare, cast as a_cast, select as a_select, freeze as a_freeze, alloca_tail as an_alloca_tail, counted as a_count_tail, alloca as an_alloca, load as a_load, index as an_index, index_rows, indices as all_indices, gep as a_gep, entry as an_entry, entry_rows, entries as all_entries, phi as a_phi, store as a_store};

use ir_core::instruction::{Arg, Entry, Op};
use ir_grammar::cursor::{Stop, at_mark, at_word, mark, number, word};
use ir_lex::token::Token;
use ir_syntax::metadata::{align_tail, aligned_or_attach, attach, attaches};
use ir_syntax::names::local;
use ir_syntax::types::{at_itype, at_type, itype, whole};
use ir_syntax::values::value;
use ir_syntax::words::{bin_op, cast_op, flags, pred};
use rd_num::list::List;
use std::alloc::Global;

/// An operation on two numbers.
#[tactic(auto, unfolding(ir_syntax::specs::Instructions::binary))]
pub fn binary<'a>(alloc: Global, tokens: &'a [Token]) -> Result<(Op, &'a [Token]), Stop>
    ensures { Gives (λ x. done x.0 (kinds x.1.now)) result (read a_binary (kinds tokens.now)) }
{
    let (op, rest) = bin_op(tokens)?;
    let rest = flags(rest);
    let (ty, rest) = whole(alloc, rest)?;
    let (left, rest) = value(alloc, rest)?;
    let rest = mark(rest, b',')?;
    let (right, rest) = value(alloc, rest)?;
    let rest = attaches(alloc, rest)?;
    Ok((Op::Bin(op, ty, left, right), rest))
}

/// A comparison.
#[tactic(auto, unfolding(ir_syntax::specs::Instructions::compare))]
pub fn compare<'a>(alloc: Global, tokens: &'a [Token]) -> Result<(Op, &'a [Token]), Stop>
    ensures { Gives (λ x. done x.0 (kinds x.1.now)) result (read a_compare (kinds tokens.now)) }
{
    let rest = word(tokens, b"icmp")?;
    let rest = flags(rest);
    let (ask, rest) = pred(rest)?;
    let (ty, rest) = whole(alloc, rest)?;
    let (left, rest) = value(alloc, rest)?;
    let rest = mark(rest, b',')?;
    let (right, rest) = value(alloc, rest)?;
    let rest = attaches(alloc, rest)?;
    Ok((Op::Compare(ask, ty, left, right), rest))
}

/// A cast from one width to another.
#[tactic(auto, unfolding(ir_syntax::specs::Instructions::cast))]
pub fn cast<'a>(alloc: Global, tokens: &'a [Token]) -> Result<(Op, &'a [Token]), Stop>
    ensures { Gives (λ x. done x.0 (kinds x.1.now)) result (read a_cast (kinds tokens.now)) }
{
    let (op, rest) = cast_op(tokens)?;
    let rest = flags(rest);
    let (from, rest) = whole(alloc, rest)?;
    let (value, rest) = value(alloc, rest)?;
    let rest = word(rest, b"to")?;
    let (to, rest) = whole(alloc, rest)?;
    let rest = attaches(alloc, rest)?;
    Ok((Op::Cast(op, from, value, to), rest))
}

/// A choice of two values.
#[tactic(auto, unfolding(ir_syntax::specs::Instructions::select))]
pub fn select<'a>(alloc: Global, tokens: &'a [Token]) -> Result<(Op, &'a [Token]), Stop>
    ensures { Gives (λ x. done x.0 (kinds x.1.now)) result (read a_select (kinds tokens.now)) }
{
    let rest = word(tokens, b"select")?;
    let rest = word(rest, b"i1")?;
    let (condition, rest) = value(alloc, rest)?;
    let rest = mark(rest, b',')?;
    let (yes_ty, rest) = whole(alloc, rest)?;
    let (yes, rest) = value(alloc, rest)?;
    let rest = mark(rest, b',')?;
    let (no_ty, rest) = whole(alloc, rest)?;
    let (no, rest) = value(alloc, rest)?;
    let rest = attaches(alloc, rest)?;
    Ok((Op::Select(condition, yes_ty, yes, no_ty, no), rest))
}

/// A freeze.
#[tactic(auto, unfolding(ir_syntax::specs::Instructions::freeze))]
pub fn freeze<'a>(alloc: Global, tokens: &'a [Token]) -> Result<(Op, &'a [Token]), Stop>
    ensures { Gives (λ x. done x.0 (kinds x.1.now)) result (read a_freeze (kinds tokens.now)) }
{
    let rest = word(tokens, b"freeze")?;
    let (ty, rest) = whole(alloc, rest)?;
    let (value, rest) = value(alloc, rest)?;
    let rest = attaches(alloc, rest)?;
    Ok((Op::Freeze(ty, value), rest))
}

/// What stands behind an alloca's first comma: a count, or what has none.
#[tactic(auto, unfolding(ir_syntax::specs::Instructions::counted, ir_syntax::specs::Types::itype))]
fn counted<'a>(alloc: Global, tokens: &'a [Token]) -> Result<(u32, &'a [Token]), Stop>
    ensures { Gives (λ x. done x.0 (kinds x.1.now)) result (read a_count_tail (kinds tokens.now)) }
{
    if at_itype(tokens) {
        let (_, rest) = itype(tokens)?;
        let (count, rest) = number(rest)?;
        let rest = align_tail(alloc, rest)?;
        return Ok((count, rest));
    }
    let rest = aligned_or_attach(alloc, tokens)?;
    let rest = attaches(alloc, rest)?;
    Ok((1, rest))
}

/// What stands behind an alloca's type, as the number of its items.
#[tactic(auto, unfolding(ir_syntax::specs::Instructions::alloca_tail))]
fn alloca_tail<'a>(alloc: Global, tokens: &'a [Token]) -> Result<(u32, &'a [Token]), Stop>
    ensures { Gives (λ x. done x.0 (kinds x.1.now)) result
        (read an_alloca_tail (kinds tokens.now)) }
{
    if !at_mark(tokens, b',') {
        return Ok((1, tokens));
    }
    let rest = mark(tokens, b',')?;
    counted(alloc, rest)
}

/// An alloca.
#[tactic(auto, unfolding(ir_syntax::specs::Instructions::alloca))]
pub fn alloca<'a>(alloc: Global, tokens: &'a [Token]) -> Result<(Op, &'a [Token]), Stop>
    ensures { Gives (λ x. done x.0 (kinds x.1.now)) result (read an_alloca (kinds tokens.now)) }
{
    let rest = word(tokens, b"alloca")?;
    let (ty, rest) = whole(alloc, rest)?;
    let (count, rest) = alloca_tail(alloc, rest)?;
    Ok((Op::Alloca(ty, count), rest))
}

/// The tokens behind `volatile`, where it stands first.
fn maybe_volatile<'a>(tokens: &'a [Token]) -> Result<&'a [Token], Stop>
    ensures { Gives (λ rest. done tt (kinds rest.now)) result
        (read (maybe (the_word (codes "volatile"))) (kinds tokens.now)) }
{
    if at_word(tokens, b"volatile") {
        return word(tokens, b"volatile");
    }
    Ok(tokens)
}

/// A load.
#[tactic(auto, unfolding(ir_syntax::specs::Instructions::load))]
pub fn load<'a>(alloc: Global, tokens: &'a [Token]) -> Result<(Op, &'a [Token]), Stop>
    ensures { Gives (λ x. done x.0 (kinds x.1.now)) result (read a_load (kinds tokens.now)) }
{
    let rest = word(tokens, b"load")?;
    let rest = maybe_volatile(rest)?;
    let (ty, rest) = whole(alloc, rest)?;
    let rest = mark(rest, b',')?;
    let rest = word(rest, b"ptr")?;
    let (address, rest) = value(alloc, rest)?;
    let rest = align_tail(alloc, rest)?;
    Ok((Op::Load(ty, address), rest))
}

/// A store.
#[tactic(auto, unfolding(ir_syntax::specs::Instructions::store))]
pub fn store<'a>(alloc: Global, tokens: &'a [Token]) -> Result<(Op, &'a [Token]), Stop>
    ensures { Gives (λ x. done x.0 (kinds x.1.now)) result (read a_store (kinds tokens.now)) }
{
    let rest = word(tokens, b"store")?;
    let rest = maybe_volatile(rest)?;
    let (ty, rest) = whole(alloc, rest)?;
    let (stored, rest) = value(alloc, rest)?;
    let rest = mark(rest, b',')?;
    let rest = word(rest, b"ptr")?;
    let (address, rest) = value(alloc, rest)?;
    let rest = align_tail(alloc, rest)?;
    Ok((Op::Store(ty, stored, address), rest))
}

/// One index of a getelementptr.
#[tactic(auto, unfolding(ir_syntax::specs::Instructions::index))]
fn index<'a>(alloc: Global, tokens: &'a [Token]) -> Result<(Arg, &'a [Token]), Stop>
    ensures { Gives (λ x. done x.0 (kinds x.1.now)) result (read an_index (kinds tokens.now)) }
{
    let (ty, rest) = whole(alloc, tokens)?;
    let (value, rest) = value(alloc, rest)?;
    Ok((Arg { ty, value }, rest))
}

/// The attachments that end indices or entries, the first without its comma.
fn last_attaches<'a>(alloc: Global, tokens: &'a [Token]) -> Result<&'a [Token], Stop>
    ensures { Gives (λ rest. done tt (kinds rest.now)) result
        (read (attach ▹ all_attaches) (kinds tokens.now)) }
{
    let rest = attach(alloc, tokens)?;
    attaches(alloc, rest)
}

/// Whether an index is next.
#[tactic(auto, using(crate::proofs::Firsts::first_index))]
fn at_index(tokens: &[Token]) -> bool
    ensures { result ≡ starts (first an_index) (kinds tokens.now) }
{
    at_type(tokens)
}

/// The indices of a getelementptr, which attachments may end.
#[tactic(auto, unfolding(ir_syntax::specs::Instructions::indices), using(crate::proofs::Loops::index_end, crate::proofs::Loops::index_last, crate::proofs::Loops::index_fault, crate::proofs::Loops::index_last_fault))]
fn indices<'a>(alloc: Global, tokens: &'a [Token]) -> Result<(List<Arg>, &'a [Token]), Stop>
    ensures { Gives (λ x. done x.0 (kinds x.1.now)) result (read all_indices (kinds tokens.now)) }
{
    let mut all = List::new(alloc);
    let mut rest = tokens;
    'commas: while at_mark(rest, b',') {
        let behind = mark(rest, b',')?;
        if !at_index(behind) {
            let behind = last_attaches(alloc, behind)?;
            return Ok((all, behind));
        }
        let (index, behind) = index(alloc, behind)?;
        match all.add(index) {
            Ok(()) => {}
            Err(_) => return Err(Stop::NoMemory),
        }
        rest = behind;
    }
    Ok((all, rest))
}

/// A getelementptr.
#[tactic(auto, unfolding(ir_syntax::specs::Instructions::gep))]
pub fn gep<'a>(alloc: Global, tokens: &'a [Token]) -> Result<(Op, &'a [Token]), Stop>
    ensures { Gives (λ x. done x.0 (kinds x.1.now)) result (read a_gep (kinds tokens.now)) }
{
    let rest = word(tokens, b"getelementptr")?;
    let rest = flags(rest);
    let (ty, rest) = whole(alloc, rest)?;
    let rest = mark(rest, b',')?;
    let rest = word(rest, b"ptr")?;
    let (base, rest) = value(alloc, rest)?;
    let (indices, rest) = indices(alloc, rest)?;
    Ok((Op::Gep(ty, base, indices), rest))
}

/// One entry of a phi.
#[tactic(auto, unfolding(ir_syntax::specs::Instructions::entry))]
fn entry<'a>(alloc: Global, tokens: &'a [Token]) -> Result<(Entry, &'a [Token]), Stop>
    ensures { Gives (λ x. done x.0 (kinds x.1.now)) result (read an_entry (kinds tokens.now)) }
{
    let rest = mark(tokens, b'[')?;
    let (value, rest) = value(alloc, rest)?;
    let rest = mark(rest, b',')?;
    let (from, rest) = local(alloc, rest)?;
    let rest = mark(rest, b']')?;
    Ok((Entry { value, from }, rest))
}

/// Whether an entry is next.
#[tactic(auto, unfolding(ir_syntax::specs::Instructions::entry))]
fn at_entry(tokens: &[Token]) -> bool
    ensures { result ≡ starts (first an_entry) (kinds tokens.now) }
{
    at_mark(tokens, b'[')
}

/// The entries behind those that were read, which attachments may end.
#[tactic(auto, using(crate::proofs::Loops::entry_end, crate::proofs::Loops::entry_last, crate::proofs::Loops::entry_fault, crate::proofs::Loops::entry_last_fault))]
fn more_entries<'a>(
    alloc: Global,
    tokens: &'a [Token],
    entries: List<Entry>,
) -> Result<(List<Entry>, &'a [Token]), Stop>
    ensures { Gives (λ x. done x.0 (kinds x.1.now)) result
        (put_row entries (read entry_rows (kinds tokens.now))) }
{
    let mut all = entries;
    let mut rest = tokens;
    'commas: while at_mark(rest, b',') {
        let behind = mark(rest, b',')?;
        if !at_entry(behind) {
            let behind = last_attaches(alloc, behind)?;
            return Ok((all, behind));
        }
        let (entry, behind) = entry(alloc, behind)?;
        match all.add(entry) {
            Ok(()) => {}
            Err(_) => return Err(Stop::NoMemory),
        }
        rest = behind;
    }
    Ok((all, rest))
}

/// The entries of a phi.
#[tactic(auto, unfolding(ir_syntax::specs::Instructions::entries))]
fn entries<'a>(alloc: Global, tokens: &'a [Token]) -> Result<(List<Entry>, &'a [Token]), Stop>
    ensures { Gives (λ x. done x.0 (kinds x.1.now)) result (read all_entries (kinds tokens.now)) }
{
    let (entry, rest) = entry(alloc, tokens)?;
    let mut entries = List::new(alloc);
    match entries.add(entry) {
        Ok(()) => {}
        Err(_) => return Err(Stop::NoMemory),
    }
    more_entries(alloc, rest, entries)
}

/// A phi.
#[tactic(auto, unfolding(ir_syntax::specs::Instructions::phi))]
pub fn phi<'a>(alloc: Global, tokens: &'a [Token]) -> Result<(Op, &'a [Token]), Stop>
    ensures { Gives (λ x. done x.0 (kinds x.1.now)) result (read a_phi (kinds tokens.now)) }
{
    let rest = word(tokens, b"phi")?;
    let (ty, rest) = whole(alloc, rest)?;
    let (entries, rest) = entries(alloc, rest)?;
    Ok((Op::Phi(ty, entries), rest))
}
