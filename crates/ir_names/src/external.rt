//! Names that stand for something outside of the module and are used wrongly.
//!
//! A declared name stands in no place but that of a callee; a declaration that is called or named is
//! one of an outside function with its type; a name that begins with `llvm.` is declared alone. What
//! stands in globals comes first, then declarations, then functions.

ghost use Rattle.std.specs.Prelude.{◌≡◌, ◌∷◌, [], IfOk, OnOk};
ghost use Rattle.std.specs.List.{flat_map};
ghost use Rattle.ir_core.specs.Mentions.{OfCallee as of_callee, of_function, mentions as mentioned};
ghost use Rattle.ir_core.specs.Refusals.{is_outside_name, wrong_use, external};
ghost use Rattle.ir_types.specs.Flow.{with_name};
ghost use Rattle.ir_names.specs.Firsts.{first_name};
ghost use Rattle.ir_names.specs.Outer.{Uses, unfit, wrong_among, wrong_in_globals, wrong_declarations, wrong_in_function, wrong_behind_globals};
ghost use Rattle.ir_names.specs.Seen.{seen, all_seen};

use crate::marked::{Marked, owned};
use crate::mention::{Mention, Mentions};
use ir_core::module::{Extern, Function, Module};
use ir_core::names::NameSet;
use ir_core::tables::Tables;
use ir_core::ty::Name;
use ir_types::call::fits_outside;
use rd_num::width::NoMemory;
use std::alloc::Global;

/// A declared name in another place than that of a callee. Takes no memory.
fn wrong_mention<'a>(tables: &Tables, mention: Mention<'a>) -> Option<Marked<'a>>
    ensures { result ≡ first_name (wrong_use tables.now (seen mention.entry)) }
{
    match mention {
        Mention::OfSymbol(name) => {
            if tables.extern_names().has(name) {
                Some(Marked::global(name))
            } else {
                None
            }
        }
        _ => None,
    }
}

/// The first declared name of mentions in another place than that of a callee.
fn first_use<'a>(tables: &Tables, mentions: &[Mention<'a>]) -> Option<Marked<'a>>
    ensures { result ≡ first_name (wrong_among tables.now (all_seen mentions.now)) }
{
    for mention in mentions {
        match wrong_mention(tables, *mention) {
            Some(marked) => return Some(marked),
            None => {}
        }
    }
    None
}

/// The first wrong use in a global.
fn first_in_globals<'a>(alloc: Global, tables: &Tables<'a>) -> Result<Option<Marked<'a>>, NoMemory>
    ensures { IfOk result (λ r. r ≡ first_name (wrong_in_globals tables.now)) }
{
    let whole = tables.whole();
    let mentions = Mentions::in_globals(alloc, whole)?;
    Ok(first_use(tables, mentions.as_slice()))
}

/// Adds a name, if it is new.
fn note<'a>(names: &mut NameSet<'a>, name: &'a Name) -> Result<(), NoMemory>
    ensures { OnOk result (names.new ≡ with_name names.old name.now) }
{
    names.add(name)?;
    Ok(())
}

/// Adds a name that is mentioned, if it is new.
fn note_symbol<'a>(names: &mut NameSet<'a>, name: &'a Name) -> Result<(), NoMemory>
    ensures { OnOk result (Uses names.old names.new (of_callee name.now ∷ [])) }
{
    note(names, name)?;
    Ok(())
}

/// Adds the `@` name of a mention, where it is a callee or stands for a global or a function.
fn note_mention<'a>(names: &mut NameSet<'a>, mention: Mention<'a>) -> Result<(), NoMemory>
    ensures { OnOk result (Uses names.old names.new (seen mention.entry ∷ [])) }
{
    match mention {
        Mention::OfCallee(name) => note_symbol(names, name),
        Mention::OfSymbol(name) => note_symbol(names, name),
        Mention::OfType(_) => Ok(()),
        Mention::OfLabel(_) => Ok(()),
        Mention::OfLocal(_) => Ok(()),
        Mention::OfBase(_) => Ok(()),
    }
}

/// Adds the `@` names of mentions.
fn note_mentions<'a>(names: &mut NameSet<'a>, mentions: &[Mention<'a>]) -> Result<(), NoMemory>
    ensures { OnOk result (Uses names.old names.new (all_seen mentions.now)) }
{
    for mention in mentions {
        note_mention(names, *mention)?;
    }
    Ok(())
}

/// Adds the `@` names that are mentioned in functions.
fn note_functions<'a>(
    alloc: Global,
    names: &mut NameSet<'a>,
    functions: &'a [Function],
) -> Result<(), NoMemory>
    ensures { OnOk result (Uses names.old names.new (flat_map of_function functions.now)) }
{
    for f in functions {
        let mentions = Mentions::in_function(alloc, f)?;
        note_mentions(names, mentions.as_slice())?;
    }
    Ok(())
}

/// The `@` names that a module mentions.
fn used_names<'a>(alloc: Global, whole: &'a Module) -> Result<NameSet<'a>, NoMemory>
    ensures { IfOk result (λ names. Uses [] names (mentioned whole.now)) }
{
    let mut names = NameSet::new(alloc);
    let mentions = Mentions::outside(alloc, whole)?;
    note_mentions(&mut names, mentions.as_slice())?;
    note_functions(alloc, &mut names, whole.functions.as_slice())?;
    Ok(names)
}

/// A declaration that is used and isn't an outside function with its type.
fn wrong_extern<'a>(used: &NameSet, e: &'a Extern) -> Option<Marked<'a>>
    ensures { result ≡ first_name (unfit used.now e.now) }
{
    if used.has(&e.name) && !fits_outside(e) {
        Some(Marked::global(&e.name))
    } else {
        None
    }
}

/// The first declaration that is used and isn't an outside function with its type.
fn first_unfit<'a>(used: &NameSet, externs: &'a [Extern]) -> Option<Marked<'a>>
    ensures { result ≡ first_name (flat_map (unfit used.now) externs.now) }
{
    for e in externs {
        match wrong_extern(used, e) {
            Some(marked) => return Some(marked),
            None => {}
        }
    }
    None
}

/// The first wrong declaration.
fn first_declaration<'a>(alloc: Global, whole: &'a Module) -> Result<Option<Marked<'a>>, NoMemory>
    ensures { IfOk result (λ r. r ≡ first_name (wrong_declarations whole.now)) }
{
    let used = used_names(alloc, whole)?;
    Ok(first_unfit(&used, whole.externs.as_slice()))
}

/// Whether a name begins as those that are declared alone. Takes no memory.
fn is_reserved(name: &Name) -> bool
    ensures { result ≡ is_outside_name name.now }
{
    name.as_slice().starts_with(b"llvm.")
}

/// The first name of a function that is wrong: its own, or one in it.
fn first_in_function<'a>(
    alloc: Global,
    tables: &Tables,
    f: &'a Function,
) -> Result<Option<Marked<'a>>, NoMemory>
    ensures { IfOk result (λ r. r ≡ first_name (wrong_in_function tables.now f.now)) }
{
    if is_reserved(&f.name) {
        return Ok(Some(Marked::global(&f.name)));
    }
    let mentions = Mentions::in_function(alloc, f)?;
    Ok(first_use(tables, mentions.as_slice()))
}

/// The first name of a row of functions that is wrong.
fn first_in_row<'a>(
    alloc: Global,
    tables: &Tables,
    functions: &'a [Function],
) -> Result<Option<Marked<'a>>, NoMemory>
    ensures { IfOk result (λ r. r ≡
        first_name (flat_map (wrong_in_function tables.now) functions.now)) }
{
    for f in functions {
        match first_in_function(alloc, tables, f)? {
            Some(marked) => return Ok(Some(marked)),
            None => {}
        }
    }
    Ok(None)
}

/// The first name of functions that is wrong.
fn first_of_functions<'a>(
    alloc: Global,
    tables: &Tables<'a>,
) -> Result<Option<Marked<'a>>, NoMemory>
    ensures { IfOk result (λ r. r ≡
        first_name (flat_map (wrong_in_function tables.now) tables.now.functions)) }
{
    let whole = tables.whole();
    let first = first_in_row(alloc, tables, whole.functions.as_slice())?;
    Ok(first)
}

/// The first wrong declaration, or else the first wrong name of functions.
fn first_behind_globals<'a>(
    alloc: Global,
    tables: &Tables<'a>,
) -> Result<Option<Marked<'a>>, NoMemory>
    ensures { IfOk result (λ r. r ≡ first_name (wrong_behind_globals tables.now)) }
{
    let declaration = first_declaration(alloc, tables.whole())?;
    match declaration {
        Some(marked) => Ok(Some(marked)),
        None => {
            let first = first_of_functions(alloc, tables)?;
            Ok(first)
        }
    }
}

/// The first name that stands for something outside and is used wrongly, with its mark.
pub fn first_external(alloc: Global, tables: &Tables) -> Result<Option<Name>, NoMemory>
    ensures { IfOk result (λ r. r ≡ first_name (external tables.now)) }
{
    let in_globals = first_in_globals(alloc, tables)?;
    match in_globals {
        Some(marked) => owned(alloc, Some(marked)),
        None => {
            let behind = first_behind_globals(alloc, tables)?;
            owned(alloc, behind)
        }
    }
}
