//! Names that have no definition of the kind that their place needs.
//!
//! What is mentioned outside of functions comes first, then each function over its own labels and
//! locals. Source: LLVM Language Reference, "Identifiers".

ghost use Rattle.std.specs.Prelude.{◌≡◌, [], IfOk};
ghost use Rattle.std.specs.List.{flat_map};
ghost use Rattle.ir_core.specs.Mentions.{names_of};
ghost use Rattle.ir_core.specs.Definitions.{local_mark, is_among, repeated, doubled, local_names};
ghost use Rattle.ir_core.specs.Refusals.{symbols, callees, unless_among, unknown_in, unknown};
ghost use Rattle.ir_names.specs.Firsts.{first_name};
ghost use Rattle.ir_names.specs.Reached.{unless_known, undefined_type, unknown_among, unknown_outside, unknown_inside, LocalsApart};
ghost use Rattle.ir_names.specs.Seen.{seen, all_seen};

use crate::marked::{Marked, owned};
use crate::mention::{Mention, Mentions};
use ir_core::module::Function;
use ir_core::names::NameSet;
use ir_core::scope::Scope;
use ir_core::tables::Tables;
use ir_core::ty::{Name, Ty};
use rd_num::width::NoMemory;
use std::alloc::Global;

/// A marked name, unless there is a definition of it. Takes no memory.
fn if_unknown<'a>(known: bool, marked: Marked<'a>) -> Option<Marked<'a>>
    ensures { result ≡ first_name (unless_known known marked.entry) }
{
    if known { None } else { Some(marked) }
}

/// A label, unless it is among names. Takes no memory.
fn unless_local<'a>(names: &NameSet, name: &'a Name) -> Option<Marked<'a>>
    ensures { result ≡ first_name (unless_among names.now name.now (local_mark name.now)) }
{
    if_unknown(names.has(name), Marked::local(name))
}

/// The first name in a type that no named type has. Takes no memory.
#[cycle(types)]
fn unknown_type<'a>(tables: &Tables, ty: &'a Ty) -> Option<Marked<'a>>
    ensures { result ≡ first_name (flat_map (undefined_type tables.now) (names_of ty.now)) }
{
    match ty {
        Ty::Void | Ty::Int(_) | Ty::Ptr => None,
        Ty::Array(_, of) => unknown_type(tables, of.get()),
        Ty::Struct(fields) => unknown_field(tables, fields.as_slice()),
        Ty::Packed(fields) => unknown_field(tables, fields.as_slice()),
        Ty::Named(name) => unless_local(tables.type_names(), name),
    }
}

/// The first name in types that no named type has.
#[cycle(types)]
fn unknown_field<'a>(tables: &Tables, fields: &'a [Ty]) -> Option<Marked<'a>>
    ensures { result ≡ first_name (flat_map (undefined_type tables.now)
        (flat_map names_of fields.now)) }
{
    for field in fields {
        match unknown_type(tables, field) {
            Some(marked) => return Some(marked),
            None => {}
        }
    }
    None
}

/// Whether a name is that of a declaration or a function. Takes no memory.
fn is_callee(tables: &Tables, name: &Name) -> bool
    ensures { result ≡ is_among (callees tables.now) name.now }
{
    tables.extern_names().has(name) || tables.function_names().has(name)
}

/// Whether a name is that of a global, a declaration or a function. Takes no memory.
fn is_symbol(tables: &Tables, name: &Name) -> bool
    ensures { result ≡ is_among (symbols tables.now) name.now }
{
    tables.global_names().has(name) || is_callee(tables, name)
}

/// The first name of a mention that is unknown where there are these labels and locals.
fn unknown_mention<'a>(
    tables: &Tables,
    labels: &NameSet,
    locals: &NameSet,
    mention: Mention<'a>,
) -> Option<Marked<'a>>
    ensures { result ≡ first_name (unknown_in tables.now
        (record { labels = labels.now; locals = locals.now }) (seen mention.entry)) }
{
    match mention {
        Mention::OfType(ty) => unknown_type(tables, ty),
        Mention::OfLabel(name) => unless_local(labels, name),
        Mention::OfLocal(name) => unless_local(locals, name),
        Mention::OfCallee(name) => if_unknown(is_callee(tables, name), Marked::global(name)),
        Mention::OfBase(name) => {
            if_unknown(tables.global_names().has(name), Marked::global(name))
        }
        Mention::OfSymbol(name) => if_unknown(is_symbol(tables, name), Marked::global(name)),
    }
}

/// The first name of mentions that is unknown.
fn first_of_mentions<'a>(
    tables: &Tables,
    labels: &NameSet,
    locals: &NameSet,
    mentions: &[Mention<'a>],
) -> Option<Marked<'a>>
    ensures { result ≡ first_name (unknown_among tables.now labels.now locals.now
        (all_seen mentions.now)) }
{
    for mention in mentions {
        match unknown_mention(tables, labels, locals, *mention) {
            Some(marked) => return Some(marked),
            None => {}
        }
    }
    None
}

/// The first unknown name outside of functions.
fn first_outside<'a>(alloc: Global, tables: &Tables<'a>) -> Result<Option<Marked<'a>>, NoMemory>
    ensures { IfOk result (λ r. r ≡ first_name (unknown_outside tables.now)) }
{
    let none = NameSet::new(alloc);
    let mentions = Mentions::outside(alloc, tables.whole())?;
    Ok(first_of_mentions(tables, &none, &none, mentions.as_slice()))
}

/// The first unknown name inside of a function.
fn first_inside<'a>(
    alloc: Global,
    tables: &Tables,
    f: &'a Function,
) -> Result<Option<Marked<'a>>, NoMemory>
    requires { repeated [] (local_names f.now) ≡ [] }
    ensures { IfOk result (λ r. r ≡ first_name (unknown_inside tables.now f.now)) }
{
    let scope = Scope::new(alloc, f)?;
    let mentions = Mentions::in_function(alloc, f)?;
    Ok(first_of_mentions(tables, scope.labels(), scope.locals(), mentions.as_slice()))
}

/// The first unknown name of a row of functions.
fn first_in_row<'a>(
    alloc: Global,
    tables: &Tables,
    functions: &'a [Function],
) -> Result<Option<Marked<'a>>, NoMemory>
    requires { LocalsApart functions.now }
    ensures { IfOk result (λ r. r ≡
        first_name (flat_map (unknown_inside tables.now) functions.now)) }
{
    for f in functions {
        match first_inside(alloc, tables, f)? {
            Some(marked) => return Ok(Some(marked)),
            None => {}
        }
    }
    Ok(None)
}

/// The first unknown name of functions.
fn first_of_functions<'a>(
    alloc: Global,
    tables: &Tables<'a>,
) -> Result<Option<Marked<'a>>, NoMemory>
    requires { doubled tables.now ≡ [] }
    ensures { IfOk result (λ r. r ≡
        first_name (flat_map (unknown_inside tables.now) tables.now.functions)) }
{
    let whole = tables.whole();
    let first = first_in_row(alloc, tables, whole.functions.as_slice())?;
    Ok(first)
}

/// The first name without a definition of the kind that its place needs, with its mark.
pub fn first_unknown(alloc: Global, tables: &Tables) -> Result<Option<Name>, NoMemory>
    requires apart { doubled tables.now ≡ [] }
    ensures { IfOk result (λ r. r ≡ first_name (unknown tables.now)) }
{
    let outside = first_outside(alloc, tables)?;
    match outside {
        Some(marked) => owned(alloc, Some(marked)),
        None => {
            let inside = first_of_functions(alloc, tables)?;
            owned(alloc, inside)
        }
    }
}
