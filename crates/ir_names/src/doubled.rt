//! Names that are defined a second time.
//!
//! Named types stand apart, the names of globals, declarations and functions together, and the
//! parameters, labels and results of each function together. Names are added to a set until one is
//! there already.

ghost use Rattle.std.specs.Prelude.{◌≡◌, ◌++◌, ◌∷◌, [], map, IfOk, None};
ghost use Rattle.std.specs.List.{flat_map};
ghost use Rattle.std.specs.Option.{option_copied};
ghost use Rattle.ir_core.specs.Definitions.{local_mark, repeated, repeated_in, result_names, block_names, type_names, local_names, doubled};
ghost use Rattle.ir_names.specs.Firsts.{first_name, Adds, insts_names, front_names, repeated_by, repeated_symbols};

use crate::marked::{Marked, as_local, owned};
use ir_core::instruction::Inst;
use ir_core::module::{Block, Function, Module};
use ir_core::names::NameSet;
use ir_core::ty::Name;
use rd_num::width::NoMemory;
use std::alloc::Global;

/// Adds the result of an instruction, where it has one, and answers it if it is there already.
fn add_result<'a>(names: &mut NameSet<'a>, i: &'a Inst) -> Result<Option<&'a Name>, NoMemory>
    ensures { IfOk result (λ r. Adds names.old names.new
        (result_names i.now.result) (option_copied r)) }
{
    match &i.result {
        Some(name) => {
            let new = names.add(name)?;
            Ok(if new { None } else { Some(name) })
        }
        None => Ok(None),
    }
}

/// Adds results of instructions until one is there already, and answers that one.
fn add_results<'a>(names: &mut NameSet<'a>, insts: &'a [Inst]) -> Result<Option<&'a Name>, NoMemory>
    ensures { IfOk result (λ r. Adds names.old names.new
        (insts_names insts.now) (option_copied r)) }
{
    for i in insts {
        match add_result(names, i)? {
            Some(name) => return Ok(Some(name)),
            None => {}
        }
    }
    Ok(None)
}

/// Adds the label and the results of a block until one is there already, and answers that one.
fn add_block<'a>(names: &mut NameSet<'a>, b: &'a Block) -> Result<Option<&'a Name>, NoMemory>
    ensures { IfOk result (λ r. Adds names.old names.new
        (block_names b.now) (option_copied r)) }
{
    if !names.add(&b.label)? {
        return Ok(Some(&b.label));
    }
    let first = add_results(names, b.insts.as_slice())?;
    Ok(first)
}

/// Adds what blocks define until one is there already, and answers that one.
fn add_blocks<'a>(
    names: &mut NameSet<'a>,
    blocks: &'a [Block],
) -> Result<Option<&'a Name>, NoMemory>
    ensures { IfOk result (λ r. Adds names.old names.new
        (flat_map block_names blocks.now) (option_copied r)) }
{
    for b in blocks {
        match add_block(names, b)? {
            Some(name) => return Ok(Some(name)),
            None => {}
        }
    }
    Ok(None)
}

/// The first local of a function that is defined a second time.
fn first_local<'a>(alloc: Global, f: &'a Function) -> Result<Option<&'a Name>, NoMemory>
    ensures { IfOk result (λ r. option_copied r ≡ first_name (repeated [] (local_names f.now))) }
{
    let mut names = NameSet::new(alloc);
    let param = names.add_all(f.params.as_slice())?;
    match param {
        Some(name) => Ok(Some(name)),
        None => {
            let first = add_blocks(&mut names, f.blocks.as_slice())?;
            Ok(first)
        }
    }
}

/// Adds the name of a function to `@` names. Answers it if it is there already, or else the first of
/// the function's locals that is defined a second time.
fn add_function<'a>(
    alloc: Global,
    names: &mut NameSet<'a>,
    f: &'a Function,
) -> Result<Option<Marked<'a>>, NoMemory>
    ensures first { IfOk result (λ r. r ≡ first_name (repeated_by names.old f.now)) }
    ensures added { IfOk result (λ r. r ≡ None → names.new ≡ names.old ++ f.now.name ∷ []) }
{
    if !names.add(&f.name)? {
        return Ok(Some(Marked::global(&f.name)));
    }
    let local = first_local(alloc, f)?;
    Ok(as_local(local))
}

/// The first of functions, behind `@` names, that is there already or has a local that is.
fn first_of_functions<'a>(
    alloc: Global,
    names: &mut NameSet<'a>,
    functions: &'a [Function],
) -> Result<Option<Marked<'a>>, NoMemory>
    ensures { IfOk result (λ r. r ≡ first_name (repeated_in names.old functions.now)) }
{
    for f in functions {
        match add_function(alloc, names, f)? {
            Some(marked) => return Ok(Some(marked)),
            None => {}
        }
    }
    Ok(None)
}

/// The first type that is defined a second time.
fn first_type<'a>(alloc: Global, whole: &'a Module) -> Result<Option<Marked<'a>>, NoMemory>
    ensures { IfOk result (λ r. r ≡
        first_name (map local_mark (repeated [] (type_names whole.now)))) }
{
    let mut names = NameSet::new(alloc);
    let first = names.add_all(whole.types.as_slice())?;
    Ok(as_local(first))
}

/// Adds globals and declarations until one is there already, and answers that one.
fn add_front<'a>(names: &mut NameSet<'a>, whole: &'a Module) -> Result<Option<&'a Name>, NoMemory>
    ensures { IfOk result (λ r. Adds names.old names.new
        (front_names whole.now) (option_copied r)) }
{
    let global = names.add_all(whole.globals.as_slice())?;
    match global {
        Some(name) => Ok(Some(name)),
        None => {
            let first = names.add_all(whole.externs.as_slice())?;
            Ok(first)
        }
    }
}

/// The first `@` name that is defined a second time, or the first local, whichever stands first.
fn first_symbol<'a>(alloc: Global, whole: &'a Module) -> Result<Option<Marked<'a>>, NoMemory>
    ensures { IfOk result (λ r. r ≡ first_name (repeated_symbols whole.now)) }
{
    let mut names = NameSet::new(alloc);
    let front = add_front(&mut names, whole)?;
    match front {
        Some(name) => Ok(Some(Marked::global(name))),
        None => {
            let first = first_of_functions(alloc, &mut names, whole.functions.as_slice())?;
            Ok(first)
        }
    }
}

/// The first name that is defined a second time, with its mark.
pub fn first_doubled(alloc: Global, whole: &Module) -> Result<Option<Name>, NoMemory>
    ensures { IfOk result (λ r. r ≡ first_name (doubled whole.now)) }
{
    let ty = first_type(alloc, whole)?;
    match ty {
        Some(marked) => owned(alloc, Some(marked)),
        None => {
            let symbol = first_symbol(alloc, whole)?;
            owned(alloc, symbol)
        }
    }
}
