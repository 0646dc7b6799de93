//! Whole programs on numbered registers.

ghost use Rattle.std.specs.Prelude.{◌≡◌, ◌++◌, [], All, ℕ, List as Row, codes, length, map, IfOk};
ghost use Rattle.std.specs.List.{flat_map, list_any};
ghost use Rattle.ir_core.specs.declared.module.Function.{Function as OneFunction};
ghost use Rattle.ir_core.specs.Definitions.{repeated};
ghost use Rattle.ir_core.specs.Names.{same_name};
ghost use Rattle.ir_core.specs.Operands.{function_number};
ghost use Rattle.low_core.specs.declared.moves.Body.{Body as OneBody};
ghost use Rattle.low_core.specs.declared.moves.Chunk.{Chunk as OneChunk};
ghost use Rattle.low_core.specs.Plain.{with_bodies};
ghost use Rattle.low_core.specs.Shaped.{IsLean};
ghost use Rattle.isel_rows.specs.Functions.{function_selected};
ghost use Rattle.isel_rows.specs.Selected.{selected};
ghost use Rattle.isel_rows.specs.Symbols.{body_symbols, global_symbols};
ghost use Rattle.isel_rows.specs.Variables.{number_or_first};

use crate::function::select_function;
use crate::symbols::Symbols;
use ir_context::context::Context;
use ir_core::module::{Function, Module};
use ir_core::names::NameSet;
use ir_core::ty::Name;
use low_core::moves::{Body, Lean};
use low_core::sel::{Sel, SelFun};
use rd_num::list::List;
use rd_num::width::NoMemory;
use std::alloc::Global;

/// Functions with their bodies.
fn select_functions(
    alloc: Global,
    context: &Context,
    functions: &[Function],
    bodies: &[Body],
) -> Result<List<SelFun>, NoMemory>
    requires one_each { length bodies.now ≡ length functions.now }
    requires labels { All (λ (b : OneBody). repeated [] (map (λ (c : OneChunk). c.label) b.chunks)
        ≡ []) bodies.now }
    ensures { IfOk result (λ l. l ≡
        map (function_selected context.now) (with_bodies functions.now bodies.now)) }
{
    let mut all = List::new(alloc);
    for k in 0..bodies.len() {
        all.add(select_function(alloc, context, &functions[k], &bodies[k])?)?;
    }
    Ok(all)
}

/// For each function whether its name is one of these.
fn named_functions(
    alloc: Global,
    names: &NameSet,
    functions: &[Function],
) -> Result<List<bool>, NoMemory>
    ensures { IfOk result (λ l. l ≡
        map (λ (f : OneFunction). list_any (same_name f.name) names.now) functions.now) }
{
    let mut all = List::new(alloc);
    for f in functions {
        all.add(names.has(&f.name))?;
    }
    Ok(all)
}

/// The names that a program uses as values, each once.
fn names_used<'a>(
    alloc: Global,
    base: &'a Module,
    bodies: &'a [Body],
) -> Result<NameSet<'a>, NoMemory>
    ensures { IfOk result (λ s. (n : Row ℕ) → list_any (same_name n) s ≡ list_any (same_name n)
        (flat_map global_symbols base.now.globals ++ flat_map body_symbols bodies.now)) }
{
    let mut symbols = Symbols::new(alloc);
    symbols.add_globals(base.globals.as_slice())?;
    symbols.add_bodies(bodies)?;
    let all = symbols.set(alloc)?;
    Ok(all)
}

/// The number of the function `main`; there is one in each program that keeps the rules.
fn main_number(alloc: Global, context: &Context) -> Result<u32, NoMemory>
    ensures { IfOk result (λ k. k ≡
        number_or_first (function_number context.now (codes "main"))) }
{
    let mut name = Name::new(alloc);
    name.append(b"main")?;
    match context.function(&name) {
        Some(k) => Ok(k),
        None => Ok(0),
    }
}

/// The program of registers that a program without switches becomes.
pub fn select_program<'a>(alloc: Global, lean: &Lean<'a>) -> Result<Sel, NoMemory>
    requires { IsLean lean.now }
    ensures { IfOk result (λ sel. sel ≡ selected lean.now.base.now lean.now.bodies) }
{
    let base = lean.base;
    let bodies = lean.bodies.as_slice();
    let context = Context::new(alloc, base)?;
    let names = names_used(alloc, base, bodies)?;
    let taken = named_functions(alloc, &names, base.functions.as_slice())?;
    let functions = select_functions(alloc, &context, base.functions.as_slice(), bodies)?;
    let main = main_number(alloc, &context)?;
    Ok(Sel {
        functions,
        main,
        taken,
    })
}
