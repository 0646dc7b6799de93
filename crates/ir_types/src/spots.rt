//! The places of a module where a rule of types fails, in the order of its text: the first of them.
//!
//! Globals come first, then declarations, then functions, each in front of what is in it; a block's
//! terminator comes behind its instructions. Numbers count from 0.

ghost use Rattle.std.specs.Prelude.{◌≡◌, ◌<◌, ◌^◌, [], length, IfOk, IsTrue};
ghost use Rattle.std.specs.List.{list_all, flat_map, enumerate_from};
ghost use Rattle.ir_core.specs.Built.{block_built, blocks_built, function_built};
ghost use Rattle.ir_core.specs.Definitions.{repeated, local_names};
ghost use Rattle.ir_core.specs.Valid.{is_phi, alloca_fits, unless, end_fits, function_fits, declaration_fits, init_fits, faults_in_block, faults_in_function};
ghost use Rattle.ir_core.specs.declared.module.Param.{Param as OneParam};
ghost use Rattle.ir_core.specs.Kinds.{kind_of};
ghost use Rattle.ir_core.specs.Typing.{is_value};
ghost use Rattle.ir_types.specs.Spots.{HasSources, phi_placed, inst_placed, insts_faults, first_spot};
ghost use Rattle.ir_types.specs.Flow.{rows_of};

use crate::end::{have_apart, leaves_entry};
use crate::flow::Flow;
use crate::kinds::{can_result, has_values};
use crate::op::{fits_op, fits_result, fits_term};
use crate::phi::fits_edges;
use ir_core::instruction::{Inst, Op, Term};
use ir_core::kind::Kind;
use ir_core::limit::Spot;
use ir_core::module::{Block, Extern, Function, Param};
use ir_core::names::NameSet;
use ir_core::scope::{Scope, result_kind};
use ir_core::tables::Tables;
use ir_core::ty::Ty;
use rd_num::width::NoMemory;
use std::alloc::Global;

/// Whether an instruction is a phi. Takes no memory.
fn is_a_phi(op: &Op) -> bool
    ensures { result ≡ is_phi op.now }
{
    match op {
        Op::Phi(_, _) => true,
        _ => false,
    }
}

/// Whether a phi stands behind phis alone and its entries are for a row of labels.
fn fits_phi(alloc: Global, row: &NameSet, early: bool, op: &Op) -> Result<bool, NoMemory>
    ensures { IfOk result (λ r. r ≡ phi_placed row.now early op.now) }
{
    match op {
        Op::Phi(_, entries) => {
            if early {
                fits_edges(alloc, row, entries.as_slice())
            } else {
                Ok(false)
            }
        }
        _ => Ok(true),
    }
}

/// Whether an alloca stands in the first block. Takes no memory.
fn fits_alloca(number: u32, op: &Op) -> bool
    ensures { result ≡ alloca_fits number op.now }
{
    match op {
        Op::Alloca(_, _) => number == 0,
        _ => true,
    }
}

/// What is known of the block in which an instruction stands.
#[derive(Clone, Copy)]
struct Site<'b, 'm, 'f> {
    tables: &'b Tables<'m>,
    scope: &'b Scope<'f>,
    row: &'b NameSet<'f>,
    function: u32,
    number: u32,
}

/// Whether an instruction fits where it stands.
fn fits_site(alloc: Global, site: &Site, early: bool, i: &Inst) -> Result<bool, NoMemory>
    ensures { IfOk result (λ r. r ≡ inst_placed site.now.tables.now site.now.scope.now
        site.now.row.now site.now.number early i.now) }
{
    let typed = fits_op(site.tables, site.scope, &i.op)
        && fits_result(&i.result, result_kind(&i.op));
    let placed = fits_phi(alloc, site.row, early, &i.op)?;
    Ok(typed && (placed && fits_alloca(site.number, &i.op)))
}

/// The first place of instructions that fails.
fn first_inst(alloc: Global, site: &Site, insts: &[Inst]) -> Result<Option<Spot>, NoMemory>
    requires { length insts.now < 2 ^ 32 }
    ensures { IfOk result (λ r. r ≡ first_spot
        (insts_faults site.now.tables.now site.now.scope.now site.now.row.now site.now.function
        site.now.number insts.now)) }
{
    let mut early = true;
    for (k, i) in insts.iter().enumerate() {
        if !fits_site(alloc, site, early, i)? {
            return Ok(Some(Spot::Inst(site.function, site.number, k as u32)));
        }
        early = early && is_a_phi(&i.op);
    }
    Ok(None)
}

/// Whether a terminator fits.
fn fits_end(alloc: Global, tables: &Tables, scope: &Scope, end: &Term) -> Result<bool, NoMemory>
    ensures { IfOk result (λ r. r ≡ end_fits tables.now scope.now end.now) }
{
    let function = scope.function();
    let typed = fits_term(tables, scope, Kind::of(&function.ret), end);
    let apart = have_apart(alloc, end)?;
    Ok(typed && (apart && leaves_entry(function.blocks.as_slice(), end)))
}

/// Whether types are those of values.
fn are_values(types: &[Ty]) -> bool
    ensures { result ≡ list_all (λ t. is_value (kind_of t)) types.now }
{
    for t in types {
        if !has_values(Kind::of(t)) {
            return false;
        }
    }
    true
}

/// Whether parameters are of types with values.
fn takes_values(params: &[Param]) -> bool
    ensures { result ≡ list_all (λ (p : OneParam). is_value (kind_of p.ty)) params.now }
{
    for p in params {
        if !has_values(Kind::of(&p.ty)) {
            return false;
        }
    }
    true
}

/// Whether a function gives void or a value, and takes values.
fn fits_function(f: &Function) -> bool
    ensures { result ≡ function_fits f.now }
{
    can_result(&f.ret) && takes_values(f.params.as_slice())
}

/// Whether a declaration gives void or a value, and takes values.
pub fn fits_declaration(e: &Extern) -> bool
    ensures { result ≡ declaration_fits e.now }
{
    can_result(&e.ret) && are_values(e.params.as_slice())
}

/// A place, unless what stands there fits. Takes no memory.
fn spot_unless(fits: bool, at: Spot) -> Option<Spot>
    ensures { result ≡ first_spot (unless fits at) }
{
    if fits { None } else { Some(at) }
}

/// The first place of a block that fails, where the rows are those of its function.
fn first_in_block(alloc: Global, site: &Site, b: &Block) -> Result<Option<Spot>, NoMemory>
    requires built { IsTrue (block_built b.now) }
    requires sources { HasSources site.now.scope.now b.now site.now.row.now }
    ensures { IfOk result (λ r. r ≡ first_spot
        (faults_in_block site.now.tables.now site.now.scope.now site.now.function
        (site.now.number, b.now))) }
{
    let in_insts = first_inst(alloc, site, b.insts.as_slice())?;
    match in_insts {
        Some(spot) => Ok(Some(spot)),
        None => {
            let fits = fits_end(alloc, site.tables, site.scope, &b.end)?;
            let at = Spot::Inst(site.function, site.number, b.insts.len() as u32);
            Ok(spot_unless(fits, at))
        }
    }
}

/// The first place of a function's blocks that fails.
fn first_block<'b, 'm, 'f>(
    alloc: Global,
    tables: &'b Tables<'m>,
    scope: &'b Scope<'f>,
    flow: &'b Flow<'f>,
    number: u32,
) -> Result<Option<Spot>, NoMemory>
    requires built { IsTrue (blocks_built scope.now.blocks) }
    requires rows { flow.now.rows.items ≡ rows_of scope.now.blocks }
    ensures { IfOk result (λ r. r ≡ first_spot
        (flat_map (faults_in_block tables.now scope.now number)
        (enumerate_from 0 scope.now.blocks))) }
{
    let none = NameSet::new(alloc);
    let function = scope.function();
    for (k, b) in function.blocks.as_slice().iter().enumerate() {
        let site = Site {
            tables: &*tables,
            scope: &*scope,
            row: (&*flow).row(&*scope, &b.label, &none),
            function: number,
            number: k as u32,
        };
        match first_in_block(alloc, &site, b)? {
            Some(spot) => return Ok(Some(spot)),
            None => {}
        }
    }
    Ok(None)
}

/// The first place of a function that fails, its own types first.
pub fn first_in_function(
    alloc: Global,
    tables: &Tables,
    number: u32,
    f: &Function,
) -> Result<Option<Spot>, NoMemory>
    requires built { IsTrue (function_built f.now) }
    requires apart { repeated [] (local_names f.now) ≡ [] }
    ensures { IfOk result (λ r. r ≡ first_spot (faults_in_function tables.now (number, f.now))) }
{
    if !fits_function(f) {
        return Ok(Some(Spot::Function(number)));
    }
    let scope = Scope::new(alloc, f)?;
    let flow = Flow::new(alloc, &scope, f.blocks.as_slice())?;
    first_block(alloc, tables, &scope, &flow, number)
}
