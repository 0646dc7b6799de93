//! The first place of a whole module where a rule of types fails: globals, declarations, functions.

ghost use Rattle.std.specs.Prelude.{◌≡◌, [], IfOk};
ghost use Rattle.ir_core.specs.Built.{IsBuilt};
ghost use Rattle.ir_core.specs.Definitions.{doubled};
ghost use Rattle.ir_core.specs.Valid.{type_faults};
ghost use Rattle.ir_types.specs.Spots.{first_spot, global_faults, extern_faults, functions_faults};

use crate::init::fits_init;
use crate::spots::{first_in_function, fits_declaration};
use ir_core::limit::Spot;
use ir_core::tables::Tables;
use rd_num::width::NoMemory;
use std::alloc::Global;

/// The first global whose initialiser isn't of its type.
fn first_global(tables: &Tables) -> Option<Spot>
    requires { IsBuilt tables.now }
    ensures { result ≡ first_spot (global_faults tables.now) }
{
    let whole = tables.whole();
    for (k, g) in whole.globals.as_slice().iter().enumerate() {
        if !fits_init(tables, &g.init, &g.ty) {
            return Some(Spot::Global(k as u32));
        }
    }
    None
}

/// The first declaration whose types aren't those of one.
fn first_extern(tables: &Tables) -> Option<Spot>
    requires { IsBuilt tables.now }
    ensures { result ≡ first_spot (extern_faults tables.now) }
{
    let whole = tables.whole();
    for (k, e) in whole.externs.as_slice().iter().enumerate() {
        if !fits_declaration(e) {
            return Some(Spot::Extern(k as u32));
        }
    }
    None
}

/// The first place of functions.
fn first_of_functions(alloc: Global, tables: &Tables) -> Result<Option<Spot>, NoMemory>
    requires built { IsBuilt tables.now }
    requires apart { doubled tables.now ≡ [] }
    ensures { IfOk result (λ r. r ≡ first_spot (functions_faults tables.now)) }
{
    let whole = tables.whole();
    for (k, f) in whole.functions.as_slice().iter().enumerate() {
        match first_in_function(alloc, tables, k as u32, f)? {
            Some(spot) => return Ok(Some(spot)),
            None => {}
        }
    }
    Ok(None)
}

/// The first place of a module.
pub fn first_fault(alloc: Global, tables: &Tables) -> Result<Option<Spot>, NoMemory>
    requires built { IsBuilt tables.now }
    requires apart { doubled tables.now ≡ [] }
    ensures { IfOk result (λ r. r ≡ first_spot (type_faults tables.now)) }
{
    match first_global(tables) {
        Some(spot) => Ok(Some(spot)),
        None => match first_extern(tables) {
            Some(spot) => Ok(Some(spot)),
            None => first_of_functions(alloc, tables),
        },
    }
}
