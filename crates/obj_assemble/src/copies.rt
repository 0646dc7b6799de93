//! Copies of functions.

ghost use Rattle.std.specs.Prelude.{◌≡◌, ◌++◌, OnOk, IfOk};

use obj_core::object::{Func, Link};
use rd_num::list::List;
use rd_num::width::NoMemory;
use std::alloc::Global;

/// The same bytes.
fn bytes(alloc: Global, from: &[u8]) -> Result<List<u8>, NoMemory>
    ensures { IfOk result (λ l. l ≡ from.now) }
{
    let mut all = List::new(alloc);
    all.append(from)?;
    Ok(all)
}

/// The same links.
fn links(alloc: Global, from: &[Link]) -> Result<List<Link>, NoMemory>
    ensures { IfOk result (λ l. l ≡ from.now) }
{
    let mut all = List::new(alloc);
    for l in from {
        all.add(*l)?;
    }
    Ok(all)
}

/// The same cuts.
fn cuts(alloc: Global, from: &[u32]) -> Result<List<u32>, NoMemory>
    ensures { IfOk result (λ l. l ≡ from.now) }
{
    let mut all = List::new(alloc);
    for at in from {
        all.add(*at)?;
    }
    Ok(all)
}

/// The same function.
fn function(alloc: Global, from: &Func) -> Result<Func, NoMemory>
    ensures { IfOk result (λ f. f ≡ from.now) }
{
    let bytes = bytes(alloc, from.bytes.as_slice())?;
    let links = links(alloc, from.links.as_slice())?;
    let cuts = cuts(alloc, from.cuts.as_slice())?;
    Ok(Func {
        kind: from.kind,
        bytes,
        links,
        cuts,
    })
}

/// Adds copies of functions behind others.
pub fn add_copies(alloc: Global, all: &mut List<Func>, from: &[Func]) -> Result<(), NoMemory>
    ensures { OnOk result (all.new ≡ all.old ++ from.now) }
{
    for f in from {
        all.add(function(alloc, f)?)?;
    }
    Ok(())
}
