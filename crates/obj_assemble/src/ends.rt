//! The ends of jumps, by the slots to which they are linked.

ghost use Rattle.std.specs.Prelude.{◌≡◌, ◌+◌, ◌<◌, ◌≤◌, ◌^◌, length, replicate, Some, None, IfOk};
ghost use Rattle.obj_core.specs.declared.object.Func.{Func as OneFunc};
ghost use Rattle.obj_core.specs.Object.{Each};
ghost use Rattle.obj_assemble.specs.Linked.{IsLinkTo};
ghost use Rattle.obj_assemble.specs.Noted.{noted, all_noted};

use obj_core::object::{CodeAt, Func, Link};
use rd_num::list::List;
use rd_num::width::NoMemory;
use std::alloc::Global;

/// No end for each of so many slots.
fn no_ends(alloc: Global, count: usize) -> Result<List<Option<CodeAt>>, NoMemory>
    ensures { IfOk result (λ l. l ≡ replicate count None) }
{
    let mut all = List::new(alloc);
    for _slot in 0..count {
        all.add(None)?;
    }
    Ok(all)
}

/// Notes the ends of a function's jumps.
fn note(ends: &mut List<Option<CodeAt>>, function: u32, links: &[Link])
    requires { Each (IsLinkTo (length ends.old)) links.now }
    ensures { ends.new ≡ noted function links.now ends.old }
{
    for l in links {
        let end = CodeAt {
            function,
            offset: l.at + 4,
        };
        ends.set(l.slot as usize, Some(end));
    }
}

/// The end of a jump to each of so many slots, where there is one.
pub fn ends_of(
    alloc: Global,
    slots: usize,
    functions: &[Func],
) -> Result<List<Option<CodeAt>>, NoMemory>
    requires few { length functions.now < 2 ^ 32 }
    requires inside { Each (λ (f : OneFunc). Each (IsLinkTo slots) f.links) functions.now }
    ensures { IfOk result (λ l. l ≡ all_noted 0 functions.now (replicate slots None)) }
{
    let mut ends = no_ends(alloc, slots)?;
    for n in 0..functions.len() {
        note(&mut ends, n as u32, functions[n].links.as_slice());
    }
    Ok(ends)
}
