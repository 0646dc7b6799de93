//! The rule of branches: links stand in order at displacements of 0 and name slots, and every other
//! branch goes to the start of an instruction.
//!
//! A function and its notes come in, the least offset at which the rule fails goes out. The function is
//! decoded once more, since a branch forwards can only be judged when all starts are known. Offsets
//! count bytes from the function's start.

ghost use Rattle.std.specs.Prelude.{◌≡◌, ◌++◌, ◌+◌, ◌≤◌, ◌||◌, if◌then◌else◌, None, IfOk, length};
ghost use Rattle.x86_core.specs.Arithmetic.{moved};
ghost use Rattle.obj_core.specs.Disassembly.{found, disassembly_of};
ghost use Rattle.obj_core.specs.WellFormed.{displacement, is_good_link, bad_links, is_linked, goes_well, bad_branches, most_code};
ghost use Rattle.obj_check.specs.Disassembled.{IsNoted};
ghost use Rattle.obj_check.specs.Least.{lesser_of, least_with};
ghost use Rattle.obj_check.specs.Failing.{MarksBelow};

use crate::asked::displacement;
use crate::instr_at::{InstrAt, instr_at};
use crate::marks::{Table, blank, is_marked, mark};
use crate::notes::{Notes, lesser};
use obj_core::object::{Func, Link};
use rd_num::width::NoMemory;
use std::alloc::Global;

/// The least offset of a link or a branch that the rule doesn't allow.
pub fn first_bad_branch(
    alloc: Global,
    slots: usize,
    function: &Func,
    notes: &Notes,
) -> Result<Option<u32>, NoMemory>
    requires noted { IsNoted function.now.bytes notes.now }
    requires few { length function.now.bytes ≤ most_code }
    ensures { IfOk result (λ r. r ≡ least_with None
        (bad_links None (found (disassembly_of function.now.bytes)) slots function.now.links ++
        bad_branches function.now.links (found (disassembly_of function.now.bytes))
        (found (disassembly_of function.now.bytes)))) }
{
    let linked = linked_of(alloc, function)?;
    let least = first_bad_link(function, notes, slots);
    Ok(first_bad_goal(function, notes, &linked, least))
}

/// The places at which the four bytes of a link end.
fn linked_of(alloc: Global, function: &Func) -> Result<Table, NoMemory>
    ensures { IfOk result (λ t. MarksBelow (length function.now.bytes + 1) t
        (is_linked function.now.links)) }
{
    let mut linked = blank(alloc, function.bytes.len())?;
    let links = function.links.as_slice();
    for link in links {
        mark(&mut linked, link.at as usize + 4);
    }
    Ok(linked)
}

/// Whether a link stands behind the one before it, at a displacement of 0, and names a slot.
fn is_good_link(
    function: &Func,
    notes: &Notes,
    slots: usize,
    before: Option<u32>,
    link: Link,
) -> bool
    requires { IsNoted function.now.bytes notes.now }
    ensures { result ≡ is_good_link before (found (disassembly_of function.now.bytes)) slots link }
{
    let fills = is_marked(&notes.zeros, link.at as usize + 4) && (link.slot as usize) < slots;
    match before {
        None => fills,
        Some(last) => last < link.at && fills,
    }
}

/// The least place of a link that isn't good.
fn first_bad_link(function: &Func, notes: &Notes, slots: usize) -> Option<u32>
    requires { IsNoted function.now.bytes notes.now }
    ensures { result ≡ least_with None (bad_links None
        (found (disassembly_of function.now.bytes)) slots function.now.links) }
{
    let mut least = None;
    let mut before = None;
    let links = function.links.as_slice();
    for link in links {
        if !is_good_link(function, notes, slots, before, *link) {
            least = lesser(least, link.at);
        }
        before = Some(link.at);
    }
    least
}

/// Whether an instruction is no branch, or goes to the start of an instruction.
fn goes_well(function: &Func, notes: &Notes, here: &InstrAt) -> bool
    requires { IsNoted function.now.bytes notes.now }
    ensures { result ≡ goes_well (found (disassembly_of function.now.bytes)) here.now.end
        (displacement here.now.instr) }
{
    match displacement(&here.instr) {
        None => true,
        Some(by) => is_marked(&notes.starts, moved_by(here.end, by) as usize),
    }
}

/// A place moved by a displacement, modulo 2^64.
fn moved_by(place: u32, by: i32) -> u64
    ensures { result ≡ moved place by }
{
    (place as u64).wrapping_add_signed(by as i64)
}

/// The least of an offset and that of an instruction that has no link and goes to no instruction.
fn with_goal(
    function: &Func,
    notes: &Notes,
    linked: &Table,
    least: Option<u32>,
    here: &InstrAt,
) -> Option<u32>
    requires noted { IsNoted function.now.bytes notes.now }
    requires linked { MarksBelow (length function.now.bytes + 1) linked.now
        (is_linked function.now.links) }
    requires inside { here.now.end ≤ length function.now.bytes }
    ensures { result ≡ (if is_linked function.now.links here.now.end ||
        goes_well (found (disassembly_of function.now.bytes)) here.now.end
        (displacement here.now.instr) then least else lesser_of least here.now.at) }
{
    if is_marked(linked, here.end as usize) || goes_well(function, notes, here) {
        least
    } else {
        lesser(least, here.at)
    }
}

/// The least of an offset and those of branches that have no link and go to no instruction.
fn first_bad_goal(
    function: &Func,
    notes: &Notes,
    linked: &Table,
    before: Option<u32>,
) -> Option<u32>
    requires noted { IsNoted function.now.bytes notes.now }
    requires few { length function.now.bytes ≤ most_code }
    requires linked { MarksBelow (length function.now.bytes + 1) linked.now
        (is_linked function.now.links) }
    ensures { result ≡ least_with before (bad_branches function.now.links
        (found (disassembly_of function.now.bytes)) (found (disassembly_of function.now.bytes))) }
{
    let bytes = function.bytes.as_slice();
    let mut least = before;
    let mut at = 0;
    while let Some(here) = instr_at(bytes, at) {
        least = with_goal(function, notes, linked, least, &here);
        at = here.end as usize;
    }
    least
}
