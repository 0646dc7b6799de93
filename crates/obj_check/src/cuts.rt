//! The rule of cuts: they rise from above 0, and each stands where one instruction begins and one that
//! lets nothing run on ends.
//!
//! A function and its notes come in, the first cut in the list's order that the rule doesn't allow goes
//! out. Each cut is one look at two tables, so time is linear in the cuts. Offsets count bytes from the
//! function's start.

ghost use Rattle.std.specs.Prelude.{◌≡◌, None};
ghost use Rattle.obj_core.specs.Disassembly.{found, disassembly_of};
ghost use Rattle.obj_core.specs.WellFormed.{is_good_cut, bad_cut};
ghost use Rattle.obj_check.specs.Disassembled.{IsNoted};
ghost use Rattle.obj_check.specs.Least.{least_with};

use crate::marks::is_marked;
use crate::notes::Notes;
use obj_core::object::Func;

/// Whether a cut is behind the one before it, where one instruction begins and one that lets nothing
/// run on ends.
fn is_good_cut(function: &Func, notes: &Notes, before: u32, cut: u32) -> bool
    requires { IsNoted function.now.bytes notes.now }
    ensures { result ≡ is_good_cut before (found (disassembly_of function.now.bytes)) cut }
{
    let place = cut as usize;
    let between = is_marked(&notes.starts, place) && is_marked(&notes.stops, place);
    before < cut && between
}

/// The first cut of a function that isn't good.
pub fn first_bad_cut(function: &Func, notes: &Notes) -> Option<u32>
    requires { IsNoted function.now.bytes notes.now }
    ensures { result ≡ least_with None (bad_cut 0 (found (disassembly_of function.now.bytes))
        function.now.cuts) }
{
    let mut before = 0;
    let cuts = function.cuts.as_slice();
    for cut in cuts {
        if !is_good_cut(function, notes, before, *cut) {
            return Some(*cut);
        }
        before = *cut;
    }
    None
}
