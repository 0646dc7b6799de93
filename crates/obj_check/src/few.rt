//! Sizes: how many functions, pieces and slots, and how much code and data.
//!
//! This is rule 1, which is asked before anything else and alone of an object that may be of any size:
//! no sum is taken that might not fit. What passes has at most 67,108,864 bytes of code and as many of
//! data, so the other modules count in 32 bits.

ghost use Rattle.std.specs.Prelude.{◌≡◌, ◌+◌, ◌≤◌, ◌<◌, ◌^◌, ◌↔◌, IsTrue, length, sum, map};
ghost use Rattle.obj_core.specs.declared.object.Func.{Func as Function};
ghost use Rattle.obj_core.specs.WellFormed.{AreFew, most_code, most_data};

use obj_core::object::{
    Func, MOST_CODE, MOST_DATA, MOST_FUNCTIONS, MOST_PIECES, MOST_SLOTS, Object,
};

/// Whether an object has functions and slots, and none of its sizes is past its bound.
pub fn is_few(o: &Object) -> bool
    ensures { IsTrue result ↔ AreFew o.now }
{
    let functions = o.functions.len();
    let slots = o.slots.len();
    1 <= functions
        && functions <= MOST_FUNCTIONS
        && 1 <= slots
        && slots <= MOST_SLOTS
        && is_little_data(o)
        && is_little_code(o.functions.as_slice())
        && are_few_cuts(o.functions.as_slice(), MOST_PIECES - functions)
}

fn is_little_data(o: &Object) -> bool
    ensures { IsTrue result ↔ (length o.now.ro + length o.now.rw ≤ most_data) }
{
    let ro = o.ro.len();
    ro <= MOST_DATA && o.rw.len() <= MOST_DATA - ro
}

fn is_little_code(functions: &[Func]) -> bool
    ensures { IsTrue result ↔ (sum (map (λ (f : Function). length f.bytes) functions.now) ≤
        most_code) }
{
    let mut left = MOST_CODE;
    for function in functions {
        let size = function.bytes.len();
        if size > left {
            return false;
        }
        left -= size;
    }
    true
}

/// Whether functions have so many cuts at most, all together.
fn are_few_cuts(functions: &[Func], most: usize) -> bool
    ensures { IsTrue result ↔ (sum (map (λ (f : Function). length f.cuts) functions.now) ≤ most) }
{
    let mut left = most;
    for function in functions {
        let count = function.cuts.len();
        if count > left {
            return false;
        }
        left -= count;
    }
    true
}
