//! Ranges of registers that are taken to be in use in all of a function.

ghost use Rattle.std.specs.Prelude.{◌≡◌, ◌<◌, ◌^◌, IfOk, length, map};
ghost use Rattle.regalloc.specs.Whole.{range_where, AreListed};

use crate::range::Range;
use rd_num::list::List;
use rd_num::width::NoMemory;
use std::alloc::Global;

/// The range of a register, where it occurs. All of them have a position in common.
fn range_where(occurs: bool) -> Option<Range>
    ensures { result ≡ range_where occurs }
{
    if occurs {
        Some(Range { low: 0, high: 0 })
    } else {
        None
    }
}

/// For each register its range, where it occurs.
pub(crate) fn ranges_of(alloc: Global, seen: &[bool]) -> Result<List<Option<Range>>, NoMemory>
    ensures { IfOk result (λ rs. rs ≡ map range_where seen.now) }
{
    let mut ranges = List::new(alloc);
    for occurs in seen {
        ranges.add(range_where(*occurs))?;
    }
    Ok(ranges)
}

/// The registers that occur, in the order of their numbers.
pub(crate) fn order_of(alloc: Global, seen: &[bool]) -> Result<List<u32>, NoMemory>
    requires { length seen.now < 2 ^ 32 }
    ensures { IfOk result (λ order. AreListed seen.now (length seen.now) order) }
{
    let mut order = List::new(alloc);
    for r in 0..seen.len() {
        if seen[r] {
            order.add(r as u32)?;
        }
    }
    Ok(order)
}
