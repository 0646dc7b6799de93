//! Orders of numbers, and where each number stands in them.
//!
//! An order is a list in which each number below its length stands once, as `rd_draw` shuffles one.
//! Its inverse answers by number what the order answers by place, so that nothing is searched.

ghost use Rattle.std.specs.Prelude.{◌≡◌, ◌<◌, ◌^◌, ◌+◌, slice_index, length, IfOk, replicate, slice_set};
ghost use Rattle.obj_core.specs.Placement.{inverse};

use rd_num::list::List;
use rd_num::width::NoMemory;
use std::alloc::Global;

/// Where each number stands in an order. Time and memory are linear in it.
#[tactic(auto, using(crate::proofs::Inverse::found_none, crate::proofs::Inverse::found_more, crate::proofs::Inverse::found_all))]
pub fn inverted(alloc: Global, order: &[u32]) -> Result<List<u32>, NoMemory>
    requires { length order.now < 2 ^ 32 }
    ensures { IfOk result (λ all. all ≡ inverse order.now) }
{
    let n = order.len();
    let mut all = many(alloc, n as u32)?;
    for i in (0..n).rev() {
        put_number(&mut all, order[i] as usize, i as u32);
    }
    Ok(all)
}

/// Puts a number at an index, if it is one of the list. Takes no memory.
fn put_number(all: &mut List<u32>, at: usize, number: u32)
    ensures { all.new ≡ slice_set all.old at number }
{
    if at < all.len() {
        all.set(at, number);
    }
}

/// A number as often as it says.
fn many(alloc: Global, n: u32) -> Result<List<u32>, NoMemory>
    ensures { IfOk result (λ all. all ≡ replicate n n) }
{
    let mut all = List::new(alloc);
    for _ in 0..n {
        all.add(n)?;
    }
    Ok(all)
}
