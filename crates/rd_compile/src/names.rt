//! Names of registers that live across calls, for each function.

ghost use Rattle.std.specs.Prelude.{◌≡◌, length, IfOk};
ghost use Rattle.rd_compile.specs.Own.{drawn_names};

use rd_num::list::List;
use rd_num::width::NoMemory;
use std::alloc::Global;
use x86_core::reg::Reg;

/// The names that the register seed draws for each of so many functions.
#[tactic(auto, using(crate::proofs::OwnHomes::names_long))]
pub fn names(alloc: Global, reg_seed: u64, count: u32) -> Result<List<[Reg; 5]>, NoMemory>
    ensures is { IfOk result (λ l. l ≡ drawn_names reg_seed count) }
    ensures long { IfOk result (λ l. length l ≡ count) }
{
    let mut all = List::new(alloc);
    for n in 0..count {
        all.add(reg_permute::names(alloc, reg_seed, n)?)?;
    }
    Ok(all)
}
