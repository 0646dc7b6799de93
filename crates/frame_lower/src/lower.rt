//! The functions of a program, one after another.

ghost use Rattle.std.specs.Prelude.{◌≡◌, ◌+◌, ◌<◌, ◌≤◌, ◌^◌, [], length, get_or, All, IfOk};
ghost use Rattle.low_core.specs.declared.sel.SelFun.{SelFun as OneFun};
ghost use Rattle.low_core.specs.SelShaped.{IsSel};
ghost use Rattle.obj_rows.specs.Assembled.{most_cuts, with_first_cuts};
ghost use Rattle.slot_plan.specs.Slots.{takens};
ghost use Rattle.frame_lower.specs.Functions.{functions_with, lowered};
ghost use Rattle.frame_lower.specs.Given.{HavePlaces, IsSmall, calls_of_functions};

use crate::program::{Shared, addresses};
use low_core::sel::{Home, Homes, Sel, SelFun};
use obj_core::object::Func;
use obj_core::plan::{Placing, SlotPlan};
use rd_num::list::List;
use rd_num::width::NoMemory;
use std::alloc::Global;
use x86_core::reg::Reg;

/// The functions to which a pointer may arise, counted.
fn pointed(taken: &[bool]) -> u32
    requires { length taken.now < 2 ^ 20 }
    ensures { result ≡ takens taken.now }
{
    let mut count = 0;
    for is_taken in taken {
        if *is_taken {
            count += 1;
        }
    }
    count
}

/// The names of a function's colours.
fn names_of<'a>(names: &'a [[Reg; 5]], number: usize) -> &'a [Reg]
    requires { number < length names.now }
    ensures { result.now ≡ get_or names.now number [] }
{
    &names[number]
}

impl<'a> Shared<'a> {
    /// Functions with so many of their cuts, whose calls go by the slots from one on.
    fn functions(
        &self,
        alloc: Global,
        first: u32,
        most: usize,
        names: &[[Reg; 5]],
        homes: &[List<Home>],
        functions: &[SelFun],
    ) -> Result<List<Func>, NoMemory>
        requires small { All (λ (f : OneFun). IsSmall f) functions.now }
        requires places { HavePlaces functions.now homes.now }
        requires names { length names.now ≡ length functions.now }
        requires few { length functions.now < 2 ^ 20 }
        requires slots { first + calls_of_functions functions.now < 2 ^ 32 }
        ensures { IfOk result (λ l. l ≡ with_first_cuts most (functions_with self.now.globals.now
            self.now.functions.now self.now.reg_seed names.now homes.now 0 first functions.now)) }
    {
        let mut all = List::new(alloc);
        let mut slot = first;
        let mut left = most;
        for n in 0..functions.len() {
            let f = self.function(
                alloc,
                n as u32,
                slot,
                left,
                names_of(names, n),
                homes[n].as_slice(),
                &functions[n],
            )?;
            slot += f.links.len() as u32;
            left -= f.cuts.len();
            all.add(f)?;
        }
        Ok(all)
    }
}

/// How many cuts are kept.
const MOST_CUTS: usize = 100_000;

/// The functions of a program, in its order, with the homes of their registers, the names of their
/// colours, and the addresses of globals, functions and slots. The first 100,000 cuts are kept.
pub fn lower(
    alloc: Global,
    sel: &Sel,
    homes: &Homes,
    reg_seed: u64,
    names: &List<[Reg; 5]>,
    placing: &Placing,
    slots: &SlotPlan,
) -> Result<List<Func>, NoMemory>
    requires shaped { IsSel sel.now }
    requires places { HavePlaces sel.now.functions homes.now.homes }
    requires names { length names.now ≡ length sel.now.functions }
    ensures is { IfOk result (λ l. l ≡ with_first_cuts most_cuts (lowered (record {
      homes = homes.now.homes;
      reg_seed = reg_seed;
      names = names.now;
      placing = placing.now;
      slots = slots.now;
    }) sel.now)) }
{
    let functions = addresses(alloc, slots.pointers.as_slice())?;
    let shared = Shared {
        globals: placing.globals.as_slice(),
        functions: functions.as_slice(),
        reg_seed,
    };
    let first = pointed(sel.taken.as_slice()) + 1;
    let all = shared.functions(
        alloc,
        first,
        MOST_CUTS,
        names.as_slice(),
        homes.homes.as_slice(),
        sel.functions.as_slice(),
    )?;
    Ok(all)
}
