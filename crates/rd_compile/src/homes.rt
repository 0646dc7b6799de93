//! Homes of registers: each lives in a word of its own in the frame.

ghost use Rattle.std.specs.Prelude.{◌≡◌, IfOk};
ghost use Rattle.frame_lower.specs.Given.{AreInFrame, HavePlaces};
ghost use Rattle.frame_lower.specs.Planned.{HaveOwn};
ghost use Rattle.rd_compile.specs.Own.{own_words, own_homes};

use low_core::sel::{Home, Homes, Sel, SelFun};
use rd_num::list::List;
use rd_num::width::NoMemory;
use std::alloc::Global;

/// A word of the frame for each of so many registers.
fn words(alloc: Global, count: u32) -> Result<List<Home>, NoMemory>
    ensures { IfOk result (λ l. l ≡ own_words count) }
{
    let mut all = List::new(alloc);
    for x in 0..count {
        all.add(Home::Frame(x))?;
    }
    Ok(all)
}

/// The homes of the registers of functions.
fn homes_of(alloc: Global, functions: &[SelFun]) -> Result<List<List<Home>>, NoMemory>
    ensures { IfOk result (λ l. l ≡ own_homes functions.now) }
{
    let mut all = List::new(alloc);
    for f in functions {
        all.add(words(alloc, f.registers)?)?;
    }
    Ok(all)
}

/// The homes of all registers of a program, words of frames. Time and memory are linear in the
/// registers.
#[tactic(auto, using(crate::proofs::OwnHomes::homes_own, crate::proofs::OwnHomes::homes_placed, crate::proofs::OwnHomes::homes_framed))]
pub fn homes(alloc: Global, sel: &Sel) -> Result<Homes, NoMemory>
    ensures is { IfOk result (λ h. h.homes ≡ own_homes sel.now.functions) }
    ensures own { IfOk result (λ h. HaveOwn sel.now.functions h.homes) }
    ensures places { IfOk result (λ h. HavePlaces sel.now.functions h.homes) }
    ensures in_frame { IfOk result (λ h. AreInFrame h.homes) }
{
    let homes = homes_of(alloc, sel.functions.as_slice())?;
    Ok(Homes { homes })
}
