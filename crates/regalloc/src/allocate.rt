//! Homes of a program's registers.

ghost use Rattle.std.specs.Prelude.{◌≡◌, IfOk, length};
ghost use Rattle.low_core.specs.SelShaped.{IsSel};
ghost use Rattle.regalloc.specs.Allocated.{Each, HasAll, AreApartIn, AreColorsOf, AreFramesOf};

use crate::occurs::occurring;
use crate::scan::scan;
use crate::whole::{order_of, ranges_of};
use low_core::sel::{Home, Homes, Sel, SelFun};
use rd_num::list::List;
use rd_num::width::NoMemory;
use std::alloc::Global;

/// The homes of a function's registers.
fn homes_of(alloc: Global, f: &SelFun) -> Result<List<Home>, NoMemory>
    ensures long { IfOk result (λ hs. HasAll f.now hs) }
    ensures apart { IfOk result (λ hs. AreApartIn f.now hs) }
    ensures colors { IfOk result (λ hs. AreColorsOf f.now hs) }
    ensures frames { IfOk result (λ hs. AreFramesOf f.now hs) }
{
    let seen = occurring(alloc, f)?;
    let ranges = ranges_of(alloc, seen.as_slice())?;
    let order = order_of(alloc, seen.as_slice())?;
    scan(alloc, ranges.as_slice(), order.as_slice())
}

/// The homes of all registers of each function.
pub fn allocate(alloc: Global, sel: &Sel) -> Result<Homes, NoMemory>
    requires { IsSel sel.now }
    ensures long { IfOk result (λ h. Each HasAll sel.now.functions h.homes) }
    ensures functions { IfOk result (λ h. length h.homes ≡ length sel.now.functions) }
    ensures apart { IfOk result (λ h. Each AreApartIn sel.now.functions h.homes) }
    ensures colors { IfOk result (λ h. Each AreColorsOf sel.now.functions h.homes) }
    ensures frames { IfOk result (λ h. Each AreFramesOf sel.now.functions h.homes) }
{
    let mut homes = List::new(alloc);
    for f in sel.functions.as_slice() {
        homes.add(homes_of(alloc, f)?)?;
    }
    Ok(Homes { homes })
}
