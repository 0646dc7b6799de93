//! Homes of the registers of a small program.

use crate::lowered::valid_of;
use low_core::sel::Home;
use regalloc::allocate::allocate;
use std::alloc::Global;
use std::test::Fail;

/// A function of one parameter and one result, and `main`.
const TEXT: &[u8] = b"define i32 @f(i32 %a) { %b = add i32 %a, 1 ret i32 %b }
    define i32 @main() { ret i32 0 }";

/// The number of a home, where it is a colour.
fn color_of(home: Home) -> Option<u32> {
    match home {
        Home::Color(color) => Some(color),
        Home::Frame(_) => None,
    }
}

/// Whether the parameter and the result have the first colours, and there are homes for both
/// functions.
fn are_homes(alloc: Global) -> Option<bool> {
    let valid = valid_of(alloc, TEXT)?;
    let low = phi_lower::lower(alloc, &valid).ok()?;
    let lean = switch_lower::lower(alloc, &low).ok()?;
    let sel = isel::select(alloc, &lean).ok()?;
    let homes = allocate(alloc, &sel).ok()?;
    let functions = homes.homes.as_slice();
    if functions.len() != 2 {
        return Some(false);
    }
    match functions[0].as_slice() {
        [parameter, result, ..] => {
            Some(color_of(*parameter) == Some(0) && color_of(*result) == Some(1))
        }
        _ => Some(false),
    }
}

#[test]
fn parameters_and_results_have_colours(rt: HostRuntime) -> Result<(), Fail> {
    assert!(rt; are_homes(rt.alloc()) == Some(true));
    Ok(())
}
