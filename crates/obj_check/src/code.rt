//! The rules of code: the first function in which a rule fails, and the offset there.
//!
//! A rule is asked of the functions in their order, from what is noted of them; the first one that
//! fails it ends the search. Which rule is asked what is told by `CodeRule`. Rules on slots are in
//! `slots`, and which rule comes first is decided in the root of the crate.

ghost use Rattle.std.specs.Prelude.{◌≡◌, ◌≤◌, None, IfOk, length};
ghost use Rattle.obj_core.specs.WellFormed.{AreFew, in_functions, most_code};
ghost use Rattle.obj_core.specs.Disassembly.{disassembly_of};
ghost use Rattle.obj_check.specs.Disassembled.{IsNoted, AreNoted, disassemblies_of};
ghost use Rattle.obj_check.specs.Least.{least_with, as_violation};
ghost use Rattle.obj_check.specs.Failing.{rule_number, failing};

use crate::branches::first_bad_branch;
use crate::cuts::first_bad_cut;
use crate::fault::{Broken, ShapeSpot};
use crate::notes::Notes;
use crate::saved::is_saved_well;
use obj_core::object::{Func, Object};
use rd_num::width::NoMemory;
use std::alloc::Global;

/// A rule that speaks of functions one by one.
#[derive(Clone, Copy)]
pub enum CodeRule {
    /// No call, no call through r11 and no system call.
    Transfers,
    /// Links and branches go where they may.
    Branches,
    /// The last instruction lets nothing run on.
    Ends,
    /// A saved function begins with its test and its pushes, and uses the registers of the first colours.
    Saved,
    /// Cuts rise, and each is between an instruction that nothing runs past and another one.
    Cuts,
}

/// The number of a rule.
fn number(rule: CodeRule) -> u8
    ensures { result ≡ rule_number rule }
{
    match rule {
        CodeRule::Transfers => 3,
        CodeRule::Branches => 4,
        CodeRule::Ends => 5,
        CodeRule::Saved => 8,
        CodeRule::Cuts => 9,
    }
}

/// The first function in which a rule fails.
pub fn first_in_functions(
    alloc: Global,
    rule: CodeRule,
    o: &Object,
    noted: &[Notes],
) -> Result<Option<Broken>, NoMemory>
    requires noted { AreNoted o.now.functions noted.now }
    requires few { AreFew o.now }
    ensures { IfOk result (λ r. as_violation r ≡
        in_functions (rule_number rule) (failing rule o.now) 0 o.now.functions
        (disassemblies_of o.now.functions)) }
{
    let functions = o.functions.as_slice();
    for (n, function) in functions.iter().enumerate() {
        match first_in_function(alloc, rule, o, n as u32, function, &noted[n])? {
            None => {}
            Some(offset) => {
                return Ok(Some(Broken {
                    rule: number(rule),
                    spot: ShapeSpot::Function(n as u32),
                    offset,
                }));
            }
        }
    }
    Ok(None)
}

/// The offset of a function at which a rule fails: of cuts the first in their order, else the least.
fn first_in_function(
    alloc: Global,
    rule: CodeRule,
    o: &Object,
    n: u32,
    function: &Func,
    notes: &Notes,
) -> Result<Option<u32>, NoMemory>
    requires noted { IsNoted function.now.bytes notes.now }
    requires few { length function.now.bytes ≤ most_code }
    ensures { IfOk result (λ r. r ≡ least_with None
        (failing rule o.now n function.now (disassembly_of function.now.bytes))) }
{
    match rule {
        CodeRule::Transfers => Ok(notes.transfer),
        CodeRule::Branches => first_bad_branch(alloc, o.slots.len(), function, notes),
        CodeRule::Ends => Ok(notes.last_open),
        CodeRule::Saved => {
            if is_saved_well(alloc, o.reg_seed, n, function, notes)? {
                Ok(None)
            } else {
                Ok(Some(0))
            }
        }
        CodeRule::Cuts => Ok(first_bad_cut(function, notes)),
    }
}
