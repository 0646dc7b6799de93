//! The verifier of objects: takes exactly the well-formed ones, and asks nothing of the others.
//!
//! Nine rules are asked in order: sizes (`few`), whole instructions (`disassembly`), transfers and
//! ends (`code`), branches and links (`branches`), goals of slots and the entry (`slots`), saved
//! registers (`saved`), cuts (`cuts`); the first that fails is told, where it fails first. Code is decoded twice:
//! by `disassembly`, which notes what the rules ask (`notes`), and by `branches`, when all starts are
//! known. No instruction is kept: where one starts is a bit of a table (`marks`). Time is linear in
//! the object; memory is three bits a byte of code, and a fourth for the function that is looked at.
#![tactic(auto)]

ghost use Rattle.std.specs.Prelude.{◌≡◌, IfOk, IfErr};
ghost use Rattle.obj_core.specs.WellFormed.{AreFew, IsWellFormed, violation};
ghost use Rattle.obj_check.specs.Disassembled.{AreNoted, disassemblies_of};
ghost use Rattle.obj_check.specs.Least.{as_violation};
ghost use Rattle.obj_check.specs.Judging.{last_violation, later_violation, Judges, NamesViolation};

mod asked;
mod branches;
mod code;
mod cuts;
mod disassembly;
pub mod fault;
mod few;
mod instr_at;
pub mod known;
pub mod law;
mod marks;
mod notes;
mod saved;
mod slots;

use code::{CodeRule, first_in_functions};
use disassembly::{AllNoted, note_all};
use fault::{Broken, Refused, ShapeFault, ShapeSpot};
use few::is_few;
use known::numbers_known;
use notes::Notes;
use obj_core::checked::Checked;
use obj_core::object::Object;
use rd_num::width::NoMemory;
use slots::first_bad_slot;
use std::alloc::Global;

/// Takes a well-formed object, and hands any other one back unchanged with the first thing that is
/// wrong with it. Takes time and memory linear in the object.
pub fn check(alloc: Global, o: Object) -> Result<Checked, Refused>
    ensures taken { IfOk result (λ c. c.object ≡ o) }
    ensures well_formed { IfOk result (λ c. IsWellFormed o) }
    ensures back { IfErr result (λ r. r.object ≡ o) }
    ensures first { IfErr result (λ r. NamesViolation o r.fault) }
{
    match first_broken(alloc, &o) {
        Ok(None) => Ok(Checked::new(o)),
        Ok(Some(broken)) => Err(Refused {
            object: o,
            fault: ShapeFault::Rule {
                rule: broken.rule,
                spot: broken.spot,
                offset: broken.offset,
            },
        }),
        Err(_) => Err(Refused {
            object: o,
            fault: ShapeFault::NoMemory,
        }),
    }
}

/// The first rule that fails, where it fails first.
fn first_broken(alloc: Global, o: &Object) -> Result<Option<Broken>, NoMemory>
    ensures { IfOk result (λ r. Judges o.now r) }
{
    numbers_known(o);
    if !is_few(o) {
        return Ok(Some(Broken {
            rule: 1,
            spot: ShapeSpot::Whole,
            offset: 0,
        }));
    }
    match note_all(alloc, o)? {
        AllNoted::All { noted } => {
            let broken = first_in_noted(alloc, o, noted.as_slice())?;
            Ok(broken)
        }
        AllNoted::Stuck { function, offset } => Ok(Some(Broken {
            rule: 2,
            spot: ShapeSpot::Function(function),
            offset,
        })),
    }
}

/// The first of rules 3 to 9 that fails.
fn first_in_noted(alloc: Global, o: &Object, noted: &[Notes]) -> Result<Option<Broken>, NoMemory>
    requires noted { AreNoted o.now.functions noted.now }
    requires few { AreFew o.now }
    ensures { IfOk result (λ r. as_violation r ≡
        violation o.now (disassemblies_of o.now.functions)) }
{
    if let Some(broken) = first_in_functions(alloc, CodeRule::Transfers, o, noted)? {
        return Ok(Some(broken));
    }
    if let Some(broken) = first_in_functions(alloc, CodeRule::Branches, o, noted)? {
        return Ok(Some(broken));
    }
    if let Some(broken) = first_in_functions(alloc, CodeRule::Ends, o, noted)? {
        return Ok(Some(broken));
    }
    first_in_rest(alloc, o, noted)
}

/// The first of rules 6 to 9 that fails.
fn first_in_rest(alloc: Global, o: &Object, noted: &[Notes]) -> Result<Option<Broken>, NoMemory>
    requires noted { AreNoted o.now.functions noted.now }
    requires few { AreFew o.now }
    ensures { IfOk result (λ r. as_violation r ≡
        later_violation o.now (disassemblies_of o.now.functions)) }
{
    match first_bad_slot(o.functions.as_slice(), noted, o.slots.as_slice()) {
        Some(broken) => Ok(Some(broken)),
        None => first_in_last(alloc, o, noted),
    }
}

/// The first of rules 8 and 9 that fails.
fn first_in_last(alloc: Global, o: &Object, noted: &[Notes]) -> Result<Option<Broken>, NoMemory>
    requires noted { AreNoted o.now.functions noted.now }
    requires few { AreFew o.now }
    ensures { IfOk result (λ r. as_violation r ≡
        last_violation o.now (disassemblies_of o.now.functions)) }
{
    if let Some(broken) = first_in_functions(alloc, CodeRule::Saved, o, noted)? {
        return Ok(Some(broken));
    }
    first_in_functions(alloc, CodeRule::Cuts, o, noted)
}
