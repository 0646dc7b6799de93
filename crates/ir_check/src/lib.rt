//! Whether a module is valid: a built module in, and that module as a valid one out, or its first refusal.
//!
//! There are six reasons to refuse a module, each with its places in the order of the text: names that
//! are defined twice, names without a definition, limits, names of the outside that are used wrongly,
//! no `main`, and rules of types. `ir_names`, `ir_limits` and `ir_types` find them; here they stand in
//! their order. What each means stands in `ir_core`, `specs/Refusals`.
#![tactic(auto)]

ghost use Rattle.std.specs.Prelude.{◌≡◌, [], map, IfOk, IfErr};
ghost use Rattle.ir_core.specs.Built.{IsBuilt};
ghost use Rattle.ir_core.specs.Definitions.{doubled};
ghost use Rattle.ir_core.specs.Refusals.{Doubled, Unknown, External, BadType, unknown, limited, external, without_main, first_fault};
ghost use Rattle.ir_core.specs.Valid.{type_faults};
ghost use Rattle.ir_check.specs.declared.CheckFault.TheVariants.{NoMemory as WantOfMemory};
ghost use Rattle.ir_check.specs.Answers.{first_of, Decides, IsAccepted, IsRefusedBy};

use ir_core::limit::{Limit, Spot};
use ir_core::module::Module;
use ir_core::tables::Tables;
use ir_core::ty::Name;
use ir_core::valid::Valid;
use ir_limits::first_limit;
use ir_names::doubled::first_doubled;
use ir_names::external::first_external;
use ir_names::start::has_main;
use ir_names::unknown::first_unknown;
use ir_types::{TypeFault, check_types};
use rd_num::width::NoMemory;
use std::alloc::Global;

/// Why a module is refused, at the first place of the first reason, or want of memory.
///
/// Names begin with their `@` or `%`. `Limit` is the limit that is passed and the count, as far as
/// 2^64 - 1.
#[derive(Drop)]
pub enum CheckFault {
    Doubled { name: Name },
    Unknown { name: Name },
    Limit { which: Limit, count: u64 },
    External { name: Name },
    NoMain,
    BadType { spot: Spot },
    NoMemory,
}

impl From<NoMemory> for CheckFault {
    ghost from_gives = { λ _ fault. fault ≡ WantOfMemory };

    fn from(_want: NoMemory) -> CheckFault {
        CheckFault::NoMemory
    }
}

/// No name is defined a second time.
#[tactic(auto, using(crate::proofs::FirstLaws::first_mapped, crate::proofs::FirstLaws::decides_exit))]
fn none_doubled(alloc: Global, whole: &Module) -> Result<(), CheckFault>
    ensures { Decides (first_of (map Doubled (doubled whole.now))) result }
{
    match first_doubled(alloc, whole)? {
        Some(name) => Err(CheckFault::Doubled { name }),
        None => Ok(()),
    }
}

/// Each name has a definition of the kind that its place needs.
#[tactic(auto, using(crate::proofs::FirstLaws::first_mapped, crate::proofs::FirstLaws::decides_exit))]
fn none_unknown(alloc: Global, tables: &Tables) -> Result<(), CheckFault>
    requires { doubled tables.now ≡ [] }
    ensures { Decides (first_of (map Unknown (unknown tables.now))) result }
{
    match first_unknown(alloc, tables)? {
        Some(name) => Err(CheckFault::Unknown { name }),
        None => Ok(()),
    }
}

/// No limit is passed.
#[tactic(auto, using(crate::proofs::FirstLaws::decides_exit))]
fn none_limited(alloc: Global, whole: &Module) -> Result<(), CheckFault>
    requires { doubled whole.now ≡ [] }
    ensures { Decides (first_of (limited whole.now)) result }
{
    match first_limit(alloc, whole)? {
        Some(over) => Err(CheckFault::Limit {
            which: over.which,
            count: over.count,
        }),
        None => Ok(()),
    }
}

/// What stands outside of the module is used as its types say.
#[tactic(auto, using(crate::proofs::FirstLaws::first_mapped, crate::proofs::FirstLaws::decides_exit))]
fn none_external(alloc: Global, tables: &Tables) -> Result<(), CheckFault>
    ensures { Decides (first_of (map External (external tables.now))) result }
{
    match first_external(alloc, tables)? {
        Some(name) => Err(CheckFault::External { name }),
        None => Ok(()),
    }
}

/// `main` is there. Takes no memory.
fn with_main(tables: &Tables) -> Result<(), CheckFault>
    ensures { Decides (first_of (without_main tables.now)) result }
{
    if has_main(tables) {
        Ok(())
    } else {
        Err(CheckFault::NoMain)
    }
}

/// All rules of types hold.
#[tactic(auto, using(crate::proofs::FirstLaws::first_mapped, crate::proofs::FirstLaws::decides_exit))]
fn all_typed(alloc: Global, whole: &Module) -> Result<(), CheckFault>
    requires built { IsBuilt whole.now }
    requires apart { doubled whole.now ≡ [] }
    ensures { Decides (first_of (map BadType (type_faults whole.now))) result }
{
    match check_types(alloc, whole) {
        Ok(()) => Ok(()),
        Err(TypeFault::At { spot }) => Err(CheckFault::BadType { spot }),
        Err(TypeFault::NoMemory) => Err(CheckFault::NoMemory),
    }
}

/// Nothing refuses a built module.
fn none_refused(alloc: Global, whole: &Module) -> Result<(), CheckFault>
    requires { IsBuilt whole.now }
    ensures { Decides (first_fault whole.now) result }
{
    none_doubled(alloc, whole)?;
    let tables = Tables::new(alloc, whole)?;
    none_unknown(alloc, &tables)?;
    none_limited(alloc, whole)?;
    none_external(alloc, &tables)?;
    with_main(&tables)?;
    all_typed(alloc, whole)
}

/// Decides whether a built module is valid; a module that isn't is handed back.
///
/// `Ok` comes exactly where nothing refuses the module, and else the first refusal. Want of memory is
/// the one fault without a cause.
pub fn check(alloc: Global, module: Module) -> Result<Valid, (Module, CheckFault)>
    requires { IsBuilt «module» }
    ensures kept { IfOk result (λ v. v.kept ≡ «module») }
    ensures accepted { IfOk result (λ _. IsAccepted «module») }
    ensures back { IfErr result (λ e. e.0 ≡ «module») }
    ensures refused { IfErr result (λ e. IsRefusedBy «module» e.1) }
{
    match none_refused(alloc, &module) {
        Ok(()) => Ok(Valid::new(module)),
        Err(fault) => Err((module, fault)),
    }
}
