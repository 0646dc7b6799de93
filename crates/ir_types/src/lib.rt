//! The rules of types for whole modules: a module in, the first place where a rule fails out.
//!
//! `kinds`, `operand`, `parts`, `op`, `call`, `same` and `init` decide single things, `flow`, `phi` and
//! `end` what edges ask, and `spots` goes over functions. The rules stand in `ir_core`, `specs/Typing`
//! and `specs/Valid`; the order of places in `specs/Valid`, `type_faults`. Time is near linear in the
//! module: names are found by sets, and no list is scanned for each use.
#![tactic(auto)]

ghost use Rattle.std.specs.Prelude.{◌≡◌, [], MatchResult};
ghost use Rattle.ir_core.specs.Built.{IsBuilt};
ghost use Rattle.ir_core.specs.Definitions.{doubled};
ghost use Rattle.ir_types.specs.Answers.{AreTyped, IsTypeFault};

pub mod call;
pub mod end;
pub mod flow;
pub mod init;
pub mod kinds;
pub mod op;
pub mod operand;
pub mod parts;
pub mod phi;
pub mod same;
pub mod spots;
pub mod whole;

use crate::whole::first_fault;
use ir_core::limit::Spot;
use ir_core::module::Module;
use ir_core::tables::Tables;
use rd_num::width::NoMemory;
use std::alloc::Global;

/// The first place where a rule fails, or want of memory.
#[derive(Clone, Copy)]
pub enum TypeFault {
    At { spot: Spot },
    NoMemory,
}

/// Decides the rules of types of a built module of which no name is defined twice.
///
/// `Ok` comes exactly where all rules hold. `At` comes exactly where one fails, at the first place.
pub fn check_types(alloc: Global, module: &Module) -> Result<(), TypeFault>
    requires built { IsBuilt «module».now }
    requires apart { doubled «module».now ≡ [] }
    ensures { MatchResult result (λ _. AreTyped «module».now) (IsTypeFault «module».now) }
{
    let tables = match Tables::new(alloc, module) {
        Ok(tables) => tables,
        Err(_) => return Err(TypeFault::NoMemory),
    };
    match first_fault(alloc, &tables) {
        Ok(Some(spot)) => Err(TypeFault::At { spot }),
        Ok(None) => Ok(()),
        Err(_) => Err(TypeFault::NoMemory),
    }
}
