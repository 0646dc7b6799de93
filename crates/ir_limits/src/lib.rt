//! The limits of a module: the first of nine that it passes, at the first place of its text.
//!
//! Types may nest and be large only so far, and functions, instructions, parameters, frames, bytes and
//! code be so many. Counts saturate at 2^64 - 1. What is counted stands in `ir_core`, `specs/Counts`,
//! the order of the limits in `specs/Refusals`, `limited`. Time is linear in the module.
#![tactic(auto)]

ghost use Rattle.std.specs.Prelude.{◌≡◌, [], IfOk, option_map, slice_get};
ghost use Rattle.ir_core.specs.Definitions.{doubled};
ghost use Rattle.ir_core.specs.Refusals.{Limited, limited};
ghost use Rattle.ir_limits.specs.Answers.{limit_fault, types_limited};

mod code;
mod frame;
mod gauge;
mod mentions;
mod params;
mod steps;
mod sum;

use crate::code::module_code;
use crate::frame::{global_bytes, past_frames};
use crate::gauge::{Gauge, Measure, past};
use crate::mentions::past_module;
use crate::params::past_params;
use crate::steps::{past_steps, total};
use ir_core::limit::{Limit, MAX_BYTES, MAX_CODE, MAX_FUNCTIONS, MAX_TOTAL};
use ir_core::module::Module;
use ir_core::size::Sizes;
use rd_num::width::NoMemory;
use std::alloc::Global;

/// A limit that is passed: which, and the count.
#[derive(Clone, Copy)]
pub struct Over {
    pub which: Limit,
    pub count: u64,
}

/// A count that is past a limit, with the limit. Takes no memory.
fn of_limit(which: Limit, count: Option<u64>) -> Option<Over>
    ensures { option_map limit_fault result ≡ option_map (λ n. Limited which n) count }
{
    match count {
        Some(count) => Some(Over { which, count }),
        None => None,
    }
}

/// The first limit of types that is passed.
fn first_of_types(sizes: &Sizes, whole: &Module) -> Option<Over>
    requires { sizes.now ≡ whole.now.types }
    ensures { option_map limit_fault result ≡ slice_get (types_limited whole.now) 0 }
{
    let depth = Gauge {
        sizes,
        measure: Measure::Depth,
    };
    let bytes = Gauge {
        sizes,
        measure: Measure::Bytes,
    };
    of_limit(Limit::Nesting, past_module(&depth, whole)).or(of_limit(
        Limit::Size,
        past_module(&bytes, whole),
    ))
}

/// The first limit that is passed.
fn first_of_all(sizes: &Sizes, whole: &Module) -> Option<Over>
    requires { sizes.now ≡ whole.now.types }
    ensures { option_map limit_fault result ≡ slice_get (limited whole.now) 0 }
{
    let functions = whole.functions.as_slice();
    first_of_types(sizes, whole)
        .or(of_limit(
            Limit::Functions,
            past(functions.len() as u64, MAX_FUNCTIONS),
        ))
        .or(of_limit(Limit::Instructions, past_steps(functions)))
        .or(of_limit(Limit::Total, past(total(whole), MAX_TOTAL)))
        .or(of_limit(Limit::Parameters, past_params(whole)))
        .or(of_limit(Limit::Frame, past_frames(sizes, functions)))
        .or(of_limit(Limit::Bytes, past(global_bytes(sizes, whole), MAX_BYTES)))
        .or(of_limit(Limit::Code, past(module_code(whole), MAX_CODE)))
}

/// The first limit that a module passes, at the first place of its text.
pub fn first_limit(alloc: Global, whole: &Module) -> Result<Option<Over>, NoMemory>
    requires { doubled whole.now ≡ [] }
    ensures { IfOk result (λ r. option_map limit_fault r ≡ slice_get (limited whole.now) 0) }
{
    let sizes = Sizes::new(alloc, whole)?;
    Ok(first_of_all(&sizes, whole))
}
