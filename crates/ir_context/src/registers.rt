//! The values of a call's locals, by the numbers of their names.
//!
//! Contracts see `Registers` as a list with a place for each local: `None` where it was given no
//! value yet. `specs/Registers` says which list stands for the locals of a call. A read or a write
//! takes constant time and no memory.

ghost use Rattle.std.specs.Prelude.{◌≡◌, ◌<◌, ◌-◌, ◌++◌, None, Some, length, map, replicate, slice_get, slice_set, option_and_then, IfOk};
ghost use Rattle.ir_core.specs.declared.memory.Reason.TheVariants.{Unset as UnsetReason};
ghost use Rattle.ir_core.specs.Stops.{Left as LeftStop, found_or};
ghost use Rattle.ir_core.specs.Answers.{answered};
ghost use Rattle.ir_context.specs.Registers.{register, with_register};

use ir_core::memory::{Reason, Value};
use ir_core::stop::Stop;
use rd_num::width::NoMemory;
use std::alloc::Global;
use std::marker::Model;

/// A place for each local of a call.
#[derive(Drop)]
pub struct Registers {
    kept: Vec<Option<Value>>,
}

impl Model for Registers {
    ghost use Rattle.std.specs.Prelude.{List, Option};
    ghost use Rattle.ir_core.specs.declared.memory.Value.{Value as Held};

    ghost Value = { List (Option Held) };

    ghost view = { λ r. r.kept.items };
}

impl Registers {
    /// So many places, none of which has a value.
    pub fn new(alloc: Global, count: usize) -> Result<Registers, NoMemory>
        ensures { IfOk result (λ r. r ≡ replicate count None) }
    {
        match Vec::from_elem(alloc, None, count) {
            Ok(kept) => Ok(Registers { kept }),
            Err(_) => Err(NoMemory),
        }
    }

    /// The value at a place. `Unset` is left for a place without one.
    pub fn get(&self, number: usize) -> Result<Value, Stop>
        ensures { answered result ≡ found_or (LeftStop UnsetReason) (register self.now number) }
    {
        match self.kept.get(number) {
            Some(Some(v)) => Ok(*v),
            Some(None) => Err(Stop::Left(Reason::Unset)),
            None => Err(Stop::Left(Reason::Unset)),
        }
    }

    /// So many places, the first of which have these values.
    #[tactic(auto, using(crate::proofs::Places::one_more_place))]
    pub fn with_values(alloc: Global, values: &[Value], count: usize) -> Result<Registers, NoMemory>
        ensures { IfOk result (λ r. r ≡ map Some values.now ++
            replicate (count - length values.now) None) }
    {
        let mut kept = Vec::new(alloc);
        for v in values {
            match kept.push(Some(*v)) {
                Ok(()) => {}
                Err(_) => return Err(NoMemory),
            }
        }
        'rest: for _ in 0..count.saturating_sub(values.len()) {
            match kept.push(None) {
                Ok(()) => {}
                Err(_) => return Err(NoMemory),
            }
        }
        Ok(Registers { kept })
    }

    /// Gives a place its value, where there is one.
    pub fn give(&mut self, into: Option<usize>, v: Value)
        ensures { self.new ≡ with_register into v self.old }
    {
        if let Some(number) = into {
            if number < self.kept.len() {
                self.kept[number] = Some(v);
            }
        }
    }

    /// Gives a place its value.
    pub fn set(&mut self, number: usize, v: Value)
        requires { number < length self.old }
        ensures { self.new ≡ slice_set self.old number (Some v) }
    {
        self.kept[number] = Some(v);
    }
}
