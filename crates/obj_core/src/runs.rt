//! A row of runs, looked up by place.
//!
//! Runs lie one behind the other, so the one that holds a place is found by halving, in time that is
//! the logarithm of their number. Contracts see the row as the list of its runs, which never changes.
//! What a place's address is, is `specs/Runs.antt`.

ghost use Rattle.std.specs.Prelude.{◌≡◌, ◌+◌, ◌-◌, ◌<◌, ◌≤◌, ◌^◌, ℕ, length, IfOk};
ghost use Rattle.std.specs.List.Sorted.{IsNonDecreasingBy};
ghost use Rattle.obj_core.specs.declared.run.Run.{Run};
ghost use Rattle.obj_core.specs.Runs.{end_of_runs, address_at};

use crate::run::{Run, address_by};
use rd_num::copied::copy_list;
use rd_num::list::List;
use rd_num::width::NoMemory;
use std::alloc::Global;
use std::marker::Model;

/// Runs one behind the other.
#[derive(Drop)]
pub struct Runs {
    kept: List<Run>,
}

impl Model for Runs {
    ghost use Rattle.std.specs.Prelude.{List as Row};
    ghost use Rattle.std.specs.List.Sorted.{IsNonDecreasingBy};
    ghost use Rattle.obj_core.specs.declared.run.Run.{Run};

    ghost Value = { Row Run };

    ghost view = { λ r. r.kept };

    ghost invariant = { λ r. IsNonDecreasingBy (λ (one : Run). one.end) r.kept };
}

impl Runs {
    /// Keeps runs that are one behind the other. Takes no memory.
    pub fn new(kept: List<Run>) -> Runs
        requires { IsNonDecreasingBy (λ (one : Run). one.end) kept }
        ensures { result ≡ kept }
    {
        Runs { kept }
    }

    /// The same runs again.
    pub fn copied(&self, alloc: Global) -> Result<Runs, NoMemory>
        ensures { IfOk result (λ all. all ≡ self.now) }
    {
        let kept = copy_list(alloc, self.kept.as_slice())?;
        Ok(Runs { kept })
    }

    /// The run that holds a place: it tells the address of each place from there to its end. Takes no memory.
    pub fn find(&self, at: u64) -> Run
        requires { at < end_of_runs self.now }
        ensures ahead { at < result.end }
        ensures addresses { (p : ℕ) → at ≤ p → p < result.end → address_at self.now p ≡
            result.start + (p - result.front) }
    {
        let number = self
            .kept
            .as_slice()
            .partition_point(|run| u64::from(run.end) <= at);
        self.kept.as_slice()[number]
    }

    /// The address of a place, or 0 where no run holds it. Takes no memory.
    pub fn address(&self, at: u64) -> u64
        ensures { result ≡ address_at self.now at }
    {
        let number = self
            .kept
            .as_slice()
            .partition_point(|run| u64::from(run.end) <= at);
        match self.kept.get(number) {
            Some(run) => address_by(run, at),
            None => 0,
        }
    }
}
