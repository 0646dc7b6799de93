//! Calls of the functions that stand outside of the module.

ghost use Rattle.ir_core.specs.Memory.{copied};
ghost use Rattle.ir_run.specs.Answers.{Turns};
ghost use Rattle.ir_run.specs.Turns.{outer_turn, changes, fill_turn, print_turn};

use crate::fault::Fault;
use crate::state::{Asked, State};
use ir_core::memory::Value;
use ir_core::outer::Outer;
use ir_core::stop::Stop;
use rd_num::width::Width;

impl State {
    /// A copy of so many bytes.
    fn copy(&mut self, to: Value, from: Value, count: u64) -> Result<Asked, Fault>
        ensures { Turns self.new (changes self.old (copied self.old.memory to from count)) result }
    {
        match self.memory.copy(to, from, count) {
            Ok(()) => Ok(Asked::Nothing),
            Err(stop) => Err(Fault::Stop(stop)),
        }
    }

    /// A fill of so many bytes with one that is a byte.
    fn fill(&mut self, to: Value, byte: u64, count: u64) -> Result<Asked, Fault>
        ensures { Turns self.new (fill_turn self.old to byte count) result }
    {
        if byte >= 256 {
            return Err(Fault::Stop(Stop::Malformed));
        }
        match self.memory.fill(to, byte as u8, count) {
            Ok(()) => Ok(Asked::Nothing),
            Err(stop) => Err(Fault::Stop(stop)),
        }
    }

    /// A byte is printed, and given back as a number.
    fn print(&mut self, n: u64, into: Option<usize>) -> Result<Asked, Fault>
        ensures { Turns self.new (print_turn self.old into n) result }
    {
        let byte = (n % 256) as u8;
        self.frame
            .registers
            .give(into, Value::Num(Width::W32, u64::from(byte)));
        Ok(Asked::Print(byte))
    }

    /// A call of a function outside of the module.
    pub fn call_outer(
        &mut self,
        into: Option<usize>,
        outer: Outer,
        values: &[Value],
    ) -> Result<Asked, Fault>
        ensures { Turns self.new (outer_turn self.old into outer values.now) result }
    {
        match outer {
            Outer::Putchar => match values {
                [Value::Num(_, n)] => self.print(*n, into),
                _ => Err(Fault::Stop(Stop::Malformed)),
            },
            Outer::Getchar => match values {
                [] => Ok(Asked::Take(into)),
                _ => Err(Fault::Stop(Stop::Malformed)),
            },
            Outer::Exit => match values {
                [Value::Num(_, n)] => Err(Fault::Stop(Stop::Ended((*n % 256) as u8))),
                _ => Err(Fault::Stop(Stop::Malformed)),
            },
            Outer::Memcpy => match values {
                [to, from, Value::Num(_, count), _] => self.copy(*to, *from, *count),
                _ => Err(Fault::Stop(Stop::Malformed)),
            },
            Outer::Memset => match values {
                [to, Value::Num(_, byte), Value::Num(_, count), _] => self.fill(*to, *byte, *count),
                _ => Err(Fault::Stop(Stop::Malformed)),
            },
            Outer::TrapNow => Err(Fault::Stop(Stop::Trap)),
            Outer::Lifetime => Ok(Asked::Nothing),
            Outer::NoOuter => Err(Fault::Stop(Stop::Malformed)),
        }
    }
}
