//! Code that is being written: its bytes and its links.

ghost use Rattle.std.specs.Prelude.{◌≡◌, ◌<◌, ◌^◌, length, OnOk, pos};
ghost use Rattle.x86_core.specs.declared.instr.Instr.TheVariants.{Jmp as JumpBy};
ghost use Rattle.obj_rows.specs.Marked.{linked, unlinked, all_unlinked};
ghost use Rattle.rt_routines.specs.Writing.{empty_code, with_one, with_row, function_with};

use obj_core::object::{Func, FuncKind, Link};
use rd_num::list::List;
use rd_num::width::NoMemory;
use std::alloc::Global;
use x86_core::instr::Instr;
use x86_encode::put;

/// Code up to an instruction.
#[derive(Drop)]
pub struct Code {
    pub bytes: List<u8>,
    pub links: List<Link>,
}

impl Code {
    /// No instruction yet. Takes no memory.
    pub fn new(alloc: Global) -> Code
        ensures { result ≡ empty_code }
    {
        Code {
            bytes: List::new(alloc),
            links: List::new(alloc),
        }
    }

    /// One more instruction.
    pub fn put(&mut self, instr: &Instr) -> Result<(), NoMemory>
        ensures { OnOk result (self.new ≡ with_one (unlinked instr.now) self.old) }
    {
        put(&mut self.bytes, instr)?;
        Ok(())
    }

    /// A jump to a slot.
    pub fn put_jump(&mut self, slot: u32) -> Result<(), NoMemory>
        requires { length self.old.bytes < 2 ^ 16 }
        ensures { OnOk result (self.new ≡ with_one (linked (JumpBy (pos 0)) slot) self.old) }
    {
        put(&mut self.bytes, &Instr::Jmp(0))?;
        let at = (self.bytes.len() - 4) as u32;
        self.links.add(Link { at, slot })
    }

    /// A row of instructions.
    pub fn put_row(&mut self, row: &[Instr]) -> Result<(), NoMemory>
        ensures { OnOk result (self.new ≡ with_row (all_unlinked row.now) self.old) }
    {
        for instr in row {
            self.put(instr)?;
        }
        Ok(())
    }

    /// The code as a function that isn't cut. Takes no memory.
    pub fn finish(self, alloc: Global) -> Func
        ensures { result ≡ function_with self }
    {
        Func {
            kind: FuncKind::Plain,
            bytes: self.bytes,
            links: self.links,
            cuts: List::new(alloc),
        }
    }
}
