//! Code that is being written: its bytes, its links, and where it may be cut.

ghost use Rattle.std.specs.Prelude.{◌≡◌, ◌+◌, ◌<◌, ◌^◌, ◌++◌, [], map, length, OnOk, pos};
ghost use Rattle.x86_core.specs.declared.instr.Instr.TheVariants.{Jmp as JumpBy};
ghost use Rattle.obj_core.specs.WellFormed.{is_end as ends_of};
ghost use Rattle.obj_rows.specs.Marked.{linked as linked_row, unlinked, all_unlinked};
ghost use Rattle.frame_lower.specs.Writing.{empty_code, linked_ending, cut_here, with_one, with_row};

use rd_num::list::List;
use rd_num::width::NoMemory;
use std::alloc::Global;
use x86_core::instr::Instr;
use x86_encode::put;

/// A displacement that is linked: where it stands, and the slot to which it leads.
#[derive(Clone, Copy)]
pub struct Linked {
    pub at: usize,
    pub slot: u32,
}

/// Code up to an instruction. `ended` says that nothing runs past the last one.
#[derive(Drop)]
pub struct Code {
    pub bytes: List<u8>,
    pub links: List<Linked>,
    pub cuts: List<usize>,
    pub ended: bool,
}

/// Whether nothing runs past an instruction.
fn is_end(instr: &Instr) -> bool
    ensures { result ≡ ends_of instr.now }
{
    match instr {
        Instr::Jmp(_) | Instr::JmpR11 | Instr::Ret | Instr::Ud2 | Instr::Int3 => true,
        _ => false,
    }
}

impl Code {
    /// No instruction yet. Takes no memory.
    pub fn new(alloc: Global) -> Code
        ensures { result ≡ empty_code }
    {
        Code {
            bytes: List::new(alloc),
            links: List::new(alloc),
            cuts: List::new(alloc),
            ended: false,
        }
    }

    /// Lets the code be cut at its end, where nothing runs past what stands there.
    fn cut(&mut self) -> Result<(), NoMemory>
        ensures { OnOk result (self.new ≡ record self.old {
          cuts = self.old.cuts ++ cut_here self.old.ended (length self.old.bytes);
        }) }
    {
        if self.ended {
            self.cuts.add(self.bytes.len())?;
        }
        Ok(())
    }

    /// One more instruction.
    pub fn put(&mut self, instr: &Instr) -> Result<(), NoMemory>
        ensures { OnOk result (self.new ≡ with_one (unlinked instr.now) self.old) }
    {
        self.cut()?;
        put(&mut self.bytes, instr)?;
        self.ended = is_end(instr);
        Ok(())
    }

    /// A jump to a slot.
    pub fn put_jump(&mut self, slot: u32) -> Result<(), NoMemory>
        ensures { OnOk result (self.new ≡ with_one (linked_row (JumpBy (pos 0)) slot) self.old) }
    {
        self.put(&Instr::Jmp(0))?;
        let end = self.bytes.len();
        self.links.add(Linked {
            at: end.saturating_sub(4),
            slot,
        })
    }

    /// A row of instructions.
    pub fn put_row(&mut self, row: &[Instr]) -> Result<(), NoMemory>
        ensures { OnOk result (self.new ≡ with_row (all_unlinked row.now) self.old) }
    {
        for instr in row {
            self.put(instr)?;
        }
        Ok(())
    }
}
