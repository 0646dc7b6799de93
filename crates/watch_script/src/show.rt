//! The text of what an observer sees of a machine.

ghost use Rattle.std.specs.Prelude.{◌≡◌, ℕ, List as Row, IfOk};
ghost use Rattle.x86_core.specs.Observation.{observe};
ghost use Rattle.xom_machine.specs.Standing.{state_of};
ghost use Rattle.watch_script.specs.ShowText.{text_of};

use crate::memory::put_memory;
use crate::state::{put_flags, put_outcome, put_registers};
use rd_num::list::List;
use rd_num::width::NoMemory;
use std::alloc::Global;
use xom_machine::machine::Machine;

/// What an observer sees of a machine, line by line: the registers, the flags, the outcome, and each
/// segment that may be read with those of its bytes that aren't zero.
///
/// Nothing of other segments and no place of code is in the text. Besides the text itself it takes
/// no memory. Zeros cost one look each; pages that nothing was written to are passed over.
pub fn show_text(alloc: Global, machine: &Machine) -> Result<List<u8>, NoMemory>
    ensures { IfOk result (λ text. (left printed : Row ℕ) (taken : ℕ) → text ≡
        text_of (observe (state_of machine.now left printed taken))) }
{
    let mut text = List::new(alloc);
    put_registers(&mut text, machine.regs())?;
    put_flags(&mut text, machine.flags())?;
    put_outcome(&mut text, machine.outcome())?;
    put_memory(&mut text, machine.memory())?;
    Ok(text)
}
