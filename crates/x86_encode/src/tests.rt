//! Instructions put one behind another, as GNU `as` spells them.

use super::*;
use std::test::Fail;
use x86_core::instr::Wide;
use x86_core::reg::Reg;

#[test]
fn puts_instructions_one_behind_another(rt: HostRuntime) -> Result<(), Fail> {
    let mut all = List::new(rt.alloc());
    for instr in [
        Instr::Push(Reg::R12),
        Instr::Mov(Wide::W64, Reg::Rax, Reg::Rbx),
        Instr::Ret,
    ] {
        put(&mut all, &instr).ok().ok_or("memory")?;
    }
    assert!(rt; all.as_slice() == [0x41, 0x54, 0x48, 0x89, 0xD8, 0xC3].as_slice());
    Ok(())
}
