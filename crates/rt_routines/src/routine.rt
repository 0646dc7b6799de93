//! The six routines, each as a function of an object.
//!
//! Rows stand in the order of `specs/Code`, with the displacements that they have there. A routine
//! is told the slots that it uses by their numbers.

ghost use Rattle.std.specs.Prelude.{◌≡◌, ◌<◌, ◌^◌, IfOk, OnOk, length, pos, negsuc};
ghost use Rattle.obj_rows.specs.Marked.{all_unlinked};
ghost use Rattle.rt_routines.specs.Code.{start_row, putchar_row, getchar_row, exit_row, memcpy_row, memset_row, ask_row, copy_loop, fill_loop, function_of};
ghost use Rattle.rt_routines.specs.Writing.{with_row};

use crate::code::Code;
use ir_core::MAX_CALLS;
use obj_core::object::Func;
use rd_num::width::NoMemory;
use std::alloc::Global;
use x86_core::instr::{Cond, ImmOp, Instr, Mem, Size, Wide, WidenKind};
use x86_core::reg::Reg;

/// What the kernel is asked for in rax: a byte is taken.
const TAKE: u32 = 0;

/// Bytes are printed.
const PRINT: u32 = 1;

/// The run ends.
const EXIT: u32 = 60;

/// The first of the eight bytes below the stack.
const SPARE: Mem = Mem {
    base: Reg::Rsp,
    disp: -8,
};

/// A byte times this number is that byte eight times.
const EIGHT_ONES: u64 = 0x0101_0101_0101_0101;

/// The byte whose address is in a register.
fn byte_of(base: Reg) -> Mem
    ensures { result ≡ record { base = base; disp = pos 0 } }
{
    Mem { base, disp: 0 }
}

/// One byte is printed or taken, from the spare one on.
fn put_ask(code: &mut Code, call: u32) -> Result<(), NoMemory>
    ensures { OnOk result (code.new ≡ with_row (all_unlinked (ask_row call)) code.old) }
{
    code.put_row(&[
        Instr::Lea(Reg::Rsi, SPARE),
        Instr::MovImm32(Reg::Rax, call),
        Instr::MovImm32(Reg::Rdi, call),
        Instr::MovImm32(Reg::Rdx, 1),
    ])
}

/// So many bytes are copied at once, as long as so many are left.
fn put_copy(code: &mut Code, size: Size, bytes: u8) -> Result<(), NoMemory>
    ensures { OnOk result (code.new ≡ with_row (all_unlinked (copy_loop size bytes)) code.old) }
{
    let count = i32::from(bytes);
    code.put_row(&[
        Instr::AluImm(ImmOp::Cmp, Wide::W64, Reg::Rdx, count),
        Instr::Jcc(Cond::B, 40),
        Instr::Load(size, Reg::Rax, byte_of(Reg::Rsi)),
        Instr::Store(size, byte_of(Reg::Rdi), Reg::Rax),
        Instr::AluImm(ImmOp::Add, Wide::W64, Reg::Rsi, count),
        Instr::AluImm(ImmOp::Add, Wide::W64, Reg::Rdi, count),
        Instr::AluImm(ImmOp::Sub, Wide::W64, Reg::Rdx, count),
        Instr::Jmp(-53),
    ])
}

/// So many bytes are filled at once, as long as so many are left.
fn put_fill(code: &mut Code, size: Size, bytes: u8) -> Result<(), NoMemory>
    ensures { OnOk result (code.new ≡ with_row (all_unlinked (fill_loop size bytes)) code.old) }
{
    let count = i32::from(bytes);
    code.put_row(&[
        Instr::AluImm(ImmOp::Cmp, Wide::W64, Reg::Rdx, count),
        Instr::Jcc(Cond::B, 26),
        Instr::Store(size, byte_of(Reg::Rdi), Reg::Rax),
        Instr::AluImm(ImmOp::Add, Wide::W64, Reg::Rdi, count),
        Instr::AluImm(ImmOp::Sub, Wide::W64, Reg::Rdx, count),
        Instr::Jmp(-39),
    ])
}

/// The start, which calls the program by a slot and ends by another one.
#[tactic(auto, using(crate::proofs::Writing::row_written))]
pub fn start(alloc: Global, call: u32, system: u32) -> Result<Func, NoMemory>
    ensures { IfOk result (λ f. f ≡ function_of (start_row call system)) }
{
    let mut code = Code::new(alloc);
    code.put_row(&[
        Instr::MovImm32(Reg::R15, MAX_CALLS),
        Instr::MovImm32(Reg::Rdi, 0),
        Instr::MovImm32(Reg::Rsi, 0),
    ])?;
    code.put_jump(call)?;
    code.put_row(&[
        Instr::Mov(Wide::W64, Reg::Rdi, Reg::Rax),
        Instr::MovImm32(Reg::Rax, EXIT),
    ])?;
    code.put_jump(system)?;
    code.put(&Instr::Ud2)?;
    Ok(code.finish(alloc))
}

/// putchar.
#[tactic(auto, using(crate::proofs::Writing::row_written))]
pub fn putchar(alloc: Global, system: u32) -> Result<Func, NoMemory>
    ensures { IfOk result (λ f. f ≡ function_of (putchar_row system)) }
{
    let mut code = Code::new(alloc);
    code.put(&Instr::Store(Size::W8, SPARE, Reg::Rdi))?;
    put_ask(&mut code, PRINT)?;
    code.put_jump(system)?;
    code.put_row(&[Instr::Load(Size::W8, Reg::Rax, SPARE), Instr::Ret])?;
    Ok(code.finish(alloc))
}

/// getchar, whose answer is that of -1 where the kernel has no byte.
#[tactic(auto, using(crate::proofs::Writing::row_written))]
pub fn getchar(alloc: Global, system: u32) -> Result<Func, NoMemory>
    ensures { IfOk result (λ f. f ≡ function_of (getchar_row system)) }
{
    let mut code = Code::new(alloc);
    put_ask(&mut code, TAKE)?;
    code.put_jump(system)?;
    code.put_row(&[
        Instr::AluImm(ImmOp::Cmp, Wide::W32, Reg::Rax, 0),
        Instr::Load(Size::W8, Reg::Rax, SPARE),
        Instr::MovImm32(Reg::Rcx, u32::MAX),
        Instr::Cmov(Cond::E, Reg::Rax, Reg::Rcx),
        Instr::Ret,
    ])?;
    Ok(code.finish(alloc))
}

/// exit.
#[tactic(auto, using(crate::proofs::Writing::row_written))]
pub fn exit(alloc: Global, system: u32) -> Result<Func, NoMemory>
    ensures { IfOk result (λ f. f ≡ function_of (exit_row system)) }
{
    let mut code = Code::new(alloc);
    code.put(&Instr::MovImm32(Reg::Rax, EXIT))?;
    code.put_jump(system)?;
    code.put(&Instr::Ud2)?;
    Ok(code.finish(alloc))
}

/// memcpy.
#[tactic(auto, using(crate::proofs::Writing::row_written))]
pub fn memcpy(alloc: Global) -> Result<Func, NoMemory>
    ensures { IfOk result (λ f. f ≡ function_of memcpy_row) }
{
    let mut code = Code::new(alloc);
    put_copy(&mut code, Size::W64, 8)?;
    put_copy(&mut code, Size::W8, 1)?;
    code.put(&Instr::Ret)?;
    Ok(code.finish(alloc))
}

/// memset.
#[tactic(auto, using(crate::proofs::Writing::row_written))]
pub fn memset(alloc: Global) -> Result<Func, NoMemory>
    ensures { IfOk result (λ f. f ≡ function_of memset_row) }
{
    let mut code = Code::new(alloc);
    code.put_row(&[
        Instr::Widen(WidenKind::Zero8, Reg::Rax, Reg::Rsi),
        Instr::MovImm64(Reg::Rcx, EIGHT_ONES),
        Instr::Imul(Wide::W64, Reg::Rax, Reg::Rcx),
    ])?;
    put_fill(&mut code, Size::W64, 8)?;
    put_fill(&mut code, Size::W8, 1)?;
    code.put(&Instr::Ret)?;
    Ok(code.finish(alloc))
}
