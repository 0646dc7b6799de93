//! The instructions of which rows are made.

ghost use Rattle.std.specs.Prelude.{◌≡◌, ◌<◌, ◌*◌, ◌^◌, pos};
ghost use Rattle.frame_rows.specs.Code as code;
ghost use Rattle.frame_rows.specs.Bodies.{IsNear, spot_of};

use crate::spot::Spot;
use ir_core::instruction::Pred;
use rd_num::width::Width;
use x86_core::instr::{AluOp, Cond, HighSize, ImmOp, Instr, Mem, Size, Wide, WidenKind};
use x86_core::reg::Reg;

/// The home of a register; one that the list doesn't have counts as the lowest word of the frame.
pub fn spot(homes: &[Spot], x: u32) -> Spot
    ensures { result ≡ spot_of homes.now x }
{
    match homes.get(x as usize) {
        Some(h) => *h,
        None => Spot::Frame(0),
    }
}

/// A word of the frame, by its number.
fn frame_word(k: u32) -> Mem
    requires { 8 * k < 2 ^ 31 }
    ensures { result ≡ code.frame_word k }
{
    Mem {
        base: Reg::Rsp,
        disp: (8 * k) as i32,
    }
}

/// From a home into a scratch register.
pub fn home_read(h: Spot, t: Reg) -> Instr
    requires { IsNear h }
    ensures { result ≡ code.home_read h t }
{
    match h {
        Spot::Own(r) => Instr::Mov(Wide::W64, t, r),
        Spot::Frame(k) => Instr::Load(Size::W64, t, frame_word(k)),
    }
}

/// From a scratch register to a home.
pub fn home_write(h: Spot, t: Reg) -> Instr
    requires { IsNear h }
    ensures { result ≡ code.home_write h t }
{
    match h {
        Spot::Own(r) => Instr::Mov(Wide::W64, r, t),
        Spot::Frame(k) => Instr::Store(Size::W64, frame_word(k), t),
    }
}

/// The low bits of a register, with zeros above.
pub fn cut(w: Width, t: Reg) -> Instr
    ensures { result ≡ code.cut w t }
{
    match w {
        Width::W1 => Instr::AluImm(ImmOp::And, Wide::W32, t, 1),
        Width::W8 => Instr::Widen(WidenKind::Zero8, t, t),
        Width::W16 => Instr::Widen(WidenKind::Zero16, t, t),
        Width::W32 => Instr::Mov(Wide::W32, t, t),
        Width::W64 => Instr::Mov(Wide::W64, t, t),
    }
}

/// The low bits of a register, with copies of their sign above.
pub fn sign_filled(w: Width, t: Reg) -> Instr
    ensures { result ≡ code.sign_filled w t }
{
    match w {
        Width::W1 => Instr::Mov(Wide::W64, t, t),
        Width::W8 => Instr::Widen(WidenKind::Sign8, t, t),
        Width::W16 => Instr::Widen(WidenKind::Sign16, t, t),
        Width::W32 => Instr::Widen(WidenKind::Sign32, t, t),
        Width::W64 => Instr::Mov(Wide::W64, t, t),
    }
}

/// Either of them.
pub fn filled(signed: bool, w: Width, t: Reg) -> Instr
    ensures { result ≡ code.filled signed w t }
{
    if signed { sign_filled(w, t) } else { cut(w, t) }
}

/// The width on which an operation is done.
pub fn wide_of(w: Width) -> Wide
    ensures { result ≡ code.wide_of w }
{
    match w {
        Width::W64 => Wide::W64,
        Width::W1 => Wide::W32,
        Width::W8 => Wide::W32,
        Width::W16 => Wide::W32,
        Width::W32 => Wide::W32,
    }
}

/// The product of rax and rcx.
pub fn multiply(w: Width) -> Instr
    ensures { result ≡ code.multiply w }
{
    match w {
        Width::W1 => Instr::Alu(AluOp::And, Wide::W32, Reg::Rax, Reg::Rcx),
        Width::W8 => Instr::Imul(Wide::W32, Reg::Rax, Reg::Rcx),
        Width::W16 => Instr::Imul(Wide::W32, Reg::Rax, Reg::Rcx),
        Width::W32 => Instr::Imul(Wide::W32, Reg::Rax, Reg::Rcx),
        Width::W64 => Instr::Imul(Wide::W64, Reg::Rax, Reg::Rcx),
    }
}

/// The amount of a shift in rcx, modulo the width.
pub fn amount(w: Width) -> Instr
    ensures { result ≡ code.amount w }
{
    match w {
        Width::W1 => Instr::AluImm(ImmOp::And, Wide::W32, Reg::Rcx, 0),
        Width::W8 => Instr::AluImm(ImmOp::And, Wide::W32, Reg::Rcx, 7),
        Width::W16 => Instr::AluImm(ImmOp::And, Wide::W32, Reg::Rcx, 15),
        Width::W32 => Instr::AluImm(ImmOp::And, Wide::W32, Reg::Rcx, 31),
        Width::W64 => Instr::AluImm(ImmOp::And, Wide::W32, Reg::Rcx, 63),
    }
}

/// Whether a comparison is one of signed numbers.
pub fn is_signed(p: Pred) -> bool
    ensures { result ≡ code.is_signed p }
{
    match p {
        Pred::Eq => false,
        Pred::Ne => false,
        Pred::Ult => false,
        Pred::Ule => false,
        Pred::Ugt => false,
        Pred::Uge => false,
        Pred::Slt => true,
        Pred::Sle => true,
        Pred::Sgt => true,
        Pred::Sge => true,
    }
}

/// The condition after a comparison.
pub fn condition(p: Pred) -> Cond
    ensures { result ≡ code.condition p }
{
    match p {
        Pred::Eq => Cond::E,
        Pred::Ne => Cond::Ne,
        Pred::Ult => Cond::B,
        Pred::Ule => Cond::Be,
        Pred::Ugt => Cond::A,
        Pred::Uge => Cond::Ae,
        Pred::Slt => Cond::L,
        Pred::Sle => Cond::Le,
        Pred::Sgt => Cond::G,
        Pred::Sge => Cond::Ge,
    }
}

/// The condition after a comparison of single bits: as a signed number, the set one is the lesser.
pub fn bit_condition(p: Pred) -> Cond
    ensures { result ≡ code.bit_condition p }
{
    match p {
        Pred::Slt => Cond::A,
        Pred::Sle => Cond::Ae,
        Pred::Sgt => Cond::B,
        Pred::Sge => Cond::Be,
        Pred::Eq => condition(Pred::Eq),
        Pred::Ne => condition(Pred::Ne),
        Pred::Ult => condition(Pred::Ult),
        Pred::Ule => condition(Pred::Ule),
        Pred::Ugt => condition(Pred::Ugt),
        Pred::Uge => condition(Pred::Uge),
    }
}

/// The bytes of a load or a store.
pub fn access_size(w: Width) -> Size
    ensures { result ≡ code.access_size w }
{
    match w {
        Width::W1 => Size::W8,
        Width::W8 => Size::W8,
        Width::W16 => Size::W16,
        Width::W32 => Size::W32,
        Width::W64 => Size::W64,
    }
}

/// The place whose address is in rax.
pub fn at_rax() -> Mem
    ensures { result ≡ code.at_rax }
{
    Mem {
        base: Reg::Rax,
        disp: 0,
    }
}

/// The upper half of a dividend, in rdx.
pub fn high_half(signed: bool, size: HighSize) -> Instr
    ensures { result ≡ code.high_half signed size }
{
    if signed {
        Instr::High(size)
    } else {
        Instr::MovImm32(Reg::Rdx, 0)
    }
}
