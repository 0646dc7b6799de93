//! Operations as rows of instructions, put behind those that are there.

ghost use Rattle.std.specs.Prelude.{◌≡◌, ◌<◌, ◌^◌, ◌++◌, [], ◌∷◌, true, get_or, pos, OnOk};
ghost use Rattle.rd_num.specs.declared.width.Width.TheVariants.{W1, W8};
ghost use Rattle.x86_core.specs.declared.reg.Reg.TheVariants.{Rax, Rcx, Rsp};
ghost use Rattle.x86_core.specs.declared.instr.Instr.TheVariants.{MovImm64, Alu, Shift, Lea};
ghost use Rattle.x86_core.specs.declared.instr.Instr.TheVariants.{SetCond, Widen};
ghost use Rattle.low_core.specs.declared.sel.SelOp.TheVariants as op;
ghost use Rattle.frame_rows.specs.Code as code;
ghost use Rattle.frame_rows.specs.Bodies.{AreNear, Reaches, spot_of, addresses_of};

use crate::piece::{
    access_size, amount, at_rax, bit_condition, condition, cut, filled, high_half, home_read,
    home_write, is_signed, multiply, sign_filled, spot, wide_of,
};
use crate::spot::Spot;
use ir_core::instruction::Pred;
use low_core::sel::{SelAlu, SelOp};
use rd_num::list::List;
use rd_num::width::{NoMemory, Width};
use x86_core::instr::{AluOp, Cond, HighSize, ImmOp, Instr, Mem, ShiftOp, Size, Wide, WidenKind};
use x86_core::reg::Reg;

/// Puts the row of an operation behind the instructions that are there; of a call it puts none.
///
/// `homes` has a home for each register, `globals` and `functions` their addresses by number; the
/// function's own memory begins `own` bytes above the frame's lowest word. On an error a part of the
/// row may be there.
pub fn put_op(
    all: &mut List<Instr>,
    homes: &[Spot],
    globals: &[u64],
    functions: &[u64],
    own: u32,
    operation: &SelOp,
) -> Result<(), NoMemory>
    requires near { AreNear homes.now }
    requires reaches { Reaches own operation.now }
    ensures { OnOk result (all.new ≡ all.old ++ code.op_row (spot_of homes.now)
        (addresses_of globals.now functions.now) own operation.now) }
{
    match operation {
        SelOp::Set(r, n) => put_constant(all, homes, *r, *n),
        SelOp::Copy(r, s) => put_copy(all, homes, *r, *s),
        SelOp::Alu(op, w, r, s, t) => put_alu_op(all, homes, (*op, *w), (*r, *s, *t)),
        SelOp::Div(signed, rest, w, r, s, t) => put_div_op(
            all,
            homes,
            (*signed, *rest, *w),
            (*r, *s, *t),
        ),
        SelOp::Widen(signed, from, to, r, s) => put_widen_op(
            all,
            homes,
            (*signed, *from, *to),
            (*r, *s),
        ),
        SelOp::Test(p, w, r, s, t) => put_test_op(all, homes, (*p, *w), (*r, *s, *t)),
        SelOp::Pick(r, c, s, t) => put_pick(all, homes, *r, (*c, *s, *t)),
        SelOp::Load(w, r, s) => put_load(all, homes, *w, *r, *s),
        SelOp::Store(w, s, t) => put_store(all, homes, *w, *s, *t),
        SelOp::FrameAt(r, at) => put_place(all, homes, *r, own + *at),
        SelOp::GlobalAt(r, g) => put_constant(all, homes, *r, entry(globals, *g)),
        SelOp::FunctionAt(r, f) => put_constant(all, homes, *r, entry(functions, *f)),
        SelOp::Call(_, _, _) | SelOp::CallAt(_, _, _) | SelOp::Outside(_, _, _) => Ok(()),
    }
}

/// An operation on two registers, after the one that is assigned.
fn put_alu_op(
    all: &mut List<Instr>,
    homes: &[Spot],
    kind: (SelAlu, Width),
    of: (u32, u32, u32),
) -> Result<(), NoMemory>
    requires { AreNear homes.now }
    ensures { OnOk result (all.new ≡ all.old ++ code.op_row (spot_of homes.now)
        (addresses_of [] []) 0 (op.Alu kind.0 kind.1 of.0 of.1 of.2)) }
{
    put_both(all, homes, of.1, of.2)?;
    put_alu(all, kind.0, kind.1)?;
    put_result(all, homes, of.0)
}

/// A division of two registers, after the one that is assigned.
fn put_div_op(
    all: &mut List<Instr>,
    homes: &[Spot],
    kind: (bool, bool, Width),
    of: (u32, u32, u32),
) -> Result<(), NoMemory>
    requires { AreNear homes.now }
    ensures { OnOk result (all.new ≡ all.old ++ code.op_row (spot_of homes.now)
        (addresses_of [] []) 0 (op.Div kind.0 kind.1 kind.2 of.0 of.1 of.2)) }
{
    put_both(all, homes, of.1, of.2)?;
    put_div(all, kind.0, kind.1, kind.2)?;
    put_result(all, homes, of.0)
}

/// A comparison of two registers, after the one that is assigned.
fn put_test_op(
    all: &mut List<Instr>,
    homes: &[Spot],
    kind: (Pred, Width),
    of: (u32, u32, u32),
) -> Result<(), NoMemory>
    requires { AreNear homes.now }
    ensures { OnOk result (all.new ≡ all.old ++ code.op_row (spot_of homes.now)
        (addresses_of [] []) 0 (op.Test kind.0 kind.1 of.0 of.1 of.2)) }
{
    put_both(all, homes, of.1, of.2)?;
    put_test(all, kind.0, kind.1)?;
    put_result(all, homes, of.0)
}

/// An extension of a register, after the one that is assigned.
fn put_widen_op(
    all: &mut List<Instr>,
    homes: &[Spot],
    kind: (bool, Width, Width),
    of: (u32, u32),
) -> Result<(), NoMemory>
    requires { AreNear homes.now }
    ensures { OnOk result (all.new ≡ all.old ++ code.op_row (spot_of homes.now)
        (addresses_of [] []) 0 (op.Widen kind.0 kind.1 kind.2 of.0 of.1)) }
{
    put_widen(all, homes, kind, of.1)?;
    put_result(all, homes, of.0)
}

/// An entry of a list of addresses, and 0 past its end.
fn entry(addresses: &[u64], i: u32) -> u64
    ensures { result ≡ get_or addresses.now i 0 }
{
    match addresses.get(i as usize) {
        Some(a) => *a,
        None => 0,
    }
}

/// A number in the home of a register.
fn put_constant(all: &mut List<Instr>, homes: &[Spot], r: u32, n: u64) -> Result<(), NoMemory>
    requires { AreNear homes.now }
    ensures { OnOk result (all.new ≡ all.old ++
        code.assigned_row (spot_of homes.now) r (MovImm64 Rax n ∷ [])) }
{
    let last = home_write(spot(homes, r), Reg::Rax);
    put_row(all, &[Instr::MovImm64(Reg::Rax, n), last])
}

/// A place in the frame, in bytes from its lowest word.
fn put_place(all: &mut List<Instr>, homes: &[Spot], r: u32, at: u32) -> Result<(), NoMemory>
    requires near { AreNear homes.now }
    requires reaches { at < 2 ^ 31 }
    ensures { OnOk result (all.new ≡ all.old ++ code.assigned_row (spot_of homes.now) r
        (Lea Rax (record { base = Rsp; disp = pos at }) ∷ [])) }
{
    let place = Mem {
        base: Reg::Rsp,
        disp: at as i32,
    };
    let last = home_write(spot(homes, r), Reg::Rax);
    put_row(all, &[Instr::Lea(Reg::Rax, place), last])
}

/// The word of another register.
fn put_copy(all: &mut List<Instr>, homes: &[Spot], r: u32, s: u32) -> Result<(), NoMemory>
    requires { AreNear homes.now }
    ensures { OnOk result (all.new ≡ all.old ++ code.assigned_row (spot_of homes.now) r
        (code.home_read (spot_of homes.now s) Rax ∷ [])) }
{
    let first = home_read(spot(homes, s), Reg::Rax);
    let last = home_write(spot(homes, r), Reg::Rax);
    put_row(all, &[first, last])
}

/// An extension of one register, without the write of its result.
fn put_widen(
    all: &mut List<Instr>,
    homes: &[Spot],
    kind: (bool, Width, Width),
    s: u32,
) -> Result<(), NoMemory>
    requires { AreNear homes.now }
    ensures { OnOk result (all.new ≡ all.old ++
        code.widen_row (spot_of homes.now s) kind.0 kind.1 kind.2) }
{
    if kind.0 {
        put_sign(all, homes, kind.1, kind.2, s)
    } else {
        put_filled(all, homes, (false, kind.1, kind.2), s)
    }
}

/// An extension with the sign.
fn put_sign(
    all: &mut List<Instr>,
    homes: &[Spot],
    from: Width,
    to: Width,
    s: u32,
) -> Result<(), NoMemory>
    requires { AreNear homes.now }
    ensures { OnOk result (all.new ≡ all.old ++
        code.widen_row (spot_of homes.now s) true from to) }
{
    match from {
        Width::W1 => put_bit_sign(all, homes, to, s),
        Width::W8 => put_filled(all, homes, (true, Width::W8, to), s),
        Width::W16 => put_filled(all, homes, (true, Width::W16, to), s),
        Width::W32 => put_filled(all, homes, (true, Width::W32, to), s),
        Width::W64 => put_filled(all, homes, (true, Width::W64, to), s),
    }
}

/// An extension with the sign, or with zeros, but for the sign of a single bit.
fn put_filled(
    all: &mut List<Instr>,
    homes: &[Spot],
    kind: (bool, Width, Width),
    s: u32,
) -> Result<(), NoMemory>
    requires { AreNear homes.now }
    ensures { OnOk result (all.new ≡ all.old ++ (code.home_read (spot_of homes.now s) Rax ∷
        code.filled kind.0 kind.1 Rax ∷ code.cut kind.2 Rax ∷ [])) }
{
    let first = home_read(spot(homes, s), Reg::Rax);
    let fill = filled(kind.0, kind.1, Reg::Rax);
    put_row(all, &[first, fill, cut(kind.2, Reg::Rax)])
}

/// A single bit taken from 0.
fn put_bit_sign(all: &mut List<Instr>, homes: &[Spot], to: Width, s: u32) -> Result<(), NoMemory>
    requires { AreNear homes.now }
    ensures { OnOk result (all.new ≡ all.old ++
        code.widen_row (spot_of homes.now s) true W1 to) }
{
    let first = home_read(spot(homes, s), Reg::Rcx);
    let bit = Instr::AluImm(ImmOp::And, Wide::W32, Reg::Rcx, 1);
    let zero = Instr::Alu(AluOp::Sub, Wide::W32, Reg::Rax, Reg::Rax);
    let minus = Instr::Alu(AluOp::Sub, Wide::W64, Reg::Rax, Reg::Rcx);
    put_row(all, &[first, bit, zero, minus, cut(to, Reg::Rax)])
}

/// The word of one of two registers, by the low bit of the first of three.
fn put_pick(
    all: &mut List<Instr>,
    homes: &[Spot],
    r: u32,
    from: (u32, u32, u32),
) -> Result<(), NoMemory>
    requires { AreNear homes.now }
    ensures { OnOk result (all.new ≡ all.old ++ code.op_row (spot_of homes.now)
        (addresses_of [] []) 0 (op.Pick r from.0 from.1 from.2)) }
{
    put_row(
        all,
        &[
            home_read(spot(homes, from.0), Reg::Rdx),
            home_read(spot(homes, from.1), Reg::Rax),
            home_read(spot(homes, from.2), Reg::Rcx),
            Instr::AluImm(ImmOp::And, Wide::W32, Reg::Rdx, 1),
            Instr::Cmov(Cond::E, Reg::Rax, Reg::Rcx),
            home_write(spot(homes, r), Reg::Rax),
        ],
    )
}

/// The bytes at the address in a register.
fn put_load(all: &mut List<Instr>, homes: &[Spot], w: Width, r: u32, s: u32) -> Result<(), NoMemory>
    requires { AreNear homes.now }
    ensures { OnOk result (all.new ≡ all.old ++ code.op_row (spot_of homes.now)
        (addresses_of [] []) 0 (op.Load w r s)) }
{
    let first = home_read(spot(homes, s), Reg::Rax);
    let load = Instr::Load(access_size(w), Reg::Rax, at_rax());
    let last = home_write(spot(homes, r), Reg::Rax);
    put_row(all, &[first, load, last])
}

/// A word to the address in a register.
fn put_store(
    all: &mut List<Instr>,
    homes: &[Spot],
    w: Width,
    s: u32,
    t: u32,
) -> Result<(), NoMemory>
    requires { AreNear homes.now }
    ensures { OnOk result (all.new ≡ all.old ++ code.op_row (spot_of homes.now)
        (addresses_of [] []) 0 (op.Store w s t)) }
{
    let first = home_read(spot(homes, s), Reg::Rax);
    let second = home_read(spot(homes, t), Reg::Rcx);
    let store = Instr::Store(access_size(w), at_rax(), Reg::Rcx);
    put_row(all, &[first, second, store])
}

/// Puts a row behind the instructions that are there.
fn put_row(all: &mut List<Instr>, row: &[Instr]) -> Result<(), NoMemory>
    ensures { OnOk result (all.new ≡ all.old ++ row.now) }
{
    for i in row {
        all.add(*i)?;
    }
    Ok(())
}

/// Two operands into rax and rcx.
fn put_both(all: &mut List<Instr>, homes: &[Spot], s: u32, t: u32) -> Result<(), NoMemory>
    requires { AreNear homes.now }
    ensures { OnOk result (all.new ≡ all.old ++ code.both (spot_of homes.now) s t []) }
{
    put_row(
        all,
        &[
            home_read(spot(homes, s), Reg::Rax),
            home_read(spot(homes, t), Reg::Rcx),
        ],
    )
}

/// The result in rax to its home.
fn put_result(all: &mut List<Instr>, homes: &[Spot], r: u32) -> Result<(), NoMemory>
    requires { AreNear homes.now }
    ensures { OnOk result (all.new ≡ all.old ++ code.home_write (spot_of homes.now r) Rax ∷ []) }
{
    put_row(all, &[home_write(spot(homes, r), Reg::Rax)])
}

/// An operation on rax and rcx.
fn put_alu(all: &mut List<Instr>, op: SelAlu, w: Width) -> Result<(), NoMemory>
    ensures { OnOk result (all.new ≡ all.old ++ code.alu_row op w) }
{
    let last = cut(w, Reg::Rax);
    match op {
        SelAlu::Add => put_row(all, &[alu(AluOp::Add, w), last]),
        SelAlu::Sub => put_row(all, &[alu(AluOp::Sub, w), last]),
        SelAlu::Mul => put_row(all, &[multiply(w), last]),
        SelAlu::And => put_row(all, &[alu(AluOp::And, w), last]),
        SelAlu::Or => put_row(all, &[alu(AluOp::Or, w), last]),
        SelAlu::Xor => put_row(all, &[alu(AluOp::Xor, w), last]),
        SelAlu::Shl => put_row(all, &[amount(w), shift(ShiftOp::Shl), last]),
        SelAlu::Shr => put_row(all, &[amount(w), last, shift(ShiftOp::Shr)]),
        SelAlu::Sar => {
            let first = sign_filled(w, Reg::Rax);
            put_row(all, &[amount(w), first, shift(ShiftOp::Sar), last])
        }
    }
}

/// An operation on the low 32 bits of rax and rcx, or on all 64.
fn alu(op: AluOp, w: Width) -> Instr
    ensures { result ≡ Alu op (code.wide_of w) Rax Rcx }
{
    Instr::Alu(op, wide_of(w), Reg::Rax, Reg::Rcx)
}

/// A shift of rax.
fn shift(op: ShiftOp) -> Instr
    ensures { result ≡ Shift op Wide.W64 Rax }
{
    Instr::Shift(op, Wide::W64, Reg::Rax)
}

/// A division of rax by rcx.
fn put_div(all: &mut List<Instr>, signed: bool, rest: bool, w: Width) -> Result<(), NoMemory>
    ensures { OnOk result (all.new ≡ all.old ++ code.div_row signed rest w) }
{
    match w {
        Width::W1 => put_byte_div(all, signed, rest),
        Width::W8 => put_byte_div(all, signed, rest),
        Width::W16 => put_wide_div(all, signed, rest, (HighSize::W16, Size::W16), w),
        Width::W32 => put_wide_div(all, signed, rest, (HighSize::W32, Size::W32), w),
        Width::W64 => put_wide_div(all, signed, rest, (HighSize::W64, Size::W64), w),
    }
}

/// The quotient is the lowest byte of rax, the remainder the next one.
fn put_byte_div(all: &mut List<Instr>, signed: bool, rest: bool) -> Result<(), NoMemory>
    ensures { OnOk result (all.new ≡ all.old ++ code.div_row signed rest W8) }
{
    let first = filled(signed, Width::W8, Reg::Rax);
    let last = cut(Width::W8, Reg::Rax);
    let div = Instr::Div(signed, Size::W8, Reg::Rcx);
    if rest {
        let eight = Instr::MovImm32(Reg::Rcx, 8);
        let shr = Instr::Shift(ShiftOp::Shr, Wide::W32, Reg::Rax);
        put_row(all, &[first, div, eight, shr, last])
    } else {
        put_row(all, &[first, div, last])
    }
}

/// The quotient is in rax, the remainder in rdx.
fn put_wide_div(
    all: &mut List<Instr>,
    signed: bool,
    rest: bool,
    sizes: (HighSize, Size),
    w: Width,
) -> Result<(), NoMemory>
    ensures { OnOk result (all.new ≡ all.old ++
        (code.divided_in signed rest sizes.0 sizes.1 ++ code.cut w Rax ∷ [])) }
{
    let from = if rest { Reg::Rdx } else { Reg::Rax };
    put_row(
        all,
        &[
            high_half(signed, sizes.0),
            Instr::Div(signed, sizes.1, Reg::Rcx),
            Instr::Mov(Wide::W64, Reg::Rax, from),
            cut(w, Reg::Rax),
        ],
    )
}

/// A comparison of rax and rcx.
fn put_test(all: &mut List<Instr>, p: Pred, w: Width) -> Result<(), NoMemory>
    ensures { OnOk result (all.new ≡ all.old ++ code.test_row p w) }
{
    match w {
        Width::W1 => put_bit_test(all, p),
        Width::W8 => put_wide_test(all, p, w),
        Width::W16 => put_wide_test(all, p, w),
        Width::W32 => put_wide_test(all, p, w),
        Width::W64 => put_wide_test(all, p, w),
    }
}

/// A comparison of two single bits.
fn put_bit_test(all: &mut List<Instr>, p: Pred) -> Result<(), NoMemory>
    ensures { OnOk result (all.new ≡ all.old ++ code.test_row p W1) }
{
    put_row(
        all,
        &[
            Instr::MovImm32(Reg::Rdx, 1),
            Instr::Alu(AluOp::And, Wide::W32, Reg::Rax, Reg::Rdx),
            Instr::Alu(AluOp::And, Wide::W32, Reg::Rcx, Reg::Rdx),
            Instr::Alu(AluOp::Cmp, Wide::W64, Reg::Rax, Reg::Rcx),
            Instr::SetCond(bit_condition(p), Reg::Rax),
            Instr::Widen(WidenKind::Zero8, Reg::Rax, Reg::Rax),
        ],
    )
}

/// A comparison of two numbers of more than one bit.
fn put_wide_test(all: &mut List<Instr>, p: Pred, w: Width) -> Result<(), NoMemory>
    ensures { OnOk result (all.new ≡ all.old ++
        (code.filled (code.is_signed p) w Rax ∷ code.filled (code.is_signed p) w Rcx ∷
        Alu AluOp.Cmp Wide.W64 Rax Rcx ∷ SetCond (code.condition p) Rax ∷
        Widen WidenKind.Zero8 Rax Rax ∷ [])) }
{
    let signed = is_signed(p);
    put_row(
        all,
        &[
            filled(signed, w, Reg::Rax),
            filled(signed, w, Reg::Rcx),
            Instr::Alu(AluOp::Cmp, Wide::W64, Reg::Rax, Reg::Rcx),
            Instr::SetCond(condition(p), Reg::Rax),
            Instr::Widen(WidenKind::Zero8, Reg::Rax, Reg::Rax),
        ],
    )
}
