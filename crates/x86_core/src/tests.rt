//! Effects at the edges of numbers and flags, as an x86-64 processor gives them; flags that the
//! manual leaves undefined are unknown here. Each word stands whole, so that what a row keeps shows.

use crate::effect::{Access, Change, Next, effect};
use crate::flags::{Flag, Flags};
use crate::instr::{AluOp, Cond, HighSize, ImmOp, Instr, Mem, ShiftOp, Size, Wide, WidenKind};
use crate::reg::{Reg, Regs};

const N: Flag = Flag::Zero;

const Y: Flag = Flag::One;

const U: Flag = Flag::Unknown;

// Carry, zero, sign and overflow.
fn flags(all: [Flag; 4]) -> Flags {
    let [c, z, s, o] = all;
    Flags { c, z, s, o }
}

// Registers with these words in rax, rcx and rdx.
fn words(rax: u64, rcx: u64, rdx: u64) -> Regs {
    let mut regs = Regs::new();
    regs.set(Reg::Rax, rax);
    regs.set(Reg::Rcx, rcx);
    regs.set(Reg::Rdx, rdx);
    regs
}

// Whether rax and rdx, the flags and the next place are these.
fn leaves(change: &Change, rax: u64, rdx: u64, known: [Flag; 4], next: Next) -> bool {
    change.regs.get(Reg::Rax) == rax
        && change.regs.get(Reg::Rdx) == rdx
        && change.flags == flags(known)
        && change.next == next
}

#[test]
#[rattlefmt::skip]
fn sums_differences_and_bits(rt: HostRuntime) {
    for (op, w, a, b, result, after) in [
        (AluOp::Add, Wide::W32, 0xAAAAAAAAFFFFFFFF, 0xAAAAAAAA00000001, 0, [Y, Y, N, N]),
        (AluOp::Add, Wide::W32, 0xAAAAAAAA7FFFFFFF, 0xAAAAAAAA00000001, 0x80000000, [N, N, Y, Y]),
        (AluOp::Add, Wide::W32, 0xAAAAAAAA80000000, 0xAAAAAAAA80000000, 0, [Y, Y, N, Y]),
        (AluOp::Add, Wide::W32, 0xAAAAAAAA00000000, 0xAAAAAAAA00000001, 1, [N, N, N, N]),
        (AluOp::Add, Wide::W32, 0xAAAAAAAA80000000, 0xAAAAAAAA00000001, 0x80000001, [N, N, Y, N]),
        (AluOp::Add, Wide::W64, 0xFFFFFFFFFFFFFFFF, 1, 0, [Y, Y, N, N]),
        (AluOp::Add, Wide::W64, 0x7FFFFFFFFFFFFFFF, 1, 0x8000000000000000, [N, N, Y, Y]),
        (AluOp::Add, Wide::W64, 0x8000000000000000, 0x8000000000000000, 0, [Y, Y, N, Y]),
        (AluOp::Add, Wide::W64, 0, 1, 1, [N, N, N, N]),
        (AluOp::Add, Wide::W64, 0x8000000000000000, 1, 0x8000000000000001, [N, N, Y, N]),
        (AluOp::Sub, Wide::W32, 0xAAAAAAAAFFFFFFFF, 0xAAAAAAAA00000001, 0xFFFFFFFE, [N, N, Y, N]),
        (AluOp::Sub, Wide::W32, 0xAAAAAAAA7FFFFFFF, 0xAAAAAAAA00000001, 0x7FFFFFFE, [N, N, N, N]),
        (AluOp::Sub, Wide::W32, 0xAAAAAAAA80000000, 0xAAAAAAAA80000000, 0, [N, Y, N, N]),
        (AluOp::Sub, Wide::W32, 0xAAAAAAAA00000000, 0xAAAAAAAA00000001, 0xFFFFFFFF, [Y, N, Y, N]),
        (AluOp::Sub, Wide::W32, 0xAAAAAAAA80000000, 0xAAAAAAAA00000001, 0x7FFFFFFF, [N, N, N, Y]),
        (AluOp::Sub, Wide::W32, 0xAAAAAAAA00000005, 0xAAAAAAAA00000005, 0, [N, Y, N, N]),
        (AluOp::Sub, Wide::W32, 0xAAAAAAAA00000003, 0xAAAAAAAA00000010, 0xFFFFFFF3, [Y, N, Y, N]),
        (AluOp::Sub, Wide::W64, 0xFFFFFFFFFFFFFFFF, 1, 0xFFFFFFFFFFFFFFFE, [N, N, Y, N]),
        (AluOp::Sub, Wide::W64, 0x7FFFFFFFFFFFFFFF, 1, 0x7FFFFFFFFFFFFFFE, [N, N, N, N]),
        (AluOp::Sub, Wide::W64, 0x8000000000000000, 0x8000000000000000, 0, [N, Y, N, N]),
        (AluOp::Sub, Wide::W64, 0, 1, 0xFFFFFFFFFFFFFFFF, [Y, N, Y, N]),
        (AluOp::Sub, Wide::W64, 0x8000000000000000, 1, 0x7FFFFFFFFFFFFFFF, [N, N, N, Y]),
        (AluOp::Sub, Wide::W64, 5, 5, 0, [N, Y, N, N]),
        (AluOp::Sub, Wide::W64, 3, 0x10, 0xFFFFFFFFFFFFFFF3, [Y, N, Y, N]),
        (AluOp::Cmp, Wide::W32, 0xAAAAAAAA80000000, 0xAAAAAAAA00000001, 0xAAAAAAAA80000000, [N, N, N, Y]),
        (AluOp::Cmp, Wide::W32, 0xAAAAAAAA00000005, 0xAAAAAAAA00000005, 0xAAAAAAAA00000005, [N, Y, N, N]),
        (AluOp::Cmp, Wide::W64, 0x8000000000000000, 1, 0x8000000000000000, [N, N, N, Y]),
        (AluOp::Cmp, Wide::W64, 5, 5, 5, [N, Y, N, N]),
        (AluOp::And, Wide::W64, 0xF0F0F0F0F0F0F0F0, 0x8F0F0F0F0F0F0F0F, 0x8000000000000000, [N, N, Y, N]),
        (AluOp::And, Wide::W32, 0x1111111100F0F0F0, 0x22222222000F0F0F, 0, [N, Y, N, N]),
        (AluOp::Or, Wide::W64, 0xF0F0F0F0F0F0F0F0, 0x8F0F0F0F0F0F0F0F, 0xFFFFFFFFFFFFFFFF, [N, N, Y, N]),
        (AluOp::Or, Wide::W32, 0x1111111100F0F0F0, 0x22222222000F0F0F, 0xFFFFFF, [N, N, N, N]),
        (AluOp::Xor, Wide::W64, 0xF0F0F0F0F0F0F0F0, 0x8F0F0F0F0F0F0F0F, 0x7FFFFFFFFFFFFFFF, [N, N, N, N]),
        (AluOp::Xor, Wide::W32, 0x1111111100F0F0F0, 0x22222222000F0F0F, 0xFFFFFF, [N, N, N, N]),
        (AluOp::Test, Wide::W64, 0xF0F0F0F0F0F0F0F0, 0x8F0F0F0F0F0F0F0F, 0xF0F0F0F0F0F0F0F0, [N, N, Y, N]),
        (AluOp::Test, Wide::W32, 0x1111111100F0F0F0, 0x22222222000F0F0F, 0x1111111100F0F0F0, [N, Y, N, N]),
    ] {
        let change = effect(&Instr::Alu(op, w, Reg::Rax, Reg::Rcx), &words(a, b, 0), &flags([U, U, U, U]));
        assert!(rt; leaves(&change, result, 0, after, Next::Fall), "of {a:x} and {b:x}");
    }
}

#[test]
#[rattlefmt::skip]
fn operations_with_constants(rt: HostRuntime) {
    for (op, w, a, n, result, after) in [
        (ImmOp::Add, Wide::W32, 0x5555555580000000, -1, 0x7FFFFFFF, [Y, N, N, Y]),
        (ImmOp::Add, Wide::W64, 0x8000000000000001, -1, 0x8000000000000000, [Y, N, Y, N]),
        (ImmOp::Sub, Wide::W32, 0x5555555580000000, -1, 0x80000001, [Y, N, Y, N]),
        (ImmOp::Sub, Wide::W64, 0x8000000000000001, -1, 0x8000000000000002, [Y, N, Y, N]),
        (ImmOp::And, Wide::W32, 0x5555555580000000, -16, 0x80000000, [N, N, Y, N]),
        (ImmOp::And, Wide::W64, 0x8000000000000001, -16, 0x8000000000000000, [N, N, Y, N]),
        (ImmOp::Or, Wide::W32, 0x5555555580000000, -2147483648, 0x80000000, [N, N, Y, N]),
        (ImmOp::Or, Wide::W64, 0x8000000000000001, -2147483648, 0xFFFFFFFF80000001, [N, N, Y, N]),
        (ImmOp::Xor, Wide::W32, 0x5555555580000000, 2147483647, 0xFFFFFFFF, [N, N, Y, N]),
        (ImmOp::Xor, Wide::W64, 0x8000000000000001, 2147483647, 0x800000007FFFFFFE, [N, N, Y, N]),
        (ImmOp::Cmp, Wide::W32, 0x5555555580000000, -2147483648, 0x5555555580000000, [N, Y, N, N]),
        (ImmOp::Cmp, Wide::W64, 0x8000000000000001, -2147483648, 0x8000000000000001, [Y, N, Y, N]),
    ] {
        let change = effect(&Instr::AluImm(op, w, Reg::Rax, n), &words(a, 0, 0), &flags([U, U, U, U]));
        assert!(rt; leaves(&change, result, 0, after, Next::Fall), "of {a:x} and {n}");
    }
}

#[test]
#[rattlefmt::skip]
fn shifts_by_the_low_byte_of_rcx(rt: HostRuntime) {
    for (op, w, by, result, after) in [
        (ShiftOp::Shl, Wide::W32, 0, 0x87654321, [Y, Y, Y, Y]),
        (ShiftOp::Shl, Wide::W32, 1, 0xECA8642, [U, N, N, U]),
        (ShiftOp::Shl, Wide::W32, 0x1F, 0x80000000, [U, N, Y, U]),
        (ShiftOp::Shl, Wide::W32, 0x20, 0x87654321, [Y, Y, Y, Y]),
        (ShiftOp::Shl, Wide::W32, 0x3F, 0x80000000, [U, N, Y, U]),
        (ShiftOp::Shl, Wide::W32, 0x40, 0x87654321, [Y, Y, Y, Y]),
        (ShiftOp::Shl, Wide::W32, 0x1FF01, 0xECA8642, [U, N, N, U]),
        (ShiftOp::Shl, Wide::W64, 0, 0x8765432187654321, [Y, Y, Y, Y]),
        (ShiftOp::Shl, Wide::W64, 1, 0xECA86430ECA8642, [U, N, N, U]),
        (ShiftOp::Shl, Wide::W64, 0x1F, 0xC3B2A19080000000, [U, N, Y, U]),
        (ShiftOp::Shl, Wide::W64, 0x20, 0x8765432100000000, [U, N, Y, U]),
        (ShiftOp::Shl, Wide::W64, 0x3F, 0x8000000000000000, [U, N, Y, U]),
        (ShiftOp::Shl, Wide::W64, 0x40, 0x8765432187654321, [Y, Y, Y, Y]),
        (ShiftOp::Shl, Wide::W64, 0x1FF01, 0xECA86430ECA8642, [U, N, N, U]),
        (ShiftOp::Shr, Wide::W32, 0, 0x87654321, [Y, Y, Y, Y]),
        (ShiftOp::Shr, Wide::W32, 1, 0x43B2A190, [U, N, N, U]),
        (ShiftOp::Shr, Wide::W32, 0x1F, 1, [U, N, N, U]),
        (ShiftOp::Shr, Wide::W32, 0x20, 0x87654321, [Y, Y, Y, Y]),
        (ShiftOp::Shr, Wide::W32, 0x3F, 1, [U, N, N, U]),
        (ShiftOp::Shr, Wide::W32, 0x40, 0x87654321, [Y, Y, Y, Y]),
        (ShiftOp::Shr, Wide::W64, 0, 0x8765432187654321, [Y, Y, Y, Y]),
        (ShiftOp::Shr, Wide::W64, 1, 0x43B2A190C3B2A190, [U, N, N, U]),
        (ShiftOp::Shr, Wide::W64, 0x1F, 0x10ECA8643, [U, N, N, U]),
        (ShiftOp::Shr, Wide::W64, 0x20, 0x87654321, [U, N, N, U]),
        (ShiftOp::Shr, Wide::W64, 0x3F, 1, [U, N, N, U]),
        (ShiftOp::Shr, Wide::W64, 0x40, 0x8765432187654321, [Y, Y, Y, Y]),
        (ShiftOp::Sar, Wide::W32, 0, 0x87654321, [Y, Y, Y, Y]),
        (ShiftOp::Sar, Wide::W32, 1, 0xC3B2A190, [U, N, Y, U]),
        (ShiftOp::Sar, Wide::W32, 0x1F, 0xFFFFFFFF, [U, N, Y, U]),
        (ShiftOp::Sar, Wide::W32, 0x20, 0x87654321, [Y, Y, Y, Y]),
        (ShiftOp::Sar, Wide::W32, 0x3F, 0xFFFFFFFF, [U, N, Y, U]),
        (ShiftOp::Sar, Wide::W32, 0x40, 0x87654321, [Y, Y, Y, Y]),
        (ShiftOp::Sar, Wide::W64, 0, 0x8765432187654321, [Y, Y, Y, Y]),
        (ShiftOp::Sar, Wide::W64, 1, 0xC3B2A190C3B2A190, [U, N, Y, U]),
        (ShiftOp::Sar, Wide::W64, 0x1F, 0xFFFFFFFF0ECA8643, [U, N, Y, U]),
        (ShiftOp::Sar, Wide::W64, 0x20, 0xFFFFFFFF87654321, [U, N, Y, U]),
        (ShiftOp::Sar, Wide::W64, 0x3F, 0xFFFFFFFFFFFFFFFF, [U, N, Y, U]),
        (ShiftOp::Sar, Wide::W64, 0x40, 0x8765432187654321, [Y, Y, Y, Y]),
    ] {
        let change = effect(&Instr::Shift(op, w, Reg::Rax), &words(0x8765432187654321, by, 0), &flags([Y, Y, Y, Y]));
        assert!(rt; leaves(&change, result, 0, after, Next::Fall), "by {by:x}");
    }
}

#[test]
#[rattlefmt::skip]
fn divisions_and_their_faults(rt: HostRuntime) {
    for (signed, size, rax, rcx, rdx, after) in [
        (false, Size::W8, 0x11223344556604FE, 0x7777777777777705, 0x99AABBCCDDEEFF00, Some((0x11223344556603FF, 0x99AABBCCDDEEFF00))),
        (false, Size::W8, 0x1122334455660500, 0x7777777777777705, 0x99AABBCCDDEEFF00, None),
        (false, Size::W8, 0x1122334455660001, 0x7777777777777700, 0x99AABBCCDDEEFF00, None),
        (true, Size::W8, 0x112233445566FFF9, 0x7777777777777702, 0x99AABBCCDDEEFF00, Some((0x112233445566FFFD, 0x99AABBCCDDEEFF00))),
        (true, Size::W8, 0x1122334455660007, 0x77777777777777FE, 0x99AABBCCDDEEFF00, Some((0x11223344556601FD, 0x99AABBCCDDEEFF00))),
        (true, Size::W8, 0x112233445566FFF9, 0x77777777777777FE, 0x99AABBCCDDEEFF00, Some((0x112233445566FF03, 0x99AABBCCDDEEFF00))),
        (true, Size::W8, 0x112233445566FF80, 0x7777777777777701, 0x99AABBCCDDEEFF00, Some((0x1122334455660080, 0x99AABBCCDDEEFF00))),
        (true, Size::W8, 0x112233445566FF80, 0x77777777777777FF, 0x99AABBCCDDEEFF00, None),
        (true, Size::W8, 0x1122334455660182, 0x77777777777777FD, 0x99AABBCCDDEEFF00, Some((0x1122334455660280, 0x99AABBCCDDEEFF00))),
        (true, Size::W8, 0x112233445566FE7D, 0x7777777777777703, 0x99AABBCCDDEEFF00, None),
        (true, Size::W8, 0x1122334455660001, 0x7777777777777700, 0x99AABBCCDDEEFF00, None),
        (false, Size::W16, 0x112233445566FFFE, 0x7777777777770005, 0x99AABBCCDDEE0004, Some((0x112233445566FFFF, 0x99AABBCCDDEE0003))),
        (false, Size::W16, 0x1122334455660000, 0x7777777777770005, 0x99AABBCCDDEE0005, None),
        (false, Size::W16, 0x1122334455660001, 0x7777777777770000, 0x99AABBCCDDEE0000, None),
        (true, Size::W16, 0x112233445566FFF9, 0x7777777777770002, 0x99AABBCCDDEEFFFF, Some((0x112233445566FFFD, 0x99AABBCCDDEEFFFF))),
        (true, Size::W16, 0x1122334455660007, 0x777777777777FFFE, 0x99AABBCCDDEE0000, Some((0x112233445566FFFD, 0x99AABBCCDDEE0001))),
        (true, Size::W16, 0x112233445566FFF9, 0x777777777777FFFE, 0x99AABBCCDDEEFFFF, Some((0x1122334455660003, 0x99AABBCCDDEEFFFF))),
        (true, Size::W16, 0x1122334455668000, 0x7777777777770001, 0x99AABBCCDDEEFFFF, Some((0x1122334455668000, 0x99AABBCCDDEE0000))),
        (true, Size::W16, 0x1122334455668000, 0x777777777777FFFF, 0x99AABBCCDDEEFFFF, None),
        (true, Size::W16, 0x1122334455668002, 0x777777777777FFFD, 0x99AABBCCDDEE0001, Some((0x1122334455668000, 0x99AABBCCDDEE0002))),
        (true, Size::W16, 0x1122334455667FFD, 0x7777777777770003, 0x99AABBCCDDEEFFFE, None),
        (true, Size::W16, 0x1122334455660001, 0x7777777777770000, 0x99AABBCCDDEE0000, None),
        (false, Size::W32, 0x11223344FFFFFFFE, 0x7777777700000005, 0x99AABBCC00000004, Some((0xFFFFFFFF, 3))),
        (false, Size::W32, 0x1122334400000000, 0x7777777700000005, 0x99AABBCC00000005, None),
        (false, Size::W32, 0x1122334400000001, 0x7777777700000000, 0x99AABBCC00000000, None),
        (true, Size::W32, 0x11223344FFFFFFF9, 0x7777777700000002, 0x99AABBCCFFFFFFFF, Some((0xFFFFFFFD, 0xFFFFFFFF))),
        (true, Size::W32, 0x1122334400000007, 0x77777777FFFFFFFE, 0x99AABBCC00000000, Some((0xFFFFFFFD, 1))),
        (true, Size::W32, 0x11223344FFFFFFF9, 0x77777777FFFFFFFE, 0x99AABBCCFFFFFFFF, Some((3, 0xFFFFFFFF))),
        (true, Size::W32, 0x1122334480000000, 0x7777777700000001, 0x99AABBCCFFFFFFFF, Some((0x80000000, 0))),
        (true, Size::W32, 0x1122334480000000, 0x77777777FFFFFFFF, 0x99AABBCCFFFFFFFF, None),
        (true, Size::W32, 0x1122334480000002, 0x77777777FFFFFFFD, 0x99AABBCC00000001, Some((0x80000000, 2))),
        (true, Size::W32, 0x112233447FFFFFFD, 0x7777777700000003, 0x99AABBCCFFFFFFFE, None),
        (true, Size::W32, 0x1122334400000001, 0x7777777700000000, 0x99AABBCC00000000, None),
        (false, Size::W64, 0xFFFFFFFFFFFFFFFE, 5, 4, Some((0xFFFFFFFFFFFFFFFF, 3))),
        (false, Size::W64, 0, 5, 5, None),
        (false, Size::W64, 1, 0, 0, None),
        (true, Size::W64, 0xFFFFFFFFFFFFFFF9, 2, 0xFFFFFFFFFFFFFFFF, Some((0xFFFFFFFFFFFFFFFD, 0xFFFFFFFFFFFFFFFF))),
        (true, Size::W64, 7, 0xFFFFFFFFFFFFFFFE, 0, Some((0xFFFFFFFFFFFFFFFD, 1))),
        (true, Size::W64, 0xFFFFFFFFFFFFFFF9, 0xFFFFFFFFFFFFFFFE, 0xFFFFFFFFFFFFFFFF, Some((3, 0xFFFFFFFFFFFFFFFF))),
        (true, Size::W64, 0x8000000000000000, 1, 0xFFFFFFFFFFFFFFFF, Some((0x8000000000000000, 0))),
        (true, Size::W64, 0x8000000000000000, 0xFFFFFFFFFFFFFFFF, 0xFFFFFFFFFFFFFFFF, None),
        (true, Size::W64, 0x8000000000000002, 0xFFFFFFFFFFFFFFFD, 1, Some((0x8000000000000000, 2))),
        (true, Size::W64, 0x7FFFFFFFFFFFFFFD, 3, 0xFFFFFFFFFFFFFFFE, None),
        (true, Size::W64, 1, 0, 0, None),
    ] {
        let change = effect(&Instr::Div(signed, size, Reg::Rcx), &words(rax, rcx, rdx), &flags([Y, N, Y, N]));
        let right = match after {
            Some((quotient, remainder)) => leaves(&change, quotient, remainder, [U, U, U, U], Next::Fall),
            None => leaves(&change, rax, rdx, [Y, N, Y, N], Next::Divide),
        };
        assert!(rt; right, "of {rdx:x} {rax:x} by {rcx:x}");
    }
}

#[test]
#[rattlefmt::skip]
fn moves_products_and_signs(rt: HostRuntime) {
    for (instr, rax, rcx, rdx, after, last) in [
        (Instr::Imul(Wide::W32, Reg::Rax, Reg::Rcx), 0x123456789ABCDEF1, 0xFEDCBA9876543211, 0, 0x6729E001, 0),
        (Instr::Imul(Wide::W64, Reg::Rax, Reg::Rcx), 0x123456789ABCDEF1, 0xFEDCBA9876543211, 0, 0x347E9A0F6729E001, 0),
        (Instr::High(HighSize::W16), 0x8000000080008000, 0, 0x1234567812345678, 0x8000000080008000, 0x123456781234FFFF),
        (Instr::High(HighSize::W16), 0x7FFFFFFF7FFF7FFF, 0, 0x1234567812345678, 0x7FFFFFFF7FFF7FFF, 0x1234567812340000),
        (Instr::High(HighSize::W32), 0x8000000080008000, 0, 0x1234567812345678, 0x8000000080008000, 0xFFFFFFFF),
        (Instr::High(HighSize::W32), 0x7FFFFFFF7FFF7FFF, 0, 0x1234567812345678, 0x7FFFFFFF7FFF7FFF, 0),
        (Instr::High(HighSize::W64), 0x8000000080008000, 0, 0x1234567812345678, 0x8000000080008000, 0xFFFFFFFFFFFFFFFF),
        (Instr::High(HighSize::W64), 0x7FFFFFFF7FFF7FFF, 0, 0x1234567812345678, 0x7FFFFFFF7FFF7FFF, 0),
        (Instr::Widen(WidenKind::Zero8, Reg::Rax, Reg::Rcx), 0xFFFFFFFFFFFFFFFF, 0x7F7F7F7F7F7F7F7F, 0, 0x7F, 0),
        (Instr::Widen(WidenKind::Zero8, Reg::Rax, Reg::Rcx), 0xFFFFFFFFFFFFFFFF, 0xFEDCBA9889ABCDEF, 0, 0xEF, 0),
        (Instr::Widen(WidenKind::Zero16, Reg::Rax, Reg::Rcx), 0xFFFFFFFFFFFFFFFF, 0x7F7F7F7F7F7F7F7F, 0, 0x7F7F, 0),
        (Instr::Widen(WidenKind::Zero16, Reg::Rax, Reg::Rcx), 0xFFFFFFFFFFFFFFFF, 0xFEDCBA9889ABCDEF, 0, 0xCDEF, 0),
        (Instr::Widen(WidenKind::Sign8, Reg::Rax, Reg::Rcx), 0xFFFFFFFFFFFFFFFF, 0x7F7F7F7F7F7F7F7F, 0, 0x7F, 0),
        (Instr::Widen(WidenKind::Sign8, Reg::Rax, Reg::Rcx), 0xFFFFFFFFFFFFFFFF, 0xFEDCBA9889ABCDEF, 0, 0xFFFFFFFFFFFFFFEF, 0),
        (Instr::Widen(WidenKind::Sign16, Reg::Rax, Reg::Rcx), 0xFFFFFFFFFFFFFFFF, 0x7F7F7F7F7F7F7F7F, 0, 0x7F7F, 0),
        (Instr::Widen(WidenKind::Sign16, Reg::Rax, Reg::Rcx), 0xFFFFFFFFFFFFFFFF, 0xFEDCBA9889ABCDEF, 0, 0xFFFFFFFFFFFFCDEF, 0),
        (Instr::Widen(WidenKind::Sign32, Reg::Rax, Reg::Rcx), 0xFFFFFFFFFFFFFFFF, 0x7F7F7F7F7F7F7F7F, 0, 0x7F7F7F7F, 0),
        (Instr::Widen(WidenKind::Sign32, Reg::Rax, Reg::Rcx), 0xFFFFFFFFFFFFFFFF, 0xFEDCBA9889ABCDEF, 0, 0xFFFFFFFF89ABCDEF, 0),
        (Instr::Mov(Wide::W32, Reg::Rax, Reg::Rcx), 0xFFFFFFFFFFFFFFFF, 0xFEDCBA9876543210, 0, 0x76543210, 0),
        (Instr::Mov(Wide::W64, Reg::Rax, Reg::Rcx), 0xFFFFFFFFFFFFFFFF, 0xFEDCBA9876543210, 0, 0xFEDCBA9876543210, 0),
        (Instr::MovImm32(Reg::Rax, 0x80000000), 0xFFFFFFFFFFFFFFFF, 0, 0, 0x80000000, 0),
        (Instr::MovImm64(Reg::Rax, 0x8000000000000000), 0xFFFFFFFFFFFFFFFF, 0, 0, 0x8000000000000000, 0),
        (Instr::Lea(Reg::Rax, Mem { base: Reg::Rcx, disp: -0x7FFFFFFF }), 0xFFFFFFFFFFFFFFFF, 5, 0, 0xFFFFFFFF80000006, 0),
        (Instr::Lea(Reg::Rax, Mem { base: Reg::Rcx, disp: 0x7FFFFFFF }), 0xFFFFFFFFFFFFFFFF, 0xFFFFFFFFFFFFFFFB, 0, 0x7FFFFFFA, 0),
    ] {
        let change = effect(&instr, &words(rax, rcx, rdx), &flags([Y, N, Y, N]));
        let known = if matches!(&instr, Instr::Imul(_, _, _)) { [U, U, U, U] } else { [Y, N, Y, N] };
        assert!(rt; leaves(&change, after, last, known, Next::Fall), "of {rax:x} {rcx:x} {rdx:x}");
    }
}

// A condition's effects on words that differ: on a byte, on a register, on the next place.
fn sets(c: Cond, known: [Flag; 4]) -> u64 {
    let regs = words(0x1111111111111111, 0x2222222222222222, 0);
    effect(&Instr::SetCond(c, Reg::Rax), &regs, &flags(known))
        .regs
        .get(Reg::Rax)
}

fn moves(c: Cond, known: [Flag; 4]) -> u64 {
    let regs = words(0x1111111111111111, 0x2222222222222222, 0);
    effect(&Instr::Cmov(c, Reg::Rax, Reg::Rcx), &regs, &flags(known))
        .regs
        .get(Reg::Rax)
}

fn branches(c: Cond, known: [Flag; 4]) -> Next {
    effect(&Instr::Jcc(c, -6), &words(0, 0, 0), &flags(known)).next
}

// Whether a condition that lacks a flag stops, even where both answers are one.
fn stops(c: Cond, known: [Flag; 4]) -> bool {
    let set = effect(&Instr::SetCond(c, Reg::Rax), &words(0, 0, 0), &flags(known));
    let choose = effect(
        &Instr::Cmov(c, Reg::Rax, Reg::Rax),
        &words(0, 0, 0),
        &flags(known),
    );
    set.next == Next::NoFlag && choose.next == Next::NoFlag && branches(c, known) == Next::NoFlag
}

#[test]
#[rattlefmt::skip]
fn conditions_need_the_flags_that_they_name(rt: HostRuntime) {
    for (c, holding, failing, unknown) in [
        (Cond::O, [U, U, U, Y], [U, U, U, N], [Y, Y, Y, U]),
        (Cond::No, [U, U, U, N], [U, U, U, Y], [Y, Y, Y, U]),
        (Cond::B, [Y, U, U, U], [N, U, U, U], [U, Y, Y, Y]),
        (Cond::Ae, [N, U, U, U], [Y, U, U, U], [U, Y, Y, Y]),
        (Cond::E, [U, Y, U, U], [U, N, U, U], [Y, U, Y, Y]),
        (Cond::Ne, [U, N, U, U], [U, Y, U, U], [Y, U, Y, Y]),
        (Cond::Be, [N, Y, U, U], [N, N, U, U], [Y, U, Y, Y]),
        (Cond::Be, [Y, N, U, U], [N, N, U, U], [U, Y, Y, Y]),
        (Cond::A, [N, N, U, U], [Y, N, U, U], [U, N, N, N]),
        (Cond::A, [N, N, U, U], [N, Y, U, U], [N, U, N, N]),
        (Cond::S, [U, U, Y, U], [U, U, N, U], [Y, Y, U, Y]),
        (Cond::Ns, [U, U, N, U], [U, U, Y, U], [Y, Y, U, Y]),
        (Cond::L, [U, U, Y, N], [U, U, Y, Y], [Y, Y, U, Y]),
        (Cond::L, [U, U, N, Y], [U, U, N, N], [Y, Y, Y, U]),
        (Cond::Ge, [U, U, Y, Y], [U, U, Y, N], [Y, Y, U, Y]),
        (Cond::Ge, [U, U, N, N], [U, U, N, Y], [Y, Y, Y, U]),
        (Cond::Le, [U, Y, N, N], [U, N, N, N], [Y, U, Y, N]),
        (Cond::Le, [U, N, Y, N], [U, N, Y, Y], [Y, Y, U, Y]),
        (Cond::Le, [U, N, N, Y], [U, N, N, N], [Y, Y, Y, U]),
        (Cond::G, [U, N, N, N], [U, Y, N, N], [Y, U, Y, Y]),
        (Cond::G, [U, N, Y, Y], [U, N, Y, N], [Y, N, U, Y]),
        (Cond::G, [U, N, Y, Y], [U, N, N, Y], [Y, N, Y, U]),
    ] {
        let holds = sets(c, holding) == 0x1111111111111101 && moves(c, holding) == 0x2222222222222222 && branches(c, holding) == Next::Branch(-6);
        let fails = sets(c, failing) == 0x1111111111111100 && moves(c, failing) == 0x1111111111111111 && branches(c, failing) == Next::Fall;
        assert!(rt; holds && fails && stops(c, unknown));
    }
}

#[test]
#[rattlefmt::skip]
fn accesses_the_stack_and_next_places(rt: HostRuntime) {
    let slot = Mem { base: Reg::Rax, disp: -16 };
    for (instr, stack, access, next) in [
        (Instr::Load(Size::W16, Reg::Rcx, slot), 0x1000, Access::Read { at: 0xFFFFFFFFFFFFFFF8, size: Size::W16, into: Reg::Rcx }, Next::Fall),
        (Instr::Store(Size::W8, slot, Reg::Rcx), 0x1000, Access::Write { at: 0xFFFFFFFFFFFFFFF8, size: Size::W8, word: 0xEF }, Next::Fall),
        (Instr::Store(Size::W32, slot, Reg::Rcx), 0x1000, Access::Write { at: 0xFFFFFFFFFFFFFFF8, size: Size::W32, word: 0x89ABCDEF }, Next::Fall),
        (Instr::Push(Reg::Rcx), 0xFF8, Access::Write { at: 0xFF8, size: Size::W64, word: 0x123456789ABCDEF }, Next::Fall),
        (Instr::Push(Reg::Rsp), 0xFF8, Access::Write { at: 0xFF8, size: Size::W64, word: 0x1000 }, Next::Fall),
        (Instr::Pop(Reg::Rcx), 0x1008, Access::Read { at: 0x1000, size: Size::W64, into: Reg::Rcx }, Next::Fall),
        (Instr::Pop(Reg::Rsp), 0x1008, Access::Read { at: 0x1000, size: Size::W64, into: Reg::Rsp }, Next::Fall),
        (Instr::Jmp(5), 0x1000, Access::Nothing, Next::Branch(5)),
        (Instr::Call(-5), 0xFF8, Access::Nothing, Next::Call(-5)),
        (Instr::Ret, 0x1008, Access::Nothing, Next::Return),
        (Instr::CallR11, 0xFF8, Access::Nothing, Next::CallR11),
        (Instr::JmpR11, 0x1000, Access::Nothing, Next::ToR11),
        (Instr::Syscall, 0x1000, Access::Nothing, Next::Kernel),
        (Instr::Ud2, 0x1000, Access::Nothing, Next::Invalid),
        (Instr::Int3, 0x1000, Access::Nothing, Next::Breakpoint),
        (Instr::Nop, 0x1000, Access::Nothing, Next::Fall),
    ] {
        let mut regs = words(8, 0x123456789ABCDEF, 0);
        regs.set(Reg::Rsp, 0x1000);
        let change = effect(&instr, &regs, &flags([Y, N, Y, U]));
        let words = change.regs.get(Reg::Rsp) == stack && change.regs.get(Reg::Rcx) == 0x123456789ABCDEF;
        let rest = change.access == access && change.next == next && change.flags == flags([Y, N, Y, U]);
        assert!(rt; words && rest, "where rsp is {stack:x} after");
    }
}
