//! Encodings of every row, width and kind of register, as GNU `as` writes them, and bytes
//! that begin no instruction, or only a part of one.
//!
//! A `rex` before the mnemonic gave the forms of bytes whose registers don't ask for one.

use x86_core::instr::{
    AluOp, Cond, Decoded, HighSize, ImmOp, Instr, Mem, ShiftOp, Size, Wide, WidenKind,
};
use x86_core::reg::Reg;
use x86_decode::decode_one;

// How many instructions the bytes spell one after another, up to the first that isn't the next of
// the list. Nothing may be left over.
fn agreeing(bytes: &[u8], instrs: &[Instr]) -> usize {
    let mut rest = bytes;
    for (i, instr) in instrs.iter().enumerate() {
        match decode_one(rest) {
            Decoded::One { instr: read, len } => {
                let here = len as usize;
                if read != *instr || here > rest.len() {
                    return i;
                }
                rest = &rest[here..];
            }
            _ => return i,
        }
    }
    if rest.is_empty() { instrs.len() } else { 0 }
}

// The number of the first bytes that decode to something else, or how many there are.
fn answering(rows: &[&[u8]], want: &Decoded) -> usize {
    for (i, bytes) in rows.iter().enumerate() {
        if decode_one(bytes) != *want {
            return i;
        }
    }
    rows.len()
}

#[test]
#[rattlefmt::skip]
fn moves_and_arithmetic(rt: HostRuntime) {
    let bytes = [
        0x48, 0x89, 0xD8, // mov rax, rbx
        0x89, 0xD8, // mov eax, ebx
        0x41, 0x89, 0xD8, // mov r8d, ebx
        0x4C, 0x89, 0xFB, // mov rbx, r15
        0x44, 0x89, 0xCF, // mov edi, r9d
        0x49, 0x89, 0xE4, // mov r12, rsp
        0x89, 0xE4, // mov esp, esp
        0x48, 0xB8, 0x00, 0x00, 0x00, 0x00, 0x00, 0x00, 0x00, 0x00, // movabs rax, 0x0
        0x48, 0xBF, 0x88, 0x77, 0x66, 0x55, 0x44, 0x33, 0x22, 0x11, // movabs rdi, 0x1122334455667788
        0x49, 0xB8, 0xFF, 0xFF, 0xFF, 0xFF, 0xFF, 0xFF, 0xFF, 0xFF, // movabs r8, 0xffffffffffffffff
        0x49, 0xBF, 0x01, 0x00, 0x00, 0x00, 0x00, 0x00, 0x00, 0x00, // movabs r15, 0x1
        0xB8, 0x00, 0x00, 0x00, 0x00, // mov eax, 0x0
        0xBF, 0x00, 0x00, 0x00, 0x80, // mov edi, 0x80000000
        0x41, 0xB8, 0xFF, 0xFF, 0xFF, 0xFF, // mov r8d, 0xffffffff
        0x41, 0xBF, 0x78, 0x56, 0x34, 0x12, // mov r15d, 0x12345678
        0x01, 0xC8, // add eax, ecx
        0x49, 0x01, 0xD1, // add r9, rdx
        0x44, 0x09, 0xE5, // or ebp, r12d
        0x4D, 0x09, 0xC5, // or r13, r8
        0x21, 0xC8, // and eax, ecx
        0x49, 0x21, 0xD1, // and r9, rdx
        0x44, 0x29, 0xE5, // sub ebp, r12d
        0x4D, 0x29, 0xC5, // sub r13, r8
        0x31, 0xC8, // xor eax, ecx
        0x49, 0x31, 0xD1, // xor r9, rdx
        0x44, 0x39, 0xE5, // cmp ebp, r12d
        0x4D, 0x39, 0xC5, // cmp r13, r8
        0x85, 0xC8, // test eax, ecx
        0x49, 0x85, 0xD1, // test r9, rdx
    ];
    let instrs = [
        Instr::Mov(Wide::W64, Reg::Rax, Reg::Rbx),
        Instr::Mov(Wide::W32, Reg::Rax, Reg::Rbx),
        Instr::Mov(Wide::W32, Reg::R8, Reg::Rbx),
        Instr::Mov(Wide::W64, Reg::Rbx, Reg::R15),
        Instr::Mov(Wide::W32, Reg::Rdi, Reg::R9),
        Instr::Mov(Wide::W64, Reg::R12, Reg::Rsp),
        Instr::Mov(Wide::W32, Reg::Rsp, Reg::Rsp),
        Instr::MovImm64(Reg::Rax, 0x0),
        Instr::MovImm64(Reg::Rdi, 0x1122334455667788),
        Instr::MovImm64(Reg::R8, 0xFFFFFFFFFFFFFFFF),
        Instr::MovImm64(Reg::R15, 0x1),
        Instr::MovImm32(Reg::Rax, 0x0),
        Instr::MovImm32(Reg::Rdi, 0x80000000),
        Instr::MovImm32(Reg::R8, 0xFFFFFFFF),
        Instr::MovImm32(Reg::R15, 0x12345678),
        Instr::Alu(AluOp::Add, Wide::W32, Reg::Rax, Reg::Rcx),
        Instr::Alu(AluOp::Add, Wide::W64, Reg::R9, Reg::Rdx),
        Instr::Alu(AluOp::Or, Wide::W32, Reg::Rbp, Reg::R12),
        Instr::Alu(AluOp::Or, Wide::W64, Reg::R13, Reg::R8),
        Instr::Alu(AluOp::And, Wide::W32, Reg::Rax, Reg::Rcx),
        Instr::Alu(AluOp::And, Wide::W64, Reg::R9, Reg::Rdx),
        Instr::Alu(AluOp::Sub, Wide::W32, Reg::Rbp, Reg::R12),
        Instr::Alu(AluOp::Sub, Wide::W64, Reg::R13, Reg::R8),
        Instr::Alu(AluOp::Xor, Wide::W32, Reg::Rax, Reg::Rcx),
        Instr::Alu(AluOp::Xor, Wide::W64, Reg::R9, Reg::Rdx),
        Instr::Alu(AluOp::Cmp, Wide::W32, Reg::Rbp, Reg::R12),
        Instr::Alu(AluOp::Cmp, Wide::W64, Reg::R13, Reg::R8),
        Instr::Alu(AluOp::Test, Wide::W32, Reg::Rax, Reg::Rcx),
        Instr::Alu(AluOp::Test, Wide::W64, Reg::R9, Reg::Rdx),
    ];
    assert_eq!(rt; agreeing(&bytes, &instrs), instrs.len());
}

#[test]
#[rattlefmt::skip]
fn constants_shifts_and_division(rt: HostRuntime) {
    let bytes = [
        0x81, 0xC4, 0xFF, 0xFF, 0xFF, 0x7F, // add esp, 2147483647
        0x49, 0x81, 0xC4, 0x00, 0x00, 0x00, 0x80, // add r12, -2147483648
        0x81, 0xCB, 0x00, 0x10, 0x00, 0x00, // or ebx, 4096
        0x49, 0x81, 0xCA, 0x00, 0xF0, 0xFF, 0xFF, // or r10, -4096
        0x81, 0xE4, 0xFF, 0xFF, 0xFF, 0x7F, // and esp, 2147483647
        0x49, 0x81, 0xE4, 0x00, 0x00, 0x00, 0x80, // and r12, -2147483648
        0x81, 0xEB, 0x00, 0x10, 0x00, 0x00, // sub ebx, 4096
        0x49, 0x81, 0xEA, 0x00, 0xF0, 0xFF, 0xFF, // sub r10, -4096
        0x81, 0xF4, 0xFF, 0xFF, 0xFF, 0x7F, // xor esp, 2147483647
        0x49, 0x81, 0xF4, 0x00, 0x00, 0x00, 0x80, // xor r12, -2147483648
        0x81, 0xFB, 0x00, 0x10, 0x00, 0x00, // cmp ebx, 4096
        0x49, 0x81, 0xFA, 0x00, 0xF0, 0xFF, 0xFF, // cmp r10, -4096
        0x0F, 0xAF, 0xCA, // imul ecx, edx
        0x4C, 0x0F, 0xAF, 0xF7, // imul r14, rdi
        0x49, 0x0F, 0xAF, 0xF3, // imul rsi, r11
        0xD3, 0xE6, // shl esi, cl
        0x49, 0xD3, 0xE1, // shl r9, cl
        0xD3, 0xEE, // shr esi, cl
        0x49, 0xD3, 0xE9, // shr r9, cl
        0xD3, 0xFE, // sar esi, cl
        0x49, 0xD3, 0xF9, // sar r9, cl
        0x40, 0xF6, 0xF6, // div sil
        0x41, 0xF6, 0xF3, // div r11b
        0x66, 0xF7, 0xF3, // div bx
        0x66, 0x41, 0xF7, 0xF2, // div r10w
        0xF7, 0xF1, // div ecx
        0x41, 0xF7, 0xF0, // div r8d
        0x48, 0xF7, 0xF4, // div rsp
        0x49, 0xF7, 0xF4, // div r12
        0x40, 0xF6, 0xFE, // idiv sil
        0x41, 0xF6, 0xFB, // idiv r11b
        0x66, 0xF7, 0xFB, // idiv bx
        0x66, 0x41, 0xF7, 0xFA, // idiv r10w
        0xF7, 0xF9, // idiv ecx
        0x41, 0xF7, 0xF8, // idiv r8d
        0x48, 0xF7, 0xFC, // idiv rsp
        0x49, 0xF7, 0xFC, // idiv r12
        0x40, 0xF6, 0xF3, // rex div bl
    ];
    let instrs = [
        Instr::AluImm(ImmOp::Add, Wide::W32, Reg::Rsp, 2147483647),
        Instr::AluImm(ImmOp::Add, Wide::W64, Reg::R12, -2147483648),
        Instr::AluImm(ImmOp::Or, Wide::W32, Reg::Rbx, 4096),
        Instr::AluImm(ImmOp::Or, Wide::W64, Reg::R10, -4096),
        Instr::AluImm(ImmOp::And, Wide::W32, Reg::Rsp, 2147483647),
        Instr::AluImm(ImmOp::And, Wide::W64, Reg::R12, -2147483648),
        Instr::AluImm(ImmOp::Sub, Wide::W32, Reg::Rbx, 4096),
        Instr::AluImm(ImmOp::Sub, Wide::W64, Reg::R10, -4096),
        Instr::AluImm(ImmOp::Xor, Wide::W32, Reg::Rsp, 2147483647),
        Instr::AluImm(ImmOp::Xor, Wide::W64, Reg::R12, -2147483648),
        Instr::AluImm(ImmOp::Cmp, Wide::W32, Reg::Rbx, 4096),
        Instr::AluImm(ImmOp::Cmp, Wide::W64, Reg::R10, -4096),
        Instr::Imul(Wide::W32, Reg::Rcx, Reg::Rdx),
        Instr::Imul(Wide::W64, Reg::R14, Reg::Rdi),
        Instr::Imul(Wide::W64, Reg::Rsi, Reg::R11),
        Instr::Shift(ShiftOp::Shl, Wide::W32, Reg::Rsi),
        Instr::Shift(ShiftOp::Shl, Wide::W64, Reg::R9),
        Instr::Shift(ShiftOp::Shr, Wide::W32, Reg::Rsi),
        Instr::Shift(ShiftOp::Shr, Wide::W64, Reg::R9),
        Instr::Shift(ShiftOp::Sar, Wide::W32, Reg::Rsi),
        Instr::Shift(ShiftOp::Sar, Wide::W64, Reg::R9),
        Instr::Div(false, Size::W8, Reg::Rsi),
        Instr::Div(false, Size::W8, Reg::R11),
        Instr::Div(false, Size::W16, Reg::Rbx),
        Instr::Div(false, Size::W16, Reg::R10),
        Instr::Div(false, Size::W32, Reg::Rcx),
        Instr::Div(false, Size::W32, Reg::R8),
        Instr::Div(false, Size::W64, Reg::Rsp),
        Instr::Div(false, Size::W64, Reg::R12),
        Instr::Div(true, Size::W8, Reg::Rsi),
        Instr::Div(true, Size::W8, Reg::R11),
        Instr::Div(true, Size::W16, Reg::Rbx),
        Instr::Div(true, Size::W16, Reg::R10),
        Instr::Div(true, Size::W32, Reg::Rcx),
        Instr::Div(true, Size::W32, Reg::R8),
        Instr::Div(true, Size::W64, Reg::Rsp),
        Instr::Div(true, Size::W64, Reg::R12),
        Instr::Div(false, Size::W8, Reg::Rbx),
    ];
    assert_eq!(rt; agreeing(&bytes, &instrs), instrs.len());
}

#[test]
#[rattlefmt::skip]
fn widening_and_loads(rt: HostRuntime) {
    let bytes = [
        0x66, 0x99, // cwd
        0x99, // cdq
        0x48, 0x99, // cqo
        0x40, 0x0F, 0xB6, 0xC6, // movzx eax, sil
        0x45, 0x0F, 0xB6, 0xDD, // movzx r11d, r13b
        0x40, 0x0F, 0xB6, 0xC0, // rex movzx eax, al
        0x40, 0x0F, 0xB6, 0xE9, // rex movzx ebp, cl
        0x0F, 0xB7, 0xC6, // movzx eax, si
        0x45, 0x0F, 0xB7, 0xDD, // movzx r11d, r13w
        0x48, 0x0F, 0xBE, 0xC6, // movsx rax, sil
        0x4D, 0x0F, 0xBE, 0xDD, // movsx r11, r13b
        0x48, 0x0F, 0xBF, 0xC6, // movsx rax, si
        0x4D, 0x0F, 0xBF, 0xDD, // movsx r11, r13w
        0x48, 0x63, 0xC6, // movsxd rax, esi
        0x4D, 0x63, 0xDD, // movsxd r11, r13d
        0x48, 0x8B, 0x8B, 0x00, 0x00, 0x01, 0x00, // mov rcx, qword ptr [rbx+65536]
        0x48, 0x8B, 0xBC, 0x24, 0x00, 0x00, 0xFF, 0xFF, // mov rdi, qword ptr [rsp-65536]
        0x4D, 0x8B, 0x84, 0x24, 0xFF, 0xFF, 0xFF, 0x7F, // mov r8, qword ptr [r12+2147483647]
        0x4D, 0x8B, 0xBD, 0x00, 0x00, 0x00, 0x80, // mov r15, qword ptr [r13-2147483648]
        0x8B, 0x8B, 0x00, 0x00, 0x01, 0x00, // mov ecx, dword ptr [rbx+65536]
        0x8B, 0xBC, 0x24, 0x00, 0x00, 0xFF, 0xFF, // mov edi, dword ptr [rsp-65536]
        0x45, 0x8B, 0x84, 0x24, 0xFF, 0xFF, 0xFF, 0x7F, // mov r8d, dword ptr [r12+2147483647]
        0x45, 0x8B, 0xBD, 0x00, 0x00, 0x00, 0x80, // mov r15d, dword ptr [r13-2147483648]
        0x0F, 0xB7, 0x8B, 0x00, 0x00, 0x01, 0x00, // movzx ecx, word ptr [rbx+65536]
        0x0F, 0xB7, 0xBC, 0x24, 0x00, 0x00, 0xFF, 0xFF, // movzx edi, word ptr [rsp-65536]
        0x45, 0x0F, 0xB7, 0x84, 0x24, 0xFF, 0xFF, 0xFF, 0x7F, // movzx r8d, word ptr [r12+2147483647]
        0x45, 0x0F, 0xB7, 0xBD, 0x00, 0x00, 0x00, 0x80, // movzx r15d, word ptr [r13-2147483648]
        0x0F, 0xB6, 0x8B, 0x00, 0x00, 0x01, 0x00, // movzx ecx, byte ptr [rbx+65536]
        0x0F, 0xB6, 0xBC, 0x24, 0x00, 0x00, 0xFF, 0xFF, // movzx edi, byte ptr [rsp-65536]
        0x45, 0x0F, 0xB6, 0x84, 0x24, 0xFF, 0xFF, 0xFF, 0x7F, // movzx r8d, byte ptr [r12+2147483647]
        0x45, 0x0F, 0xB6, 0xBD, 0x00, 0x00, 0x00, 0x80, // movzx r15d, byte ptr [r13-2147483648]
    ];
    let instrs = [
        Instr::High(HighSize::W16),
        Instr::High(HighSize::W32),
        Instr::High(HighSize::W64),
        Instr::Widen(WidenKind::Zero8, Reg::Rax, Reg::Rsi),
        Instr::Widen(WidenKind::Zero8, Reg::R11, Reg::R13),
        Instr::Widen(WidenKind::Zero8, Reg::Rax, Reg::Rax),
        Instr::Widen(WidenKind::Zero8, Reg::Rbp, Reg::Rcx),
        Instr::Widen(WidenKind::Zero16, Reg::Rax, Reg::Rsi),
        Instr::Widen(WidenKind::Zero16, Reg::R11, Reg::R13),
        Instr::Widen(WidenKind::Sign8, Reg::Rax, Reg::Rsi),
        Instr::Widen(WidenKind::Sign8, Reg::R11, Reg::R13),
        Instr::Widen(WidenKind::Sign16, Reg::Rax, Reg::Rsi),
        Instr::Widen(WidenKind::Sign16, Reg::R11, Reg::R13),
        Instr::Widen(WidenKind::Sign32, Reg::Rax, Reg::Rsi),
        Instr::Widen(WidenKind::Sign32, Reg::R11, Reg::R13),
        Instr::Load(Size::W64, Reg::Rcx, Mem { base: Reg::Rbx, disp: 65536 }),
        Instr::Load(Size::W64, Reg::Rdi, Mem { base: Reg::Rsp, disp: -65536 }),
        Instr::Load(Size::W64, Reg::R8, Mem { base: Reg::R12, disp: 2147483647 }),
        Instr::Load(Size::W64, Reg::R15, Mem { base: Reg::R13, disp: -2147483648 }),
        Instr::Load(Size::W32, Reg::Rcx, Mem { base: Reg::Rbx, disp: 65536 }),
        Instr::Load(Size::W32, Reg::Rdi, Mem { base: Reg::Rsp, disp: -65536 }),
        Instr::Load(Size::W32, Reg::R8, Mem { base: Reg::R12, disp: 2147483647 }),
        Instr::Load(Size::W32, Reg::R15, Mem { base: Reg::R13, disp: -2147483648 }),
        Instr::Load(Size::W16, Reg::Rcx, Mem { base: Reg::Rbx, disp: 65536 }),
        Instr::Load(Size::W16, Reg::Rdi, Mem { base: Reg::Rsp, disp: -65536 }),
        Instr::Load(Size::W16, Reg::R8, Mem { base: Reg::R12, disp: 2147483647 }),
        Instr::Load(Size::W16, Reg::R15, Mem { base: Reg::R13, disp: -2147483648 }),
        Instr::Load(Size::W8, Reg::Rcx, Mem { base: Reg::Rbx, disp: 65536 }),
        Instr::Load(Size::W8, Reg::Rdi, Mem { base: Reg::Rsp, disp: -65536 }),
        Instr::Load(Size::W8, Reg::R8, Mem { base: Reg::R12, disp: 2147483647 }),
        Instr::Load(Size::W8, Reg::R15, Mem { base: Reg::R13, disp: -2147483648 }),
    ];
    assert_eq!(rt; agreeing(&bytes, &instrs), instrs.len());
}

#[test]
#[rattlefmt::skip]
fn stores_and_the_stack(rt: HostRuntime) {
    let bytes = [
        0x48, 0x89, 0x8D, 0x00, 0x00, 0x01, 0x00, // mov qword ptr [rbp+65536], rcx
        0x48, 0x89, 0xB4, 0x24, 0x00, 0x00, 0xFF, 0xFF, // mov qword ptr [rsp-65536], rsi
        0x4D, 0x89, 0x8C, 0x24, 0xFF, 0xFF, 0xFF, 0x7F, // mov qword ptr [r12+2147483647], r9
        0x89, 0x8D, 0x00, 0x00, 0x01, 0x00, // mov dword ptr [rbp+65536], ecx
        0x89, 0xB4, 0x24, 0x00, 0x00, 0xFF, 0xFF, // mov dword ptr [rsp-65536], esi
        0x45, 0x89, 0x8C, 0x24, 0xFF, 0xFF, 0xFF, 0x7F, // mov dword ptr [r12+2147483647], r9d
        0x66, 0x89, 0x8D, 0x00, 0x00, 0x01, 0x00, // mov word ptr [rbp+65536], cx
        0x66, 0x89, 0xB4, 0x24, 0x00, 0x00, 0xFF, 0xFF, // mov word ptr [rsp-65536], si
        0x66, 0x45, 0x89, 0x8C, 0x24, 0xFF, 0xFF, 0xFF, 0x7F, // mov word ptr [r12+2147483647], r9w
        0x40, 0x88, 0x8D, 0x00, 0x00, 0x01, 0x00, // rex mov byte ptr [rbp+65536], cl
        0x40, 0x88, 0xB4, 0x24, 0x00, 0x00, 0xFF, 0xFF, // mov byte ptr [rsp-65536], sil
        0x45, 0x88, 0x8C, 0x24, 0xFF, 0xFF, 0xFF, 0x7F, // mov byte ptr [r12+2147483647], r9b
        0x48, 0x8D, 0x84, 0x24, 0x00, 0x00, 0x01, 0x00, // lea rax, [rsp+65536]
        0x4D, 0x8D, 0xB7, 0x00, 0x00, 0xFF, 0xFF, // lea r14, [r15-65536]
        0x50, // push rax
        0x54, // push rsp
        0x41, 0x50, // push r8
        0x41, 0x57, // push r15
        0x58, // pop rax
        0x5C, // pop rsp
        0x41, 0x58, // pop r8
        0x41, 0x5F, // pop r15
    ];
    let instrs = [
        Instr::Store(Size::W64, Mem { base: Reg::Rbp, disp: 65536 }, Reg::Rcx),
        Instr::Store(Size::W64, Mem { base: Reg::Rsp, disp: -65536 }, Reg::Rsi),
        Instr::Store(Size::W64, Mem { base: Reg::R12, disp: 2147483647 }, Reg::R9),
        Instr::Store(Size::W32, Mem { base: Reg::Rbp, disp: 65536 }, Reg::Rcx),
        Instr::Store(Size::W32, Mem { base: Reg::Rsp, disp: -65536 }, Reg::Rsi),
        Instr::Store(Size::W32, Mem { base: Reg::R12, disp: 2147483647 }, Reg::R9),
        Instr::Store(Size::W16, Mem { base: Reg::Rbp, disp: 65536 }, Reg::Rcx),
        Instr::Store(Size::W16, Mem { base: Reg::Rsp, disp: -65536 }, Reg::Rsi),
        Instr::Store(Size::W16, Mem { base: Reg::R12, disp: 2147483647 }, Reg::R9),
        Instr::Store(Size::W8, Mem { base: Reg::Rbp, disp: 65536 }, Reg::Rcx),
        Instr::Store(Size::W8, Mem { base: Reg::Rsp, disp: -65536 }, Reg::Rsi),
        Instr::Store(Size::W8, Mem { base: Reg::R12, disp: 2147483647 }, Reg::R9),
        Instr::Lea(Reg::Rax, Mem { base: Reg::Rsp, disp: 65536 }),
        Instr::Lea(Reg::R14, Mem { base: Reg::R15, disp: -65536 }),
        Instr::Push(Reg::Rax),
        Instr::Push(Reg::Rsp),
        Instr::Push(Reg::R8),
        Instr::Push(Reg::R15),
        Instr::Pop(Reg::Rax),
        Instr::Pop(Reg::Rsp),
        Instr::Pop(Reg::R8),
        Instr::Pop(Reg::R15),
    ];
    assert_eq!(rt; agreeing(&bytes, &instrs), instrs.len());
}

#[test]
#[rattlefmt::skip]
fn conditions(rt: HostRuntime) {
    let bytes = [
        0x40, 0x0F, 0x90, 0xC4, // seto spl
        0x41, 0x0F, 0x91, 0xC1, // setno r9b
        0x41, 0x0F, 0x92, 0xC6, // setb r14b
        0x40, 0x0F, 0x93, 0xC3, // rex setae bl
        0x41, 0x0F, 0x94, 0xC0, // sete r8b
        0x41, 0x0F, 0x95, 0xC5, // setne r13b
        0x40, 0x0F, 0x96, 0xC2, // rex setbe dl
        0x40, 0x0F, 0x97, 0xC7, // seta dil
        0x41, 0x0F, 0x98, 0xC4, // sets r12b
        0x40, 0x0F, 0x99, 0xC1, // rex setns cl
        0x40, 0x0F, 0x9C, 0xC6, // setl sil
        0x41, 0x0F, 0x9D, 0xC3, // setge r11b
        0x40, 0x0F, 0x9E, 0xC0, // rex setle al
        0x40, 0x0F, 0x9F, 0xC5, // setg bpl
        0x48, 0x0F, 0x40, 0xC2, // cmovo rax, rdx
        0x49, 0x0F, 0x41, 0xD9, // cmovno rbx, r9
        0x48, 0x0F, 0x42, 0xF0, // cmovb rsi, rax
        0x4C, 0x0F, 0x43, 0xCF, // cmovae r9, rdi
        0x4D, 0x0F, 0x44, 0xE6, // cmove r12, r14
        0x4C, 0x0F, 0x45, 0xFD, // cmovne r15, rbp
        0x49, 0x0F, 0x46, 0xD4, // cmovbe rdx, r12
        0x48, 0x0F, 0x47, 0xEB, // cmova rbp, rbx
        0x4D, 0x0F, 0x48, 0xC2, // cmovs r8, r10
        0x4C, 0x0F, 0x49, 0xD9, // cmovns r11, rcx
        0x4D, 0x0F, 0x4C, 0xF0, // cmovl r14, r8
        0x49, 0x0F, 0x4D, 0xCF, // cmovge rcx, r15
        0x48, 0x0F, 0x4E, 0xE6, // cmovle rsp, rsi
        0x49, 0x0F, 0x4F, 0xFD, // cmovg rdi, r13
    ];
    let instrs = [
        Instr::SetCond(Cond::O, Reg::Rsp),
        Instr::SetCond(Cond::No, Reg::R9),
        Instr::SetCond(Cond::B, Reg::R14),
        Instr::SetCond(Cond::Ae, Reg::Rbx),
        Instr::SetCond(Cond::E, Reg::R8),
        Instr::SetCond(Cond::Ne, Reg::R13),
        Instr::SetCond(Cond::Be, Reg::Rdx),
        Instr::SetCond(Cond::A, Reg::Rdi),
        Instr::SetCond(Cond::S, Reg::R12),
        Instr::SetCond(Cond::Ns, Reg::Rcx),
        Instr::SetCond(Cond::L, Reg::Rsi),
        Instr::SetCond(Cond::Ge, Reg::R11),
        Instr::SetCond(Cond::Le, Reg::Rax),
        Instr::SetCond(Cond::G, Reg::Rbp),
        Instr::Cmov(Cond::O, Reg::Rax, Reg::Rdx),
        Instr::Cmov(Cond::No, Reg::Rbx, Reg::R9),
        Instr::Cmov(Cond::B, Reg::Rsi, Reg::Rax),
        Instr::Cmov(Cond::Ae, Reg::R9, Reg::Rdi),
        Instr::Cmov(Cond::E, Reg::R12, Reg::R14),
        Instr::Cmov(Cond::Ne, Reg::R15, Reg::Rbp),
        Instr::Cmov(Cond::Be, Reg::Rdx, Reg::R12),
        Instr::Cmov(Cond::A, Reg::Rbp, Reg::Rbx),
        Instr::Cmov(Cond::S, Reg::R8, Reg::R10),
        Instr::Cmov(Cond::Ns, Reg::R11, Reg::Rcx),
        Instr::Cmov(Cond::L, Reg::R14, Reg::R8),
        Instr::Cmov(Cond::Ge, Reg::Rcx, Reg::R15),
        Instr::Cmov(Cond::Le, Reg::Rsp, Reg::Rsi),
        Instr::Cmov(Cond::G, Reg::Rdi, Reg::R13),
    ];
    assert_eq!(rt; agreeing(&bytes, &instrs), instrs.len());
}

#[test]
#[rattlefmt::skip]
fn branches_and_the_rest(rt: HostRuntime) {
    let bytes = [
        0x0F, 0x80, 0x00, 0x10, 0x00, 0x00, // jo .+6+(4096)
        0x0F, 0x81, 0x00, 0xF0, 0xFF, 0xFF, // jno .+6+(-4096)
        0x0F, 0x82, 0xF0, 0xFF, 0xFF, 0x7F, // jb .+6+(2147483632)
        0x0F, 0x83, 0x10, 0x00, 0x00, 0x80, // jae .+6+(-2147483632)
        0x0F, 0x84, 0x00, 0x10, 0x00, 0x00, // je .+6+(4096)
        0x0F, 0x85, 0x00, 0xF0, 0xFF, 0xFF, // jne .+6+(-4096)
        0x0F, 0x86, 0xF0, 0xFF, 0xFF, 0x7F, // jbe .+6+(2147483632)
        0x0F, 0x87, 0x10, 0x00, 0x00, 0x80, // ja .+6+(-2147483632)
        0x0F, 0x88, 0x00, 0x10, 0x00, 0x00, // js .+6+(4096)
        0x0F, 0x89, 0x00, 0xF0, 0xFF, 0xFF, // jns .+6+(-4096)
        0x0F, 0x8C, 0xF0, 0xFF, 0xFF, 0x7F, // jl .+6+(2147483632)
        0x0F, 0x8D, 0x10, 0x00, 0x00, 0x80, // jge .+6+(-2147483632)
        0x0F, 0x8E, 0x00, 0x10, 0x00, 0x00, // jle .+6+(4096)
        0x0F, 0x8F, 0x00, 0xF0, 0xFF, 0xFF, // jg .+6+(-4096)
        0xE9, 0x45, 0x23, 0x01, 0x00, // jmp .+5+0x12345
        0xE9, 0xBB, 0xDC, 0xFE, 0xFF, // jmp .+5-0x12345
        0xE8, 0x45, 0x23, 0x01, 0x00, // call .+5+0x12345
        0xE8, 0xBB, 0xDC, 0xFE, 0xFF, // call .+5-0x12345
        0xC3, // ret
        0x41, 0xFF, 0xD3, // call r11
        0x41, 0xFF, 0xE3, // jmp r11
        0x0F, 0x05, // syscall
        0x0F, 0x0B, // ud2
        0xCC, // int3
        0x90, // nop
    ];
    let instrs = [
        Instr::Jcc(Cond::O, 4096),
        Instr::Jcc(Cond::No, -4096),
        Instr::Jcc(Cond::B, 2147483632),
        Instr::Jcc(Cond::Ae, -2147483632),
        Instr::Jcc(Cond::E, 4096),
        Instr::Jcc(Cond::Ne, -4096),
        Instr::Jcc(Cond::Be, 2147483632),
        Instr::Jcc(Cond::A, -2147483632),
        Instr::Jcc(Cond::S, 4096),
        Instr::Jcc(Cond::Ns, -4096),
        Instr::Jcc(Cond::L, 2147483632),
        Instr::Jcc(Cond::Ge, -2147483632),
        Instr::Jcc(Cond::Le, 4096),
        Instr::Jcc(Cond::G, -4096),
        Instr::Jmp(0x12345),
        Instr::Jmp(-0x12345),
        Instr::Call(0x12345),
        Instr::Call(-0x12345),
        Instr::Ret,
        Instr::CallR11,
        Instr::JmpR11,
        Instr::Syscall,
        Instr::Ud2,
        Instr::Int3,
        Instr::Nop,
    ];
    assert_eq!(rt; agreeing(&bytes, &instrs), instrs.len());
}

#[test]
#[rattlefmt::skip]
fn bytes_that_begin_no_instruction(rt: HostRuntime) {
    let rows: [&[u8]; 43] = [
        &[0xEB, 0x00],
        &[0x42, 0x89, 0xD8],
        &[0x40, 0x89, 0xD8],
        &[0x48, 0x48, 0x89, 0xD8],
        &[0x66, 0x48, 0x89, 0x8D, 0x00, 0x00, 0x01, 0x00],
        &[0x66, 0x40, 0xF7, 0xF3],
        &[0x66, 0x89, 0xD8],
        &[0x66, 0x0F],
        &[0x66, 0x90],
        &[0x0F, 0xB6, 0xC3],
        &[0x88, 0x8D, 0x00, 0x00, 0x01, 0x00],
        &[0xF6, 0xF3],
        &[0x0F, 0x94, 0xC0],
        &[0x8B, 0xC3],
        &[0x89, 0x45, 0x08],
        &[0x48, 0x8B, 0x01],
        &[0x48, 0x8B, 0x84, 0x25, 0x00, 0x00, 0x01, 0x00],
        &[0x81, 0xD3],
        &[0x44, 0x81],
        &[0xD3, 0xCB],
        &[0x44, 0xD3],
        &[0xF7, 0xC3],
        &[0x40, 0x0F, 0x94, 0xC8],
        &[0x44, 0x0F, 0x94],
        &[0x40, 0x0F, 0x9A],
        &[0x48, 0xFF],
        &[0x41, 0xFF, 0xD2],
        &[0x48, 0x90],
        &[0x48, 0xC3],
        &[0x44, 0x50],
        &[0x49, 0x50],
        &[0x48, 0xE9],
        &[0x41, 0xE8],
        &[0x41, 0x0F, 0x05],
        &[0x48, 0x0F, 0xB6],
        &[0x0F, 0x40],
        &[0x63, 0xC6],
        &[0x8D, 0x84],
        &[0x4C, 0x99],
        &[0x41, 0x99],
        &[0x83, 0xC0, 0x01],
        &[0xF2],
        &[0x6A, 0x00],
    ];
    assert_eq!(rt; answering(&rows, &Decoded::Unknown), rows.len());
}

#[test]
#[rattlefmt::skip]
fn parts_of_an_instruction(rt: HostRuntime) {
    let rows: [&[u8]; 28] = [
        &[],
        &[0x48],
        &[0x48, 0x89],
        &[0x40],
        &[0x40, 0x0F],
        &[0x40, 0x0F, 0xB6],
        &[0x40, 0x88],
        &[0x66],
        &[0x66, 0x41],
        &[0x66, 0x44, 0x89],
        &[0x66, 0xF7],
        &[0x0F],
        &[0x0F, 0xAF],
        &[0x0F, 0xB6],
        &[0x0F, 0xB7],
        &[0x0F, 0x84, 0x00, 0x00, 0x00],
        &[0x48, 0x8B],
        &[0x48, 0x8B, 0x84],
        &[0x48, 0x8B, 0x84, 0x24],
        &[0x48, 0x8B, 0x84, 0x24, 0x00, 0x00, 0x00],
        &[0x49, 0x81, 0xC4, 0x00, 0x00, 0x00],
        &[0xE9],
        &[0xE8, 0x00, 0x00, 0x00],
        &[0xB8, 0x00, 0x00, 0x00],
        &[0x48, 0xB8, 0x00, 0x00, 0x00, 0x00, 0x00, 0x00, 0x00],
        &[0x41, 0xFF],
        &[0x41, 0x0F],
        &[0x4D, 0x0F, 0x44],
    ];
    assert_eq!(rt; answering(&rows, &Decoded::Short), rows.len());
}
