//! Tables of texts, each with what is read of it: the shape of the module, or the fault.

use ir_core::module::{Block, Function, Module};
use ir_lex::{LexFault, lex};
use ir_parse::parse::{ParseFault, parse};
use std::alloc::{AllocError, Global};
use std::test::Fail;

fn show_bytes(out: &mut String, bytes: &[u8]) -> Result<(), AllocError> {
    for b in bytes {
        out.push(char::from(*b))?;
    }
    Ok(())
}

// The label and the number of instructions.
fn show_block(alloc: Global, out: &mut String, block: &Block) -> Result<(), AllocError> {
    let insts = block.insts.len();
    show_bytes(out, block.label.as_slice())?;
    out.push_str(&format!(in alloc; ":{insts}")?)
}

// The name, the names of parameters, and the blocks.
fn show_function(alloc: Global, out: &mut String, function: &Function) -> Result<(), AllocError> {
    out.push_str("; ")?;
    show_bytes(out, function.name.as_slice())?;
    out.push('(')?;
    for param in function.params.as_slice() {
        out.push(' ')?;
        show_bytes(out, param.name.as_slice())?;
    }
    out.push_str(" )")?;
    for block in function.blocks.as_slice() {
        out.push(' ')?;
        show_block(alloc, out, block)?;
    }
    Ok(())
}

// How many types, globals and declarations there are, and the functions.
fn show_module(alloc: Global, module: &Module) -> Result<String, AllocError> {
    let types = module.types.len();
    let globals = module.globals.len();
    let externs = module.externs.len();
    let mut out = format!(in alloc; "{types} {globals} {externs}")?;
    for function in module.functions.as_slice() {
        show_function(alloc, &mut out, function)?;
    }
    Ok(out)
}

fn show_fault(alloc: Global, fault: &ParseFault) -> Result<String, AllocError> {
    match fault {
        ParseFault::Grammar { place } => format!(in alloc; "grammar {place}"),
        ParseFault::Unsupported { place, word } => {
            let mut out = format!(in alloc; "unsupported {place} ")?;
            show_bytes(&mut out, word.as_slice())?;
            Ok(out)
        }
        ParseFault::NoMemory => format!(in alloc; "no memory"),
    }
}

fn show(alloc: Global, text: &[u8]) -> Result<String, Fail> {
    match lex(alloc, text) {
        Err(LexFault::At { place }) => Ok(format!(in alloc; "lex {place}")?),
        Err(LexFault::NoMemory) => Ok(format!(in alloc; "no memory")?),
        Ok(tokens) => match parse(alloc, &tokens, text.len() as u64) {
            Ok(module) => Ok(show_module(alloc, &module)?),
            Err(fault) => Ok(show_fault(alloc, &fault)?),
        },
    }
}

const SMALLEST: &str = "define i32 @main() { ret i32 7 }";

#[test]
fn each_front_of_a_module_stops_here(rt: HostRuntime) -> Result<(), Fail> {
    for (len, want) in [
        (0, "0 0 0"),
        (1, "grammar 0"),
        (5, "grammar 0"),
        (6, "grammar 6"),
        (7, "grammar 7"),
        (8, "grammar 7"),
        (9, "grammar 7"),
        (10, "grammar 10"),
        (11, "grammar 11"),
        (12, "lex 11"),
        (13, "grammar 13"),
        (16, "grammar 16"),
        (17, "grammar 17"),
        (18, "grammar 18"),
        (19, "grammar 19"),
        (20, "grammar 20"),
        (21, "grammar 21"),
        (22, "grammar 21"),
        (23, "grammar 21"),
        (24, "grammar 24"),
        (25, "grammar 25"),
        (26, "grammar 25"),
        (27, "grammar 25"),
        (28, "grammar 28"),
        (29, "grammar 29"),
        (30, "grammar 30"),
        (31, "grammar 31"),
        (32, "0 0 0; main( ) 0:0"),
    ] {
        let front = SMALLEST.as_bytes().get(..len).unwrap_or(b"");
        assert_eq!(rt; show(rt.alloc(), front)?.as_str(), want, "at {len}");
    }
    Ok(())
}

#[test]
fn texts_are_read_so(rt: HostRuntime) -> Result<(), Fail> {
    for (text, want) in [
        (
            "define i64 @f(ptr %p) { %n = ptrtoint ptr %p to i64 ret i64 %n }",
            "unsupported 29 ptrtoint",
        ),
        ("define i32 @main() { ret i32 7 } ~", "lex 33"),
        ("define i32 @main() { ret i32 }", "grammar 29"),
        ("define", "grammar 6"),
        (
            "define void @f(i32 %x, i32, i32 %7, i32) { br label %3 }",
            "0 0 0; f( x 0 7 2 ) 3:0",
        ),
        (
            "%T = type <{ i8, [2 x ptr] }> @g = constant %T <{ i8 1, [2 x ptr] [ptr @g, ptr null] }>, align 8",
            "1 1 0",
        ),
        (
            "define void @f() { a: %p = alloca i8, i32 4, align 1, !dbg !1 store i8 1, ptr %p, align 1, !dbg !1 call void @llvm.dbg.value(metadata i8 1) #dbg_value(i8 1) ret void, !dbg !1 }",
            "0 0 0; f( ) a:2",
        ),
        (
            "define void @f() { store i8 1, ptr null, !dbg !1, align 1 ret void }",
            "grammar 50",
        ),
        (
            "define void @f() { %a = call i8 @llvm.dbg.value() ret void }",
            "grammar 32",
        ),
        (
            "declare void @llvm.dbg.declare(metadata, metadata) #2 declare i32 @f(i32 noundef %x)",
            "0 0 1",
        ),
        ("attributes #0 = { ( [ ) }", "grammar 22"),
        ("@g = global [4294967296 x i8] undef", "grammar 13"),
    ] {
        assert_eq!(rt; show(rt.alloc(), text.as_bytes())?.as_str(), want);
    }
    Ok(())
}

#[test]
fn a_text_of_clang_is_read(rt: HostRuntime) -> Result<(), Fail> {
    let text = "; ModuleID = 'hi.c'\n\
        source_filename = \"hi.c\"\n\
        target datalayout = \"e-m:e-p270:32:32-p271:32:32-p272:64:64-i64:64-f80:128-n8:16:32:64-S128\"\n\
        target triple = \"x86_64-pc-linux-gnu\"\n\n\
        ; Function Attrs: noinline nounwind optnone uwtable\n\
        define dso_local i32 @main() #0 {\n\
        \u{20} %1 = alloca i32, align 4\n\
        \u{20} store i32 0, ptr %1, align 4\n\
        \u{20} %2 = call i32 @putchar(i32 noundef 72)\n\
        \u{20} %3 = call i32 @putchar(i32 noundef 105)\n\
        \u{20} ret i32 0\n\
        }\n\n\
        declare i32 @putchar(i32 noundef) #1\n\n\
        attributes #0 = { noinline nounwind optnone uwtable \"frame-pointer\"=\"all\" \"target-cpu\"=\"x86-64\" }\n\
        attributes #1 = { \"frame-pointer\"=\"all\" \"target-cpu\"=\"x86-64\" }\n\n\
        !llvm.module.flags = !{!0}\n\
        !llvm.ident = !{!1}\n\n\
        !0 = !{i32 1, !\"wchar_size\", i32 4}\n\
        !1 = !{!\"clang version 17.0.0\"}\n";
    assert_eq!(rt;
        show(rt.alloc(), text.as_bytes())?.as_str(),
        "0 0 1; main( ) 0:4"
    );
    Ok(())
}

#[test]
fn words_without_effect_leave_no_trace(rt: HostRuntime) -> Result<(), Fail> {
    let text =
        "@g = private internal common linkonce linkonce_odr weak weak_odr dso_local dso_preemptable default hidden protected \
        unnamed_addr local_unnamed_addr externally_initialized ccc fastcc coldcc global i32 1, section \".data\", align 4, !dbg !0\n\
        define fastcc noundef zeroext signext i32 @f(ptr nonnull noalias nocapture nofree readonly readnone writeonly returned immarg writable \
        dead_on_unwind dereferenceable(4) dereferenceable_or_null(4) sret(i32) captures(none) range(i32 0, 9) initializes((0, 4)) align 4 %p) \
        #0 align 16 section \".text\" unnamed_addr local_unnamed_addr nounwind noreturn uwtable(sync) noinline optnone alwaysinline mustprogress \
        willreturn norecurse nofree nosync nocallback cold hot memory(none) readnone readonly writeonly !prof !{} {\n\
        %a = add nuw nsw exact inbounds nusw disjoint nneg samesign i32 1, 2\n\
        %b = tail call coldcc noundef i32 @f(ptr noundef %p) #1 nounwind memory(none)\n\
        %c = load volatile i32, ptr %p, align 4, !tbaa !1\n\
        ret i32 %c }";
    assert_eq!(rt;
        show(rt.alloc(), text.as_bytes())?.as_str(),
        "0 1 0; f( p ) 0:3"
    );
    Ok(())
}

#[test]
fn words_that_are_not_supported_are_named(rt: HostRuntime) -> Result<(), Fail> {
    let words =
        "half bfloat float double fp128 x86_fp80 ppc_fp128 i128 x86_mmx token opaque ptrtoint inttoptr addrspacecast bitcast fadd fsub fmul \
        fdiv frem fneg fcmp fptrunc fpext fptoui fptosi uitofp sitofp extractvalue insertvalue extractelement insertelement shufflevector invoke resume \
        landingpad cleanupret catchret catchswitch catchpad cleanuppad callbr indirectbr musttail va_arg fence cmpxchg atomicrmw atomic asm module alias \
        ifunc external extern_weak available_externally appending thread_local comdat personality gc prefix prologue byval byref preallocated inalloca \
        inreg nest swiftself swifterror addrspace blockaddress dso_local_equivalent no_cfi splat ... x86_intrcc";
    for word in words.split(' ') {
        let want = format!(in rt.alloc(); "unsupported 0 {word}")?;
        assert_eq!(rt; show(rt.alloc(), word.as_bytes())?.as_str(), want.as_str());
    }
    Ok(())
}

// A global whose type nests so deep.
fn nested(alloc: Global, depth: usize) -> Result<String, AllocError> {
    let mut text = String::new(alloc);
    text.push_str("@g = global ")?;
    for _ in 0..depth {
        text.push_str("[1 x ")?;
    }
    text.push_str("i8")?;
    for _ in 0..depth {
        text.push(']')?;
    }
    text.push_str(" undef")?;
    Ok(text)
}

#[test]
fn types_nest_64_deep_and_groups_without_a_limit(rt: HostRuntime) -> Result<(), Fail> {
    for (depth, want) in [(64, "0 1 0"), (65, "grammar 332")] {
        let text = nested(rt.alloc(), depth)?;
        assert_eq!(rt; show(rt.alloc(), text.as_bytes())?.as_str(), want);
    }
    let mut text = String::new(rt.alloc());
    text.push_str("!0 = !{")?;
    for _ in 0..100000 {
        text.push('(')?;
    }
    assert_eq!(rt;
        show(rt.alloc(), text.as_bytes())?.as_str(),
        "grammar 100007"
    );
    Ok(())
}
