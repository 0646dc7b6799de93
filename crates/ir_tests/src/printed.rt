//! One table of modules that are made by hand, each with its text.
//!
//! The modules behind the first are never run: their lines are all forms that a text can have, a line
//! for each, and names and bytes that can't stand as they are.

use ir_core::init::{Elem, Init};
use ir_core::instruction::{Arg, BinOp, Case, CastOp, Entry, Inst, Op, Pred, Term};
use ir_core::module::{Block, Extern, Function, GlobalVar, Module, Param};
use ir_core::operand::{Index0, Operand, Place0};
use ir_core::ty::{Name, NamedTy, Ty};
use ir_print::module_text;
use rd_num::boxed::Boxed;
use rd_num::copied::copy_list;
use rd_num::list::List;
use rd_num::width::Width;
use std::alloc::Global;
use std::process::Abort;

const I8: Ty = Ty::Int(Width::W8);

const I32: Ty = Ty::Int(Width::W32);

const I64: Ty = Ty::Int(Width::W64);

fn with<R: Abort, T: Drop>(rt: &R, list: List<T>, item: T) -> List<T> {
    let mut longer = list;
    longer.add(item).expect(rt, "memory");
    longer
}

fn single<R: Abort, T: Drop>(rt: &R, alloc: Global, item: T) -> List<T> {
    with(rt, List::new(alloc), item)
}

fn pair<R: Abort, T: Drop>(rt: &R, alloc: Global, a: T, b: T) -> List<T> {
    with(rt, single(rt, alloc, a), b)
}

fn name(rt: &impl Abort, alloc: Global, bytes: &[u8]) -> Name {
    copy_list(alloc, bytes).expect(rt, "memory")
}

fn local(rt: &impl Abort, alloc: Global, bytes: &[u8]) -> Operand {
    Operand::Local(name(rt, alloc, bytes))
}

fn array(rt: &impl Abort, alloc: Global, count: u32, element: Ty) -> Ty {
    Ty::Array(count, Boxed::new(alloc, element).expect(rt, "memory"))
}

fn one(rt: &impl Abort, alloc: Global, ty: Ty, n: i128) -> List<Elem> {
    let init = Init::Value(Operand::Int(n));
    single(rt, alloc, Elem { ty, init })
}

fn global(rt: &impl Abort, alloc: Global, bytes: &[u8], ty: Ty, init: Init) -> GlobalVar {
    GlobalVar {
        name: name(rt, alloc, bytes),
        constant: false,
        ty,
        init,
    }
}

fn line(rt: &impl Abort, alloc: Global, bytes: &[u8], op: Op) -> Inst {
    Inst {
        result: Some(name(rt, alloc, bytes)),
        op,
    }
}

fn bare(op: Op) -> Inst {
    Inst { result: None, op }
}

fn block(rt: &impl Abort, alloc: Global, label: &[u8], insts: List<Inst>, end: Term) -> Block {
    Block {
        label: name(rt, alloc, label),
        insts,
        end,
    }
}

fn ends(rt: &impl Abort, alloc: Global, label: &[u8], end: Term) -> Block {
    block(rt, alloc, label, List::new(alloc), end)
}

fn one_function(rt: &impl Abort, alloc: Global) -> Module {
    let end = Term::RetValue(I32, Operand::Int(7));
    let main = Function {
        name: name(rt, alloc, b"main"),
        ret: I32,
        params: List::new(alloc),
        blocks: single(rt, alloc, ends(rt, alloc, b"0", end)),
    };
    Module {
        types: List::new(alloc),
        globals: List::new(alloc),
        externs: List::new(alloc),
        functions: single(rt, alloc, main),
    }
}

fn named_types(rt: &impl Abort, alloc: Global) -> List<NamedTy> {
    let t = NamedTy {
        name: name(rt, alloc, b"T"),
        fields: Ty::Struct(pair(rt, alloc, I32, Ty::Ptr)),
    };
    let e = NamedTy {
        name: name(rt, alloc, b"an e"),
        fields: Ty::Packed(List::new(alloc)),
    };
    pair(rt, alloc, t, e)
}

fn place(rt: &impl Abort, alloc: Global) -> Operand {
    let first = Index0 { ty: I64, value: 0 };
    let second = Index0 { ty: I64, value: 1 };
    Operand::Const(Place0 {
        source: array(rt, alloc, 4, I32),
        base: name(rt, alloc, b"a"),
        indices: pair(rt, alloc, first, second),
    })
}

fn arrays(rt: &impl Abort, alloc: Global) -> List<GlobalVar> {
    let bytes = GlobalVar {
        name: name(rt, alloc, b"12"),
        constant: true,
        ty: array(rt, alloc, 4, I8),
        init: Init::Text(name(rt, alloc, b"~\"\\\n")),
    };
    let empty = array(rt, alloc, 0, I8);
    let e = global(rt, alloc, b"e", empty, Init::Array(List::new(alloc)));
    let a = global(rt, alloc, b"a", array(rt, alloc, 4, I32), Init::Zero);
    with(rt, pair(rt, alloc, bytes, e), a)
}

fn structs(rt: &impl Abort, alloc: Global) -> List<GlobalVar> {
    let plain = Ty::Struct(single(rt, alloc, I8));
    let s = global(rt, alloc, b"s", plain, Init::Struct(one(rt, alloc, I8, 1)));
    let packed = Ty::Packed(single(rt, alloc, I8));
    let p = global(
        rt,
        alloc,
        b"p",
        packed,
        Init::Packed(one(rt, alloc, I8, -1)),
    );
    let empty = Ty::Struct(List::new(alloc));
    let x = global(rt, alloc, b"0x", empty, Init::Struct(List::new(alloc)));
    let named = Ty::Named(name(rt, alloc, b"an e"));
    let q = global(rt, alloc, b"q", named, Init::Packed(List::new(alloc)));
    let r = global(rt, alloc, b"r", Ty::Ptr, Init::Value(place(rt, alloc)));
    with(rt, with(rt, with(rt, pair(rt, alloc, s, p), x), q), r)
}

fn externs(rt: &impl Abort, alloc: Global) -> List<Extern> {
    let f = Extern {
        name: name(rt, alloc, b"f"),
        ret: I32,
        params: pair(rt, alloc, I32, Ty::Ptr),
    };
    let exit = Extern {
        name: name(rt, alloc, b"exit"),
        ret: Ty::Void,
        params: single(rt, alloc, I32),
    };
    pair(rt, alloc, f, exit)
}

fn arithmetic(rt: &impl Abort, alloc: Global) -> List<Inst> {
    let add = Op::Bin(BinOp::Add, I32, local(rt, alloc, b"x"), Operand::Int(3));
    let a = line(rt, alloc, b"a", add);
    let equal = Op::Compare(Pred::Eq, I32, local(rt, alloc, b"a"), Operand::Int(5));
    let q = line(rt, alloc, b"q", equal);
    let wider = Op::Cast(CastOp::Zext, I8, local(rt, alloc, b"y"), I32);
    let z = line(rt, alloc, b"z", wider);
    let condition = local(rt, alloc, b"q");
    let select = Op::Select(condition, I32, Operand::Int(1), I32, Operand::Int(2));
    let s = line(rt, alloc, b"s", select);
    let f = line(rt, alloc, b"f", Op::Freeze(I32, local(rt, alloc, b"x")));
    with(rt, with(rt, with(rt, pair(rt, alloc, a, q), z), s), f)
}

fn memory(rt: &impl Abort, alloc: Global) -> List<Inst> {
    let p = line(rt, alloc, b"p", Op::Alloca(I8, 1));
    let x = line(rt, alloc, b"x", Op::Load(I8, local(rt, alloc, b"p")));
    let store = bare(Op::Store(I8, Operand::Int(200), local(rt, alloc, b"p")));
    let index = Arg {
        ty: I64,
        value: Operand::Int(1),
    };
    let element = Op::Gep(I32, local(rt, alloc, b"a"), single(rt, alloc, index));
    let g = line(rt, alloc, b"g", element);
    with(rt, with(rt, pair(rt, alloc, p, x), store), g)
}

fn phi(rt: &impl Abort, alloc: Global) -> Inst {
    let first = Entry {
        value: Operand::Int(0),
        from: name(rt, alloc, b"e"),
    };
    let second = Entry {
        value: local(rt, alloc, b"j"),
        from: name(rt, alloc, b"h"),
    };
    line(
        rt,
        alloc,
        b"i",
        Op::Phi(I32, pair(rt, alloc, first, second)),
    )
}

fn call(rt: &impl Abort, alloc: Global, ret: Ty, callee: &[u8], value: Operand) -> Op {
    let args = single(rt, alloc, Arg { ty: I32, value });
    Op::Call(ret, Operand::Global(name(rt, alloc, callee)), args)
}

fn calls(rt: &impl Abort, alloc: Global) -> List<Inst> {
    let i = phi(rt, alloc);
    let b = local(rt, alloc, b"b");
    let c = line(rt, alloc, b"c", call(rt, alloc, I32, b"f", b));
    let exit = bare(call(rt, alloc, Ty::Void, b"exit", Operand::Int(1)));
    with(rt, pair(rt, alloc, i, c), exit)
}

fn case(rt: &impl Abort, alloc: Global, n: i128) -> Case {
    Case {
        ty: I32,
        value: Operand::Int(n),
        to: name(rt, alloc, b"c"),
    }
}

fn switches(rt: &impl Abort, alloc: Global) -> List<Block> {
    let v = local(rt, alloc, b"v");
    let both = pair(rt, alloc, case(rt, alloc, 1), case(rt, alloc, 2));
    let end = Term::Switch(I32, v, name(rt, alloc, b"d"), both);
    let z = block(rt, alloc, b"z", calls(rt, alloc), end);
    let end = Term::Switch(I32, Operand::Undef, name(rt, alloc, b"d"), List::new(alloc));
    pair(rt, alloc, z, ends(rt, alloc, b"c", end))
}

fn branches(rt: &impl Abort, alloc: Global) -> List<Block> {
    let end = Term::Br(name(rt, alloc, b"h"));
    let e = block(rt, alloc, b"e", arithmetic(rt, alloc), end);
    let q = local(rt, alloc, b"q");
    let end = Term::BrIf(q, name(rt, alloc, b"z"), name(rt, alloc, b"h"));
    let h = block(rt, alloc, b"h", memory(rt, alloc), end);
    let end = Term::BrIf(
        Operand::Bool(true),
        name(rt, alloc, b"an e"),
        name(rt, alloc, b"d"),
    );
    with(rt, pair(rt, alloc, e, h), ends(rt, alloc, b"an e", end))
}

fn returns(rt: &impl Abort, alloc: Global) -> List<Block> {
    let d = ends(rt, alloc, b"d", Term::RetValue(Ty::Ptr, Operand::Null));
    let u = ends(rt, alloc, b"u", Term::RetValue(I32, Operand::Poison));
    let w = ends(rt, alloc, b"w", Term::Ret);
    let y = ends(rt, alloc, b"y", Term::Unreachable);
    with(rt, with(rt, pair(rt, alloc, d, u), w), y)
}

fn function(rt: &impl Abort, alloc: Global, bytes: &[u8], blocks: List<Block>) -> Function {
    let x = Param {
        ty: I32,
        name: name(rt, alloc, b"x"),
    };
    let p = Param {
        ty: Ty::Ptr,
        name: name(rt, alloc, b"p"),
    };
    Function {
        name: name(rt, alloc, bytes),
        ret: I32,
        params: pair(rt, alloc, x, p),
        blocks,
    }
}

fn data(rt: &impl Abort, alloc: Global) -> Module {
    Module {
        types: named_types(rt, alloc),
        globals: structs(rt, alloc),
        externs: externs(rt, alloc),
        functions: List::new(alloc),
    }
}

fn code(rt: &impl Abort, alloc: Global) -> Module {
    let f = function(rt, alloc, b"f", branches(rt, alloc));
    let g = function(rt, alloc, b"g", switches(rt, alloc));
    let h = function(rt, alloc, b"h", returns(rt, alloc));
    Module {
        types: List::new(alloc),
        globals: arrays(rt, alloc),
        externs: List::new(alloc),
        functions: with(rt, pair(rt, alloc, f, g), h),
    }
}

const ONE_FUNCTION: &[u8] = b"define i32 @main() {
0:
  ret i32 7
}
";

const DATA: &[u8] = b"%T = type { i32, ptr }
%\"an e\" = type <{}>
@s = global { i8 } { i8 1 }
@p = global <{ i8 }> <{ i8 -1 }>
@\"0x\" = global {} {}
@q = global %\"an e\" <{}>
@r = global ptr getelementptr ([4 x i32], ptr @a, i64 0, i64 1)
declare i32 @f(i32, ptr)
declare void @exit(i32)
";

const CODE: &[u8] = b"@12 = constant [4 x i8] c\"~\\22\\5C\\0A\"
@e = global [0 x i8] []
@a = global [4 x i32] zeroinitializer
define i32 @f(i32 %x, ptr %p) {
e:
  %a = add i32 %x, 3
  %q = icmp eq i32 %a, 5
  %z = zext i8 %y to i32
  %s = select i1 %q, i32 1, i32 2
  %f = freeze i32 %x
  br label %h
h:
  %p = alloca i8, i32 1
  %x = load i8, ptr %p
  store i8 200, ptr %p
  %g = getelementptr i32, ptr %a, i64 1
  br i1 %q, label %z, label %h
\"an e\":
  br i1 true, label %\"an e\", label %d
}
define i32 @g(i32 %x, ptr %p) {
z:
  %i = phi i32 [ 0, %e ], [ %j, %h ]
  %c = call i32 @f(i32 %b)
  call void @exit(i32 1)
  switch i32 %v, label %d [ i32 1, label %c i32 2, label %c ]
c:
  switch i32 undef, label %d [ ]
}
define i32 @h(i32 %x, ptr %p) {
d:
  ret ptr null
u:
  ret i32 poison
w:
  ret void
y:
  unreachable
}
";

#[test]
fn modules_have_these_texts(rt: HostRuntime) {
    let alloc = rt.alloc();
    for (module, want) in [
        (one_function(&rt, alloc), ONE_FUNCTION),
        (data(&rt, alloc), DATA),
        (code(&rt, alloc), CODE),
    ] {
        let text = module_text(alloc, &module).expect(&rt, "memory");
        assert!(rt; text.as_slice() == want, "{text:?}");
    }
}
