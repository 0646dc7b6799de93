//! Phis and switches taken out of valid modules: how many chunks the first function comes to.

ghost use Rattle.std.specs.Prelude.{◌≤◌, length, IfSome};
ghost use Rattle.ir_core.specs.Built.{IsBuilt};

use ir_check::check;
use ir_core::module::Module;
use ir_core::valid::Valid;
use ir_lex::lex;
use ir_parse::parse::parse;
use low_core::moves::Body;
use rd_num::bytes::bytes_known;
use std::alloc::Global;
use std::test::Fail;

/// The most bytes of a text.
const LIMIT: usize = 8_388_608;

/// Modules, and the chunks of the first function: its blocks, with a chunk for each two blocks that an
/// edge to phis leads between; and then besides with those of compare trees.
const CHUNKS: [(&[u8], usize, usize); 9] = [
    (
        b"define i32 @main() { e: br label %h h: %i = phi i32 [ 0, %e ], [ %j, %h ] %a = phi i32
          [ 65, %e ], [ %b, %h ] %b = phi i32 [ 66, %e ], [ %a, %h ] %p = call i32 @putchar(i32 %a)
          %j = add i32 %i, 1 %q = icmp eq i32 %j, 5 br i1 %q, label %z, label %h z: ret i32 0 }
          declare i32 @putchar(i32)",
        5,
        5,
    ),
    (
        b"define i32 @main() { e: br label %h h: %a = phi i32 [ 1, %e ], [ %b, %h ] %b = phi i32
          [ 2, %e ], [ %c, %h ] %c = phi i32 [ 3, %e ], [ %a, %h ] %q = icmp eq i32 %a, 3
          br i1 %q, label %z, label %h z: ret i32 %b }",
        5,
        5,
    ),
    (
        b"define i32 @main() { e: switch i64 7, label %d [ i64 -9223372036854775808, label %a
          i64 -1, label %b i64 9223372036854775807, label %c ] a: ret i32 1 b: ret i32 2
          c: ret i32 3 d: ret i32 4 }",
        5,
        8,
    ),
    (
        b"define i32 @main() { e: switch i32 1, label %d [ i32 1, label %c i32 2, label %c ]
          c: %x = phi i32 [ 5, %e ], [ 5, %e ] ret i32 %x d: ret i32 0 }",
        4,
        6,
    ),
    (
        b"define i32 @main() { e: br label %l l: %x = phi i32 [ 0, %e ], [ %x, %l ]
          br i1 true, label %l, label %z z: ret i32 %x }",
        5,
        5,
    ),
    (
        b"define i32 @main() { e: %c = icmp eq i32 1, 2 switch i1 %c, label %d [ i1 true, label %a
          i1 0, label %b ] a: ret i32 1 b: ret i32 2 d: ret i32 3 }",
        4,
        6,
    ),
    (
        b"define i32 @main() { e: switch i8 -128, label %d [ i8 127, label %a i8 -128, label %a
          i8 0, label %a i8 -1, label %a i8 1, label %a ] a: ret i32 1 d: ret i32 2 }",
        3,
        9,
    ),
    (
        b"define i32 @main() { e: switch i8 7, label %d [ ] d: ret i32 0 }",
        2,
        3,
    ),
    (b"define i32 @main() { ret i32 7 }", 1, 1),
];

/// The module of a text, as the grammar builds it.
fn module_of(alloc: Global, text: &[u8]) -> Option<Module>
    requires { length text.now ≤ 8388608 }
    ensures { IfSome result IsBuilt }
{
    bytes_known(text);
    let Ok(tokens) = lex(alloc, text) else {
        return None;
    };
    match parse(alloc, &tokens, text.len() as u64) {
        Ok(module) => Some(module),
        Err(_) => None,
    }
}

/// The module of a text, if it is valid.
pub(crate) fn valid_of(alloc: Global, text: &[u8]) -> Option<Valid> {
    if text.len() > LIMIT {
        return None;
    }
    let whole = module_of(alloc, text)?;
    check(alloc, whole).ok()
}

/// The number of chunks of the first function.
fn first_chunks(bodies: &[Body]) -> usize {
    match bodies {
        [first, ..] => first.chunks.len(),
        [] => 0,
    }
}

/// The numbers of chunks without phis and without switches, if the text is that of a valid module.
fn chunks(alloc: Global, text: &[u8]) -> Option<(usize, usize)> {
    let valid = valid_of(alloc, text)?;
    let low = phi_lower::lower(alloc, &valid).ok()?;
    let lean = switch_lower::lower(alloc, &low).ok()?;
    Some((
        first_chunks(low.bodies.as_slice()),
        first_chunks(lean.bodies.as_slice()),
    ))
}

#[test]
fn modules_come_to_chunks(rt: HostRuntime) -> Result<(), Fail> {
    for (text, without_phis, without_switches) in CHUNKS {
        assert!(rt; chunks(rt.alloc(), text) == Some((without_phis, without_switches)));
    }
    Ok(())
}
