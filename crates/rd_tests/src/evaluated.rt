//! Modules taken by their meaning, and the images that are built of them: worked rows, one for each
//! way in which a run can stand.

use rd_io::memory::{File, MemFiles, MemSink, MemSource};
use rd_io::sure::SureSink;
use rd_num::copied::copy_list;
use rd_num::list::List;
use rd_num::width::NoMemory;
use rd_top::top;
use std::alloc::{AllocError, Global};
use std::test::Fail;

/// More steps than any row takes.
const MANY: &str = "10000000";

/// Modules that take no input and print nothing, and the line of each.
#[rattlefmt::skip]
const LINES: [(&[u8], &[u8]); 32] = [
    (
        b"define i32 @main() { ret i32 263 }",
        b"ended 7\n",
    ),
    (
        b"define i32 @main() { %p = alloca i8 store i8 200, ptr %p %x = load i8, ptr %p %y =
          add i8 %x, 100 %z = zext i8 %y to i32 ret i32 %z }",
        b"ended 44\n",
    ),
    (
        b"define i32 @main() { %r = sdiv i8 -128, -1 ret i32 0 }",
        b"trapped divide\n",
    ),
    (
        b"define i32 @main() { %r = urem i8 5, 0 ret i32 0 }",
        b"trapped divide\n",
    ),
    (
        b"define i32 @main() { %r = shl i8 1, 11 %z = zext i8 %r to i32 ret i32 %z }",
        b"ended 8\n",
    ),
    (
        b"define i32 @main() { e: br i1 true, label %a, label %b a: %x = add i32 1, 2 br label
          %c b: br label %c c: ret i32 %x }",
        b"ended 3\n",
    ),
    (
        b"define i32 @main() { e: br i1 false, label %a, label %b a: %x = add i32 1, 2 br
          label %c b: br label %c c: ret i32 %x }",
        b"left unset\n",
    ),
    (
        b"define i32 @main() { %a = call i32 @r(i32 8190) ret i32 %a } define i32 @r(i32 %n) {
          e: %q = icmp eq i32 %n, 0 br i1 %q, label %z, label %m z: ret i32 0 m: %k = sub i32
          %n, 1 %a = call i32 @r(i32 %k) ret i32 %a }",
        b"ended 0\n",
    ),
    (
        b"define i32 @main() { %a = call i32 @r(i32 8191) ret i32 %a } define i32 @r(i32 %n) {
          e: %q = icmp eq i32 %n, 0 br i1 %q, label %z, label %m z: ret i32 0 m: %k = sub i32
          %n, 1 %a = call i32 @r(i32 %k) ret i32 %a }",
        b"trapped depth\n",
    ),
    (
        b"define i32 @main(i32 %n, ptr %p) { e: %q = icmp eq i32 %n, 0 br i1 %q, label %f,
          label %g g: ret i32 5 f: %a = call i32 @main(i32 1, ptr null) %b = add i32 %a, 1 ret
          i32 %b }",
        b"ended 6\n",
    ),
    (
        b"declare i32 @getchar() define i32 @main() { %c = call i32 @getchar() ret i32 %c }",
        b"ended 255\n",
    ),
    (
        b"declare void @exit(i32) define i32 @main() { call void @exit(i32 -2) unreachable }",
        b"ended 254\n",
    ),
    (
        b"define i32 @main() { unreachable }",
        b"trapped trap\n",
    ),
    (
        b"declare void @llvm.trap() define i32 @main() { call void @llvm.trap() ret i32 0 }",
        b"trapped trap\n",
    ),
    (
        b"define i32 @main() { %a = alloca i32 %b = alloca i32 %e = getelementptr i32, ptr %a,
          i64 1 %q = icmp eq ptr %e, %b ret i32 0 }",
        b"left equal\n",
    ),
    (
        b"define i32 @main() { %a = alloca i32 %x = load i32, ptr %a ret i32 %x }",
        b"left unset\n",
    ),
    (
        b"define i32 @main() { e: switch i32 1, label %d [ i32 1, label %c i32 2, label %c ]
          c: %x = phi i32 [ 5, %e ], [ 5, %e ] ret i32 %x d: ret i32 0 }",
        b"ended 5\n",
    ),
    (
        b"define i32 @main() { %x = load i32, ptr null ret i32 %x }",
        b"left bounds\n",
    ),
    (
        b"define i32 @main() { %a = alloca i32 %e = getelementptr i32, ptr %a, i64 1 store i32
          0, ptr %e ret i32 0 }",
        b"left bounds\n",
    ),
    (
        b"define ptr @f() { %a = alloca i32 ret ptr %a } define i32 @main() { %p = call ptr
          @f() store i32 0, ptr %p ret i32 0 }",
        b"left dead\n",
    ),
    (
        b"define ptr @f() { %a = alloca i32 ret ptr %a } define i32 @main() { %p = call ptr
          @f() %e = getelementptr i32, ptr %p, i64 1 store i32 0, ptr %e ret i32 0 }",
        b"left dead\n",
    ),
    (
        b"@c = constant i32 1 define i32 @main() { store i32 0, ptr @c ret i32 0 }",
        b"left constant\n",
    ),
    (
        b"@c = constant i32 1 define i32 @main() { store i64 0, ptr @c ret i32 0 }",
        b"left bounds\n",
    ),
    (
        b"@c = global ptr @c define i32 @main() { %x = load i32, ptr @c ret i32 %x }",
        b"left mixed\n",
    ),
    (
        b"define i32 @main() { %a = alloca i64 store i32 1, ptr %a %x = load i64, ptr %a ret
          i32 0 }",
        b"left unset\n",
    ),
    (
        b"define i32 @main() { %a = alloca i32 %b = alloca i32 %q = icmp ult ptr %a, %b ret
          i32 0 }",
        b"left order\n",
    ),
    (
        b"define i32 @main() { %a = alloca i32 %x = call i32 %a() ret i32 0 }",
        b"left callee\n",
    ),
    (
        b"declare void @llvm.memcpy.p0.p0.i64(ptr, ptr, i64, i1) define i32 @main() { %a =
          alloca i64 store i64 1, ptr %a %e = getelementptr i8, ptr %a, i64 1 call void
          @llvm.memcpy.p0.p0.i64(ptr %e, ptr %a, i64 2, i1 false) ret i32 0 }",
        b"left overlap\n",
    ),
    (
        b"@c = constant i64 1 declare void @llvm.memcpy.p0.p0.i64(ptr, ptr, i64, i1) define
          i32 @main() { %e = getelementptr i8, ptr @c, i64 1 call void
          @llvm.memcpy.p0.p0.i64(ptr %e, ptr @c, i64 2, i1 false) ret i32 0 }",
        b"left constant\n",
    ),
    (
        b"define i32 @main() { %e = getelementptr i8, ptr null, i64 1 ret i32 0 }",
        b"left gep\n",
    ),
    (
        b"define i32 @main() { %e = getelementptr i8, ptr null, i64 0 ret i32 9 }",
        b"ended 9\n",
    ),
    (
        b"define i32 @main() { %a = call i32 @f(i32 0, i32 1, i32 2, i32 3, i32 4, i32 5, i32
          6, i32 7, i32 8, i32 9, i32 10, i32 11, i32 12, i32 13, i32 14, i32 15, i32 16, i32
          17, i32 18, i32 19, i32 20, i32 21, i32 22, i32 23, i32 24, i32 25, i32 26, i32 27,
          i32 28, i32 29, i32 30, i32 31) ret i32 %a } define i32 @f(i32 %p0, i32 %p1, i32
          %p2, i32 %p3, i32 %p4, i32 %p5, i32 %p6, i32 %p7, i32 %p8, i32 %p9, i32 %p10, i32
          %p11, i32 %p12, i32 %p13, i32 %p14, i32 %p15, i32 %p16, i32 %p17, i32 %p18, i32
          %p19, i32 %p20, i32 %p21, i32 %p22, i32 %p23, i32 %p24, i32 %p25, i32 %p26, i32
          %p27, i32 %p28, i32 %p29, i32 %p30, i32 %p31) { %s0 = add i32 %p0, %p1 %s1 = add i32
          %s0, %p2 %s2 = add i32 %s1, %p3 %s3 = add i32 %s2, %p4 %s4 = add i32 %s3, %p5 %s5 =
          add i32 %s4, %p6 %s6 = add i32 %s5, %p7 %s7 = add i32 %s6, %p8 %s8 = add i32 %s7,
          %p9 %s9 = add i32 %s8, %p10 %s10 = add i32 %s9, %p11 %s11 = add i32 %s10, %p12 %s12
          = add i32 %s11, %p13 %s13 = add i32 %s12, %p14 %s14 = add i32 %s13, %p15 %s15 = add
          i32 %s14, %p16 %s16 = add i32 %s15, %p17 %s17 = add i32 %s16, %p18 %s18 = add i32
          %s17, %p19 %s19 = add i32 %s18, %p20 %s20 = add i32 %s19, %p21 %s21 = add i32 %s20,
          %p22 %s22 = add i32 %s21, %p23 %s23 = add i32 %s22, %p24 %s24 = add i32 %s23, %p25
          %s25 = add i32 %s24, %p26 %s26 = add i32 %s25, %p27 %s27 = add i32 %s26, %p28 %s28 =
          add i32 %s27, %p29 %s29 = add i32 %s28, %p30 %s30 = add i32 %s29, %p31 ret i32 %s30
          }",
        b"ended 240\n",
    ),
];

/// Modules, so many steps, what is given, what comes out, and the line.
#[rattlefmt::skip]
const EXCHANGES: [(&[u8], &str, &[u8], &[u8], &[u8]); 6] = [
    (
        b"define i32 @main() { ret i32 7 }",
        "1", b"", b"", b"ended 7\n",
    ),
    (
        b"define i32 @main() { ret i32 7 }",
        "0", b"", b"", b"going\n",
    ),
    (
        b"define i32 @main() { e: br label %h h: %i = phi i32 [ 0, %e ], [ %j, %h ] %a = phi
          i32 [ 65, %e ], [ %b, %h ] %b = phi i32 [ 66, %e ], [ %a, %h ] %p = call i32
          @putchar(i32 %a) %j = add i32 %i, 1 %q = icmp eq i32 %j, 5 br i1 %q, label %z, label
          %h z: ret i32 0 } declare i32 @putchar(i32)",
        "10000000", b"", b"ABABA", b"ended 0\n",
    ),
    (
        b"declare i32 @putchar(i32) define i32 @main() { call void @f(i64
          -9223372036854775808) call void @f(i64 -1) call void @f(i64 9223372036854775807)
          call void @f(i64 0) ret i32 0 } define void @f(i64 %n) { e: switch i64 %n, label %d
          [ i64 -9223372036854775808, label %a i64 -1, label %b i64 9223372036854775807, label
          %c ] a: %w = call i32 @putchar(i32 65) ret void b: %x = call i32 @putchar(i32 66)
          ret void c: %y = call i32 @putchar(i32 67) ret void d: %z = call i32 @putchar(i32
          68) ret void }",
        "10000000", b"", b"ABCD", b"ended 0\n",
    ),
    (
        b"declare i32 @getchar() define i32 @main() { %c = call i32 @getchar() ret i32 %c }",
        "10000000", b"A", b"", b"ended 65\n",
    ),
    (
        b"declare i32 @putchar(i32) define i32 @main() { call void @f(i64
          -9223372036854775808) call void @f(i64 -1) call void @f(i64 9223372036854775807)
          call void @f(i64 0) ret i32 0 } define void @f(i64 %n) { e: switch i64 %n, label %d
          [ ] d: %z = call i32 @putchar(i32 68) ret void }",
        "10000000", b"", b"DDDD", b"ended 0\n",
    ),
];

/// The status that belongs to a line.
fn status_of(line: &[u8]) -> u8 {
    match line {
        [b'e', ..] => 0,
        [b't', ..] => 20,
        [b'g', ..] => 21,
        [b'l', ..] => 23,
        [b'o', ..] => 9,
        _ => 10,
    }
}

/// The file `m`.
fn one_file(alloc: Global, content: &[u8]) -> Result<List<File>, NoMemory> {
    let mut files = List::new(alloc);
    let name = copy_list(alloc, b"m")?;
    let bytes = copy_list(alloc, content)?;
    files.add(File { name, bytes })?;
    Ok(files)
}

fn all_words(alloc: Global, words: &[&str]) -> Result<Vec<String>, AllocError> {
    let mut all = Vec::new(alloc);
    for word in words {
        let mut one = String::new(alloc);
        one.push_str(word)?;
        all.push(one)?;
    }
    Ok(all)
}

/// Whether a run of the file `m` by this command prints this and ends with this line and its
/// status, where these calls of the input and the output fail.
fn stands(
    alloc: Global,
    command: &str,
    steps: &str,
    files: List<File>,
    input: &mut MemSource,
    out: &mut MemSink,
    line: &[u8],
) -> Result<bool, Fail> {
    let words = all_words(alloc, &[command, "m", "--steps", steps])?;
    let mut files = MemFiles::new(files, List::new(alloc));
    let mut err = SureSink::new(alloc);
    let status = top(alloc, words.as_slice(), &mut files, input, out, &mut err);
    Ok(status == status_of(line) && err.bytes().as_slice() == line)
}

#[test]
fn modules_stand_so(rt: HostRuntime) -> Result<(), Fail> {
    let alloc = rt.alloc();
    for (text, line) in LINES {
        let mut input = MemSource::new(List::new(alloc), List::new(alloc));
        let mut out = MemSink::new(alloc, List::new(alloc));
        let files = one_file(alloc, text)?;
        assert!(rt; stands(alloc, "eval", MANY, files, &mut input, &mut out, line)?);
        assert!(rt; out.bytes().is_empty());
    }
    for (text, steps, given, printed, line) in EXCHANGES {
        let mut input = MemSource::new(copy_list(alloc, given)?, List::new(alloc));
        let mut out = MemSink::new(alloc, List::new(alloc));
        let files = one_file(alloc, text)?;
        assert!(rt; stands(alloc, "eval", steps, files, &mut input, &mut out, line)?);
        assert!(rt; out.bytes().as_slice() == printed);
    }
    Ok(())
}

/// The line of an image whose module has this one; none where the meaning leaves the run open, or
/// where the run goes on.
fn line_of_image<'a>(line: &'a [u8]) -> Option<&'a [u8]> {
    if line == b"trapped depth\n".as_slice() {
        return Some(b"trapped breakpoint\n");
    }
    if line == b"trapped trap\n".as_slice() {
        return Some(b"trapped invalid\n");
    }
    match line {
        [b'l' | b'g', ..] => None,
        _ => Some(line),
    }
}

/// Seeds of slots, of registers and of the layout.
const SEEDS: [[&str; 3]; 2] = [["1", "2", "3"], ["7", "8", "18446744073709551615"]];

/// The image of a module, empty where none is made.
fn image_of(alloc: Global, text: &[u8], seeds: [&str; 3]) -> Result<List<u8>, Fail> {
    let [slot_seed, reg_seed, layout_seed] = seeds;
    let asked = [
        "build",
        "m",
        "--slot-seed",
        slot_seed,
        "--reg-seed",
        reg_seed,
        "--layout-seed",
        layout_seed,
    ];
    let words = all_words(alloc, &asked)?;
    let mut files = MemFiles::new(one_file(alloc, text)?, List::new(alloc));
    let mut input = MemSource::new(List::new(alloc), List::new(alloc));
    let mut out = SureSink::new(alloc);
    let mut err = SureSink::new(alloc);
    top(
        alloc,
        words.as_slice(),
        &mut files,
        &mut input,
        &mut out,
        &mut err,
    );
    let image = copy_list(alloc, out.bytes().as_slice())?;
    Ok(image)
}

/// Whether the images of a module print and end as its meaning does.
fn images_stand(
    alloc: Global,
    text: &[u8],
    given: &[u8],
    printed: &[u8],
    line: &[u8],
) -> Result<bool, Fail> {
    for seeds in SEEDS {
        let image = image_of(alloc, text, seeds)?;
        let mut input = MemSource::new(copy_list(alloc, given)?, List::new(alloc));
        let mut out = MemSink::new(alloc, List::new(alloc));
        let files = one_file(alloc, image.as_slice())?;
        let well = stands(alloc, "run", MANY, files, &mut input, &mut out, line)?;
        if !well || out.bytes().as_slice() != printed {
            return Ok(false);
        }
    }
    Ok(true)
}

#[test]
fn images_do_what_modules_mean(rt: HostRuntime) -> Result<(), Fail> {
    let alloc = rt.alloc();
    for (text, line) in LINES {
        if let Some(line) = line_of_image(line) {
            assert!(rt; images_stand(alloc, text, b"", b"", line)?);
        }
    }
    for (text, _, given, printed, line) in EXCHANGES {
        if let Some(line) = line_of_image(line) {
            assert!(rt; images_stand(alloc, text, given, printed, line)?);
        }
    }
    Ok(())
}

/// Prints `Hi!` byte by byte.
const PRINTS: &[u8] =
    b"declare i32 @putchar(i32) define i32 @main() { %a = call i32 @putchar(i32 72)
    %b = call i32 @putchar(i32 105) %c = call i32 @putchar(i32 33) ret i32 0 }";

/// Returns what it is given.
const TAKES: &[u8] = b"declare i32 @getchar() define i32 @main() { %c = call i32 @getchar()
    ret i32 %c }";

#[test]
fn a_run_whose_outside_fails_stands_before_that_step(rt: HostRuntime) -> Result<(), Fail> {
    let alloc = rt.alloc();
    let mut third = List::new(alloc);
    third.add(3)?;
    let mut input = MemSource::new(List::new(alloc), List::new(alloc));
    let mut out = MemSink::new(alloc, third);
    let files = one_file(alloc, PRINTS)?;
    assert!(rt; stands(alloc, "eval", MANY, files, &mut input, &mut out, b"out\n")?);
    assert!(rt; out.bytes().as_slice() == b"Hi".as_slice());
    let mut first = List::new(alloc);
    first.add(1)?;
    let mut input = MemSource::new(List::new(alloc), first);
    let mut out = MemSink::new(alloc, List::new(alloc));
    let files = one_file(alloc, TAKES)?;
    assert!(rt; stands(alloc, "eval", MANY, files, &mut input, &mut out, b"input\n")?);
    assert!(rt; out.bytes().is_empty());
    Ok(())
}
