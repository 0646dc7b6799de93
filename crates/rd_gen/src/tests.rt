//! Texts of small modules, whole.

use crate::module;
use rd_num::width::NoMemory;

const OF_ONE: &[u8] = b"declare i32 @putchar(i32)
define i32 @f0(i32 %x) {
e:
  %a = mul i32 %x, 3
  %b = add i32 %a, 1
  ret i32 %b
}
define i32 @main() {
e:
  br label %h
h:
  %i = phi i32 [ 0, %e ], [ %j, %h ]
  %r = call i32 @f0(i32 %i)
  %s = and i32 %r, 15
  %t = add i32 %s, 65
  %p = call i32 @putchar(i32 %t)
  %j = add i32 %i, 1
  %q = icmp eq i32 %j, 100
  br i1 %q, label %z, label %h
z:
  ret i32 0
}
";

#[test]
fn module_of_one(rt: HostRuntime) -> Result<(), NoMemory> {
    let text = module(rt.alloc(), 1)?;
    assert!(rt; text.as_slice() == OF_ONE);
    Ok(())
}
