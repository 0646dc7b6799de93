//! Data of valid modules: where globals lie, and the bytes that they have.

use crate::lowered::valid_of;
use data_place::place;
use obj_core::address::SlotAddr;
use rd_num::list::List;
use std::alloc::Global;
use std::test::Fail;

/// A module with its data: constants, other globals, a text, a struct with a gap, a pointer to a
/// global, one behind its start, and one to the only function.
const TEXT: &[u8] = b"@a = constant [3 x i8] c\"ABC\"
    @b = global ptr @d
    @c = constant ptr @main
    @d = global { i8, i32 } { i8 1, i32 -2 }
    @e = global ptr getelementptr (i8, ptr @d, i64 4)
    @f = constant [17 x i8] zeroinitializer
    @g = constant i16 258
    define i32 @main() { ret i32 0 }";

/// Where these globals begin.
const STARTS: [u64; 7] = [
    0x2000_0000,
    0x3000_0000,
    0x2000_0010,
    0x3000_0010,
    0x3000_0020,
    0x2000_0020,
    0x2000_0040,
];

/// The bytes of the constants, with the slot of the function at position 3.
const CONSTANTS: [u8; 80] = [
    65, 66, 67, 0, 0, 0, 0, 0, 0, 0, 0, 0, 0, 0, 0, 0, 0x30, 0, 0, 0x10, 0, 0, 0, 0, 0, 0, 0, 0, 0,
    0, 0, 0, 0, 0, 0, 0, 0, 0, 0, 0, 0, 0, 0, 0, 0, 0, 0, 0, 0, 0, 0, 0, 0, 0, 0, 0, 0, 0, 0, 0, 0,
    0, 0, 0, 2, 1, 0, 0, 0, 0, 0, 0, 0, 0, 0, 0, 0, 0, 0, 0,
];

/// The bytes of the others.
const OTHERS: [u8; 48] = [
    0x10, 0, 0, 0x30, 0, 0, 0, 0, 0, 0, 0, 0, 0, 0, 0, 0, 1, 0, 0, 0, 254, 255, 255, 255, 0, 0, 0,
    0, 0, 0, 0, 0, 0x14, 0, 0, 0x30, 0, 0, 0, 0, 0, 0, 0, 0, 0, 0, 0, 0,
];

/// Whether the data of the module is as it should be.
fn is_placed(alloc: Global) -> Option<bool> {
    let valid = valid_of(alloc, TEXT)?;
    let mut pointers = List::new(alloc);
    pointers.add(SlotAddr::at(3)).ok()?;
    let placing = place(alloc, &valid, &pointers).ok()?;
    let starts: &[u64] = &STARTS;
    let constants: &[u8] = &CONSTANTS;
    let others: &[u8] = &OTHERS;
    Some(
        placing.globals.as_slice() == starts
            && placing.ro.as_slice() == constants
            && placing.rw.as_slice() == others,
    )
}

#[test]
fn data_lies_where_it_should(rt: HostRuntime) -> Result<(), Fail> {
    assert!(rt; is_placed(rt.alloc()) == Some(true));
    Ok(())
}
