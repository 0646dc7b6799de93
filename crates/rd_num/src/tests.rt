//! Each call once with memory enough, on rows that tell its ends.

use crate::boxed::Boxed;
use crate::bytes::{get_u32_le, get_u64_le, put_u32_le, put_u64_le};
use crate::copied::copy_list;
use crate::list::List;
use crate::width::{NoMemory, Width, sign, wrap};

#[test]
fn numbers_wrap_and_have_signs(rt: HostRuntime) {
    for (width, n, low, number) in [
        (Width::W1, 3, 1, -1),
        (Width::W1, 2, 0, 0),
        (Width::W8, 0x17F, 0x7F, 127),
        (Width::W8, 0x180, 0x80, -128),
        (Width::W16, 0x1_8000, 0x8000, -32_768),
        (Width::W32, 0x1_7FFF_FFFF, 0x7FFF_FFFF, 2_147_483_647),
        (Width::W32, 0xFFFF_FFFF, 0xFFFF_FFFF, -1),
        (Width::W64, u64::MAX, u64::MAX, -1),
    ] {
        assert_eq!(rt; wrap(width, n), low);
        assert_eq!(rt; sign(width, n), number);
    }
}

#[test]
fn words_are_bytes_lowest_first(rt: HostRuntime) {
    let four = put_u32_le(0x0403_0201);
    let eight = put_u64_le(0x0807_0605_0403_0201);
    assert_eq!(rt; four, [1, 2, 3, 4]);
    assert_eq!(rt; eight, [1, 2, 3, 4, 5, 6, 7, 8]);
    assert_eq!(rt; get_u32_le(&eight), Some(0x0403_0201));
    assert_eq!(rt; get_u32_le(&four[..3]), None);
    assert_eq!(rt; get_u64_le(&eight), Some(0x0807_0605_0403_0201));
    assert_eq!(rt; get_u64_le(&eight[..7]), None);
}

#[test]
fn lists_and_boxes_hold_what_they_got(rt: HostRuntime) {
    let alloc = rt.alloc();
    let mut list = List::new(alloc);
    assert!(rt; list.is_empty());
    assert_eq!(rt; list.append(b"ab"), Ok(()));
    assert_eq!(rt; list.add(b'c'), Ok(()));
    list.set(0, b'x');
    assert_eq!(rt; list.len(), 3);
    assert_eq!(rt; list.get(2), Some(&b'c'));
    assert_eq!(rt; list.get(3), None);
    let Ok(copy) = copy_list(alloc, list.as_slice()) else {
        panic!(rt; "no memory");
    };
    assert!(rt; copy == list);
    assert!(rt; copy.as_slice() == b"xbc".as_slice());
    let Ok(boxed) = Boxed::new(alloc, 7_u64) else {
        panic!(rt; "no memory");
    };
    assert_eq!(rt; boxed.get(), &7);
}
