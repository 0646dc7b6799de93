//! Worked words and orders.

use crate::{Draw, perm};

#[test]
fn draws_the_worked_words(rt: HostRuntime) {
    let mut draw = Draw::new(0, 0, 0);
    for word in [0xade0_b876, 0x903d_f1a0, 0xe56a_5d40, 0x28bd_8653] {
        assert_eq!(rt; draw.next(), word);
    }
}

#[test]
fn shuffles_into_the_worked_orders(rt: HostRuntime) {
    let orders: [(u32, &[u32]); 3] = [(0, &[]), (1, &[0]), (5, &[2, 1, 3, 0, 4])];
    for (n, order) in orders {
        match perm(rt.alloc(), 0, 0, 0, n) {
            Ok(all) => assert!(rt; all.as_slice() == order, "of {n} numbers"),
            Err(_) => panic!(rt; "no memory for {n} numbers"),
        }
    }
}
