//! Worked files: the smallest object, one with a slot of each kind, and bytes that are no object's.
//!
//! The bytes were put together by hand from docs/object-format.md. A file is read, and its object is
//! written again; a file that is spoiled must name the place where it leaves the format.

use obj_file::fault::FormFault;
use obj_file::read::read;
use obj_file::write::write;
use rd_num::list::List;
use std::alloc::Global;

/// One function `0F 0B`, and an entry slot that goes to it, in format 1.
const SMALLEST: [u8; 70] = [
    0x52, 0x44, 0x4F, 0x31, 1, 0, 0, 0, 0, 0, 0, 0, 0, 0, 0, 0, 0, 0, 0, 0, 0, 0, 0, 0, 1, 0, 0, 0,
    1, 0, 0, 0, 0, 0, 0, 0, 0, 0, 0, 0, 0, 0, 0, 0, 2, 0, 0, 0, 0, 0, 0, 0, 0x0F, 0x0B, 0, 0, 0, 0,
    0, 0, 0, 0, 0, 0, 0, 0, 0, 0, 0, 0,
];

/// The same in format 2.
const SMALLEST_WRITTEN: [u8; 74] = [
    0x52, 0x44, 0x4F, 0x31, 2, 0, 0, 0, 0, 0, 0, 0, 0, 0, 0, 0, 0, 0, 0, 0, 0, 0, 0, 0, 1, 0, 0, 0,
    1, 0, 0, 0, 0, 0, 0, 0, 0, 0, 0, 0, 0, 0, 0, 0, 2, 0, 0, 0, 0, 0, 0, 0, 0, 0, 0, 0, 0x0F, 0x0B,
    0, 0, 0, 0, 0, 0, 0, 0, 0, 0, 0, 0, 0, 0, 0, 0,
];

/// A saved function `E9 00 00 00 00` with a link and two cuts, a plain one `C3`, a slot of each kind, and
/// data, in format 2.
const EACH_KIND: [u8; 177] = [
    0x52, 0x44, 0x4F, 0x31, 2, 0, 0, 0, 1, 0, 0, 0, 0, 0, 0, 0, 2, 0, 0, 0, 0, 0, 0, 0x80, 2, 0, 0,
    0, 5, 0, 0, 0, 1, 0, 0, 0, 2, 0, 0, 0, 1, 0, 0, 0, 5, 0, 0, 0, 1, 0, 0, 0, 2, 0, 0, 0, 0xE9, 0,
    0, 0, 0, 1, 0, 0, 0, 3, 0, 0, 0, 5, 0, 0, 0, 3, 1, 0, 0, 0, 0, 0, 0, 1, 0, 0, 0, 0, 0, 0, 0, 0,
    0, 0, 0, 0xC3, 0, 0, 0, 0, 0, 0, 0, 0, 0, 0, 0, 0, 0, 0, 0, 0, 1, 0, 0, 0, 1, 0, 0, 0, 0, 0, 0,
    0, 0, 0, 0, 0, 2, 0, 0, 0, 1, 0, 0, 0, 0, 0, 0, 0, 5, 0, 0, 0, 3, 0, 0, 0, 0, 0, 0, 0, 0, 0, 0,
    0, 2, 1, 0, 0, 4, 0, 0, 0, 0, 0, 0, 0, 1, 0, 0, 0, 0, 0, 0, 0, 0x41, 0x42, 0x43,
];

/// A jump over a breakpoint to `ud2` in three pieces, and an entry slot, in format 2.
const CUT: [u8; 88] = [
    0x52, 0x44, 0x4F, 0x31, 2, 0, 0, 0, 0, 0, 0, 0, 0, 0, 0, 0, 0, 0, 0, 0, 0, 0, 0, 0, 1, 0, 0, 0,
    1, 0, 0, 0, 0, 0, 0, 0, 0, 0, 0, 0, 0, 0, 0, 0, 8, 0, 0, 0, 0, 0, 0, 0, 2, 0, 0, 0, 0xE9, 1, 0,
    0, 0, 0xCC, 0x0F, 0x0B, 5, 0, 0, 0, 6, 0, 0, 0, 0, 0, 0, 0, 0, 0, 0, 0, 0, 0, 0, 0, 0, 0, 0, 0,
];

fn read_and_write(alloc: Global, bytes: &[u8]) -> Result<List<u8>, FormFault> {
    let o = read(alloc, bytes)?;
    let out = write(alloc, &o)?;
    Ok(out)
}

fn place_of(alloc: Global, bytes: &[u8]) -> Option<u64> {
    match read(alloc, bytes) {
        Err(FormFault::At { place }) => Some(place),
        _ => None,
    }
}

#[test]
fn writes_in_format_2_what_it_read(rt: HostRuntime) {
    let files: [(&[u8], &[u8]); 4] = [
        (&SMALLEST, &SMALLEST_WRITTEN),
        (&SMALLEST_WRITTEN, &SMALLEST_WRITTEN),
        (&EACH_KIND, &EACH_KIND),
        (&CUT, &CUT),
    ];
    for (bytes, written) in files {
        match read_and_write(rt.alloc(), bytes) {
            Ok(out) => assert!(rt; out.as_slice() == written),
            Err(_) => panic!(rt; "not read and written"),
        }
    }
}

#[test]
fn a_prefix_is_too_short(rt: HostRuntime) {
    for len in 0..SMALLEST.len() {
        assert_eq!(rt; place_of(rt.alloc(), &SMALLEST[..len]), Some(len as u64));
    }
    for len in 0..CUT.len() {
        assert_eq!(rt; place_of(rt.alloc(), &CUT[..len]), Some(len as u64));
    }
}

#[test]
fn a_byte_more_is_refused_at_its_place(rt: HostRuntime) {
    let mut longer = [0; 71];
    longer[..70].copy_from_slice(&SMALLEST);
    assert_eq!(rt; place_of(rt.alloc(), &longer), Some(70));
}

#[test]
fn a_changed_byte_is_refused_where_it_shows(rt: HostRuntime) {
    // which byte, what it becomes, and the place that is told
    let rows = [
        (0, 0x53, 0),
        (4, 0, 4),
        (4, 2, 70),
        (4, 3, 4),
        (7, 1, 7),
        (24, 2, 70),
        (27, 255, 70),
        (40, 2, 40),
        (43, 1, 43),
        (44, 3, 70),
        (47, 255, 70),
        (54, 5, 54),
        (57, 1, 57),
        (62, 1, 62),
        (69, 1, 69),
    ];
    for (at, value, place) in rows {
        let mut changed = SMALLEST;
        if let Some(byte) = changed.get_mut(at) {
            *byte = value;
        }
        assert_eq!(rt;
            place_of(rt.alloc(), &changed),
            Some(place),
            "byte {at} as {value}"
        );
    }
}

/// Where the file of the function in pieces is refused when the byte at a place is one more, if it is.
fn place_of_more(at: usize) -> Option<u64> {
    match at {
        0..=7 | 41..=43 | 73..=75 | 80..=87 => Some(at as u64),
        24..=39 | 44..=55 => Some(88),
        _ => None,
    }
}

#[test]
fn each_changed_byte_of_cuts_is_refused_where_it_shows(rt: HostRuntime) {
    for at in 0..CUT.len() {
        let mut changed = CUT;
        if let Some(byte) = changed.get_mut(at) {
            *byte = byte.wrapping_add(1);
        }
        assert_eq!(rt;
            place_of(rt.alloc(), &changed),
            place_of_more(at),
            "byte {at}"
        );
    }
    let mut older = CUT;
    older[4] = 1;
    assert_eq!(rt; place_of(rt.alloc(), &older), Some(61));
}
