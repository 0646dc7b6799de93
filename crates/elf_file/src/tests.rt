//! A small file byte by byte, and one row for each rule that refuses a change of it.

use crate::ImageFault;
use crate::layout::ProgramHeader;
use crate::read::read;
use crate::rules::are_small;
use crate::write::write;
use bitflags::Flags;
use std::alloc::{AllocError, Global};
use std::test::Fail;

/// The headers of a file with two segments that may be run: 16 bytes at 0x10000000, where it
/// begins, and 2 bytes at 0x40000000.
#[rattlefmt::skip]
const HEADERS: [u8; 176] = [
    0x7F, 0x45, 0x4C, 0x46, 2, 1, 1, 0,
    0, 0, 0, 0, 0, 0, 0, 0,
    2, 0, 0x3E, 0, 1, 0, 0, 0,
    0, 0, 0, 0x10, 0, 0, 0, 0,
    0x40, 0, 0, 0, 0, 0, 0, 0,
    0, 0, 0, 0, 0, 0, 0, 0,
    0, 0, 0, 0, 0x40, 0, 0x38, 0,
    2, 0, 0, 0, 0, 0, 0, 0,

    1, 0, 0, 0, 1, 0, 0, 0,
    0, 0x10, 0, 0, 0, 0, 0, 0,
    0, 0, 0, 0x10, 0, 0, 0, 0,
    0, 0, 0, 0x10, 0, 0, 0, 0,
    0x10, 0, 0, 0, 0, 0, 0, 0,
    0x10, 0, 0, 0, 0, 0, 0, 0,
    0, 0x10, 0, 0, 0, 0, 0, 0,

    1, 0, 0, 0, 1, 0, 0, 0,
    0, 0x20, 0, 0, 0, 0, 0, 0,
    0, 0, 0, 0x40, 0, 0, 0, 0,
    0, 0, 0, 0x40, 0, 0, 0, 0,
    2, 0, 0, 0, 0, 0, 0, 0,
    2, 0, 0, 0, 0, 0, 0, 0,
    0, 0x10, 0, 0, 0, 0, 0, 0,
];

fn small_file(alloc: Global) -> Result<Vec<u8>, AllocError> {
    let mut file = Vec::new(alloc);
    file.extend_from_slice(&HEADERS)?;
    file.resize(4096, 0)?;
    file.resize(4112, 0xCC)?;
    file.resize(8192, 0)?;
    file.extend_from_slice(&[0x0F, 0x0B])?;
    Ok(file)
}

// The entry, and of each segment the start, the number of bytes, the last byte and the rights.
fn shown(alloc: Global, bytes: &[u8]) -> Result<String, AllocError> {
    let mut text = String::new(alloc);
    match read(alloc, bytes) {
        Err(ImageFault::NoMemory) => text.push_str("no memory")?,
        Err(ImageFault::Rule { rule }) => text.push_str(&format!(in alloc; "rule {rule}")?)?,
        Ok(image) => {
            let entry = image.entry;
            text.push_str(&format!(in alloc; "{entry:x}")?)?;
            for segment in image.segments.as_slice() {
                let start = segment.start;
                let len = segment.bytes.len();
                let last = segment.bytes.as_slice().last().copied().unwrap_or(0);
                let rights = segment.rights.bits();
                text.push_str(&format!(in alloc; ", {start:x} {len} {last:x} {rights}")?)?;
            }
        }
    }
    Ok(text)
}

#[test]
fn each_changed_byte_breaks_its_rule(rt: HostRuntime) -> Result<(), Fail> {
    let alloc = rt.alloc();
    for (offset, byte, want) in [
        (0, 0x7F, "10000000, 10000000 16 cc 1, 40000000 2 b 1"),
        (27, 0x40, "40000000, 10000000 16 cc 1, 40000000 2 b 1"),
        (40, 0x40, "10000000, 10000000 16 cc 1, 40000000 2 b 1"),
        (88, 1, "10000000, 10000000 16 cc 1, 40000000 2 b 1"),
        (124, 5, "10000000, 10000000 16 cc 1, 40000000 2 b 5"),
        (129, 0, "10000000, 10000000 16 cc 1, 40000000 2 45 1"),
        (8193, 9, "10000000, 10000000 16 cc 1, 40000000 2 9 1"),
        (3, 0x47, "rule 1"),
        (15, 1, "rule 1"),
        (16, 3, "rule 2"),
        (18, 3, "rule 2"),
        (20, 2, "rule 2"),
        (32, 0x41, "rule 3"),
        (54, 0x39, "rule 3"),
        (56, 0, "rule 3"),
        (56, 9, "rule 3"),
        (120, 2, "rule 4"),
        (68, 0, "rule 4"),
        (68, 8, "rule 4"),
        (113, 0x20, "rule 4"),
        (104, 17, "rule 5"),
        (72, 1, "rule 6"),
        (80, 1, "rule 6"),
        (139, 0x90, "rule 6"),
        (143, 0xFF, "rule 6"),
        (139, 0x10, "rule 7"),
        (129, 0x30, "rule 8"),
        (135, 0xFF, "rule 8"),
    ] {
        let mut file = small_file(alloc)?;
        if let Some(old) = file.get_mut(offset) {
            *old = byte;
        }
        let got = shown(alloc, &file)?;
        assert_eq!(rt; got.as_str(), want, "at {offset}");
    }
    Ok(())
}

#[test]
fn each_cut_breaks_a_rule(rt: HostRuntime) -> Result<(), Fail> {
    let alloc = rt.alloc();
    let file = small_file(alloc)?;
    for (len, want) in [
        (0, "rule 1"),
        (63, "rule 1"),
        (64, "rule 3"),
        (175, "rule 3"),
        (176, "rule 8"),
        (8193, "rule 8"),
    ] {
        if let Some(cut) = file.get(..len) {
            let got = shown(alloc, cut)?;
            assert_eq!(rt; got.as_str(), want, "at {len}");
        }
    }
    Ok(())
}

#[test]
fn the_image_of_a_written_file_is_written_as_that_file(rt: HostRuntime) -> Result<(), Fail> {
    let alloc = rt.alloc();
    let file = small_file(alloc)?;
    match read(alloc, &file) {
        Ok(image) => match write(alloc, &image) {
            Ok(written) => assert!(rt; written.as_slice() == file.as_slice()),
            Err(_) => assert!(rt; false, "no memory"),
        },
        Err(_) => assert!(rt; false, "it loads"),
    }
    Ok(())
}

#[test]
fn segments_have_at_most_256_mebibytes(rt: HostRuntime) -> Result<(), Fail> {
    for (size, want) in [(0x800_0000, true), (0x800_0001, false), (u64::MAX, false)] {
        let header = ProgramHeader {
            p_type: 1,
            p_flags: 1,
            p_offset: 4096,
            p_vaddr: 0x10000,
            p_filesz: size,
            p_memsz: size,
            p_align: 4096,
        };
        assert_eq!(rt; are_small(&[header, header]), want, "at {size}");
    }
    Ok(())
}
