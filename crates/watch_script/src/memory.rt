//! The lines of the segments that may be read. Each byte is looked at once, and none is copied but into the text.
//!
//! A segment is gone through page by page, and pages that nothing was written to are passed over.

ghost use Rattle.std.specs.Prelude.{◌≡◌, ◌+◌, ◌*◌, ◌/◌, ◌%◌, ◌^◌, ◌≤◌, ◌<◌, ◌++◌, OnOk, length, take, drop};
ghost use Rattle.x86_core.specs.Observation.{readable};
ghost use Rattle.xom_memory.specs.Access.{lent};
ghost use Rattle.watch_script.specs.ShowText.{rights_text, segment_line, is_blank, piece_text, piece_of, pieces_text, segment_text, segments_text};

use crate::digits::{put_bytes, put_number, put_word};
use rd_num::list::List;
use rd_num::width::NoMemory;
use x86_core::image::Rights;
use xom_memory::lent::ReadableSegment;
use xom_memory::memory::Memory;
use xom_memory::page::PAGE_BYTES;
use xom_memory::segment::{may_execute, may_read, may_write};

/// Appends the letters of rights.
fn put_rights(text: &mut List<u8>, rights: Rights) -> Result<(), NoMemory>
    ensures { OnOk result (text.new ≡ text.old ++ rights_text rights) }
{
    let read: &[u8] = if may_read(rights) { b"r" } else { b"" };
    let write: &[u8] = if may_write(rights) { b"w" } else { b"" };
    let execute: &[u8] = if may_execute(rights) { b"x" } else { b"" };
    text.append(read)?;
    text.append(write)?;
    text.append(execute)
}

/// Appends the line that names a segment.
fn put_outline(text: &mut List<u8>, segment: &ReadableSegment) -> Result<(), NoMemory>
    ensures { OnOk result (text.new ≡ text.old ++ segment_line (lent segment.now)) }
{
    text.append(b"segment ")?;
    put_word(text, segment.start)?;
    text.append(b" ")?;
    put_number(text, segment.len())?;
    text.append(b" ")?;
    put_rights(text, segment.rights)?;
    text.append(b"\n")
}

/// Whether all bytes are zero.
fn are_zero(bytes: &[u8]) -> bool
    ensures { result ≡ is_blank bytes.now }
{
    for b in bytes {
        if *b != 0 {
            return false;
        }
    }
    true
}

/// Appends the line of up to sixteen bytes at an address, where they aren't all zero.
fn put_piece(text: &mut List<u8>, at: u64, bytes: &[u8]) -> Result<(), NoMemory>
    requires { length bytes.now ≤ 16 }
    ensures { OnOk result (text.new ≡ text.old ++ piece_text at bytes.now) }
{
    if are_zero(bytes) {
        return Ok(());
    }
    put_word(text, at)?;
    text.append(b" ")?;
    put_bytes(text, bytes)?;
    text.append(b"\n")
}

/// Sixteen bytes from an index on, or as many as are left.
fn piece(bytes: &[u8], from: usize) -> &[u8]
    requires { from ≤ length bytes.now }
    ensures piece { result.now ≡ take 16 (drop from bytes.now) }
    ensures short { length result.now ≤ 16 }
{
    let left = bytes.len() - from;
    let count = left.min(16);
    &bytes[from..from + count]
}

/// Appends the lines of a segment's bytes.
fn put_pieces(text: &mut List<u8>, start: u64, bytes: &[u8]) -> Result<(), NoMemory>
    ensures { OnOk result (text.new ≡ text.old ++
        pieces_text start bytes.now ((length bytes.now + 15) / 16)) }
{
    for i in 0..bytes.len().div_ceil(16) {
        let from = 16 * i;
        put_piece(text, start.wrapping_add(from as u64), piece(bytes, from))?;
    }
    Ok(())
}

/// Appends the lines of the page with an index of a segment that starts at an address.
fn put_page(text: &mut List<u8>, start: u64, i: usize, page: &[u8]) -> Result<(), NoMemory>
    requires { 4096 * i < 2 ^ 64 }
    ensures { OnOk result (text.new ≡ text.old ++
        pieces_text ((start + 4096 * i) % 2 ^ 64) page.now ((length page.now + 15) / 16)) }
{
    let from = (PAGE_BYTES * i) as u64;
    put_pieces(text, start.wrapping_add(from), page)
}

/// Appends the lines of a segment's pages.
#[tactic(auto, using(crate::proofs::Pieces::pages_first, crate::proofs::Pieces::pages_all))]
fn put_pages(text: &mut List<u8>, segment: &ReadableSegment) -> Result<(), NoMemory>
    ensures { let bytes = (lent segment.now).bytes in OnOk result (text.new ≡ text.old ++
        pieces_text segment.now.start bytes ((length bytes + 15) / 16)) }
{
    let count = segment.len().div_ceil(PAGE_BYTES as u64) as usize;
    for i in segment.first_page()..count {
        if let Some(page) = segment.page(i) {
            put_page(text, segment.start, i, page)?;
        }
    }
    Ok(())
}

/// Appends the lines of a segment.
#[tactic(auto, unfolding(crate::specs::ShowText::segment_text))]
fn put_segment(text: &mut List<u8>, segment: &ReadableSegment) -> Result<(), NoMemory>
    ensures { OnOk result (text.new ≡ text.old ++ segment_text (lent segment.now)) }
{
    put_outline(text, segment)?;
    put_pages(text, segment)
}

/// Appends the lines of all segments that may be read.
#[tactic(auto, unfolding(crate::specs::ShowText::segments_text))]
pub(crate) fn put_memory(text: &mut List<u8>, memory: &Memory) -> Result<(), NoMemory>
    ensures { OnOk result (text.new ≡ text.old ++ segments_text (readable memory.now)) }
{
    for i in 0..memory.count() {
        if let Some(segment) = memory.readable(i) {
            put_segment(text, &segment)?;
        }
    }
    Ok(())
}
