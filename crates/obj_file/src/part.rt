//! The parts that every other part of a file is made from: fixed bytes, words, fields and rows of bytes.
//!
//! Each function reads at `at`, which counts from the start of the file, and its fault names the
//! place at which the bytes leave what may stand there.

ghost use Rattle.std.specs.Prelude.{◌≡◌, ◌≢◌, ◌+◌, ◌<◌, ◌≤◌, ◌^◌, length, IfOk, IfErr, IfSome, None};
ghost use Rattle.rd_num.specs.Number.{le_bytes};
ghost use Rattle.obj_core.specs.Object.{field};
ghost use Rattle.obj_file.specs.Texts.{IsText, IsRaw, IsNumber, IsFormat, number_of, full, limit_if, Spans, Fault};
ghost use Rattle.obj_file.specs.declared.format.Format.{Format as Form};

use crate::fault::FormFault;
use crate::format::Format;
use rd_num::bytes::{bytes_known, get_u32_le, get_u64_le};
use rd_num::list::List;
use std::alloc::Global;

/// What was read, and where it ends.
#[derive(Drop)]
pub struct Part<T> {
    pub value: T,
    pub end: usize,
}

/// Passes over bytes that are fixed.
pub fn expect(bytes: &[u8], at: usize, wanted: &[u8]) -> Result<(), FormFault>
    requires { at ≤ length bytes.now }
    ensures read { IfOk result (λ _. Spans bytes.now at (at + length wanted.now) wanted.now) }
    ensures fault { IfErr result (λ e. Fault (IsText wanted.now) bytes.now at e) }
    ensures told { IfErr result (λ e. e ≢ FormFault.NoMemory) }
{
    for (i, byte) in wanted.iter().enumerate() {
        if at + i >= bytes.len() || bytes[at + i] != *byte {
            return Err(FormFault::At {
                place: (at + i) as u64,
            });
        }
    }
    Ok(())
}

/// A word of eight bytes.
pub fn read_word(bytes: &[u8], at: usize) -> Result<u64, FormFault>
    requires { at ≤ length bytes.now }
    ensures small { IfOk result (λ n. n < 2 ^ 64) }
    ensures read { IfOk result (λ n. Spans bytes.now at (at + 8) (le_bytes 8 n)) }
    ensures fault { IfErr result (λ e. Fault (IsRaw 8) bytes.now at e) }
    ensures told { IfErr result (λ e. e ≢ FormFault.NoMemory) }
{
    bytes_known(bytes);
    match get_u64_le(&bytes[at..]) {
        Some(n) => Ok(n),
        None => Err(too_short(bytes)),
    }
}

/// A field of four bytes.
pub fn read_field(bytes: &[u8], at: usize) -> Result<u32, FormFault>
    requires { at ≤ length bytes.now }
    ensures small { IfOk result (λ n. n < full) }
    ensures read { IfOk result (λ n. Spans bytes.now at (at + 4) (field n)) }
    ensures fault { IfErr result (λ e. Fault (IsNumber full) bytes.now at e) }
    ensures told { IfErr result (λ e. e ≢ FormFault.NoMemory) }
{
    bytes_known(bytes);
    match get_u32_le(&bytes[at..]) {
        Some(n) => Ok(n),
        None => Err(too_short(bytes)),
    }
}

/// A field whose number is below a limit of at most 255.
pub fn read_below(bytes: &[u8], at: usize, limit: u8) -> Result<u32, FormFault>
    requires within { at ≤ length bytes.now }
    requires some { 0 < limit }
    ensures small { IfOk result (λ n. n < limit) }
    ensures read { IfOk result (λ n. Spans bytes.now at (at + 4) (field n)) }
    ensures fault { IfErr result (λ e. Fault (IsNumber limit) bytes.now at e) }
    ensures told { IfErr result (λ e. e ≢ FormFault.NoMemory) }
{
    if at >= bytes.len() || bytes[at] >= limit {
        return Err(FormFault::At { place: at as u64 });
    }
    expect(bytes, at + 1, &[0, 0, 0])?;
    Ok(bytes[at] as u32)
}

/// The format whose number a byte is, if there is one.
fn format_of(byte: u8) -> Option<Format>
    ensures some { IfSome result (λ format. number_of format ≡ byte) }
    ensures none { result ≡ None → (format : Form) → number_of format ≢ byte }
{
    match byte {
        1 => Some(Format::One),
        2 => Some(Format::Two),
        _ => None,
    }
}

/// The format of a file, by its number.
pub fn read_format(bytes: &[u8], at: usize) -> Result<Format, FormFault>
    requires { at ≤ length bytes.now }
    ensures read { IfOk result (λ format. Spans bytes.now at (at + 4) (field (number_of format))) }
    ensures fault { IfErr result (λ e. Fault IsFormat bytes.now at e) }
    ensures told { IfErr result (λ e. e ≢ FormFault.NoMemory) }
{
    if at >= bytes.len() {
        return Err(FormFault::At { place: at as u64 });
    }
    match format_of(bytes[at]) {
        None => Err(FormFault::At { place: at as u64 }),
        Some(format) => {
            expect(bytes, at + 1, &[0, 0, 0])?;
            Ok(format)
        }
    }
}

/// A field that is 0 where it isn't used.
pub fn read_used(bytes: &[u8], at: usize, used: bool) -> Result<u32, FormFault>
    requires { at ≤ length bytes.now }
    ensures small { IfOk result (λ n. n < limit_if used) }
    ensures read { IfOk result (λ n. Spans bytes.now at (at + 4) (field n)) }
    ensures fault { IfErr result (λ e. Fault (IsNumber (limit_if used)) bytes.now at e) }
    ensures told { IfErr result (λ e. e ≢ FormFault.NoMemory) }
{
    if used {
        read_field(bytes, at)
    } else {
        read_below(bytes, at, 1)
    }
}

/// A row of bytes. Nothing is allocated for bytes that the file doesn't hold.
pub fn read_bytes(alloc: Global, bytes: &[u8], at: usize, size: u32) -> Result<List<u8>, FormFault>
    requires { at ≤ length bytes.now }
    ensures any { IfOk result (λ row. IsRaw size row) }
    ensures read { IfOk result (λ row. Spans bytes.now at (at + size) row) }
    ensures fault { IfErr result (λ e. Fault (IsRaw size) bytes.now at e) }
{
    bytes_known(bytes);
    if bytes.len() - at < size as usize {
        return Err(too_short(bytes));
    }
    let mut row = List::new(alloc);
    row.append(&bytes[at..at + size as usize])?;
    Ok(row)
}

/// The fault of a file that ends too early.
fn too_short(bytes: &[u8]) -> FormFault
    ensures { result ≡ FormFault.At (length bytes.now) }
{
    FormFault::At {
        place: bytes.len() as u64,
    }
}
