//! One line of a script.

ghost use Rattle.std.specs.Prelude.{◌≡◌, ◌^◌, None, Some, IfOk, MatchOption};
ghost use Rattle.rd_num.specs.Numeral.{numeral};
ghost use Rattle.watch_script.specs.Reading.{bytes_of, by_read, by_write, event_of, split_at, IsNext, HasNoNext};

use crate::event::Event;
use crate::fields::split;
use hex::{FromHexError, decode, encode};
use rd_num::copied::copy_list;
use rd_num::list::List;
use rd_num::numeral::{decimal, hexadecimal};
use rd_num::width::NoMemory;
use std::alloc::Global;

/// How many bytes a write has at most.
const MOST_WRITTEN: usize = 4096;

/// The read of the parts of a line.
fn read_event(steps: &[u8], address: &[u8], count: &[u8]) -> Option<Event>
    ensures { result ≡ by_read steps.now address.now count.now }
{
    let after = decimal(steps, 20, 18446744073709551616)?;
    let at = hexadecimal(address)?;
    let len = decimal(count, 4, 4097)?;
    if len == 0 {
        return None;
    }
    Some(Event::Read {
        after,
        at,
        len: len as u32,
    })
}

/// The bytes of hexadecimal digits in lower case, two for each byte. `None` comes exactly where the
/// digits aren't so.
#[tactic(auto, unfolding(crate::specs::Reading::bytes_of))]
fn bytes_spelled(alloc: Global, digits: &[u8]) -> Result<Option<List<u8>>, NoMemory>
    ensures { IfOk result (λ o. o ≡ bytes_of digits.now) }
{
    let bytes = match decode(alloc, digits) {
        Ok(bytes) => bytes,
        Err(FromHexError::OutOfMemory) => return Err(NoMemory),
        Err(_) => return Ok(None),
    };
    let Ok(text) = encode(alloc, bytes.as_slice()) else {
        return Err(NoMemory);
    };
    if text.as_str().as_bytes() != digits {
        return Ok(None);
    }
    let own = copy_list(alloc, bytes.as_slice())?;
    Ok(Some(own))
}

/// The write of the parts of a line.
fn write_event(
    alloc: Global,
    steps: &[u8],
    address: &[u8],
    digits: &[u8],
) -> Result<Option<Event>, NoMemory>
    ensures { IfOk result (λ o. o ≡ by_write steps.now address.now digits.now) }
{
    let Some(after) = decimal(steps, 20, 18446744073709551616) else {
        return Ok(None);
    };
    let Some(at) = hexadecimal(address) else {
        return Ok(None);
    };
    let Some(bytes) = bytes_spelled(alloc, digits)? else {
        return Ok(None);
    };
    if bytes.len() < 1 || bytes.len() > MOST_WRITTEN {
        return Ok(None);
    }
    Ok(Some(Event::Write { after, at, bytes }))
}

/// The event of a line, without its line feed.
#[tactic(auto, unfolding(crate::specs::Reading::event_of))]
fn line_event(alloc: Global, line: &[u8]) -> Result<Option<Event>, NoMemory>
    ensures { IfOk result (λ o. o ≡ event_of line.now) }
{
    let Some((steps, rest)) = split(line, b' ') else {
        return Ok(None);
    };
    let Some((word, rest)) = split(rest, b' ') else {
        return Ok(None);
    };
    let Some((address, last)) = split(rest, b' ') else {
        return Ok(None);
    };
    if word == b"read".as_slice() {
        return Ok(read_event(steps, address, last));
    }
    if word == b"write".as_slice() {
        return write_event(alloc, steps, address, last);
    }
    Ok(None)
}

/// The event of the next line, and the bytes behind it.
///
/// `None` comes exactly where no next line of a script is there.
pub(crate) fn next_event(
    alloc: Global,
    bytes: &[u8],
    least: u64,
) -> Result<Option<(Event, &[u8])>, NoMemory>
    ensures { IfOk result (λ o. MatchOption o (HasNoNext least bytes.now)
        (λ p. IsNext least bytes.now p.0 p.1.now)) }
{
    let Some((line, rest)) = split(bytes, b'\n') else {
        return Ok(None);
    };
    match line_event(alloc, line) {
        Ok(Some(event)) => {
            if event.after() < least {
                return Ok(None);
            }
            Ok(Some((event, rest)))
        }
        Ok(None) => Ok(None),
        Err(e) => Err(e),
    }
}
