//! The bytes of a `c` string: two backslashes stand for one, a backslash and two hexadecimal digits for a byte.

ghost use Rattle.std.specs.Prelude.{◌≡◌, ◌<◌, length, IfOk, IfSome};
ghost use Rattle.ir_lex.specs.First.{hex_of, step_of, string_from};

use rd_num::list::List;
use rd_num::width::NoMemory;
use std::alloc::Global;

/// What has been read of an escape: nothing, its backslash, or its first digit too.
#[derive(Clone, Copy)]
pub enum Escape {
    Plain,
    Backslash,
    High(u8),
}

/// What one more byte of a string does: it ends the string, completes a byte, goes on with an escape, or cannot stand there.
#[derive(Clone, Copy)]
pub enum Step {
    End,
    Byte(u8),
    Within(Escape),
    Stray,
}

fn hex_value(b: u8) -> Option<u8>
    ensures { result ≡ hex_of b }
{
    match b {
        b'0'..=b'9' => Some(b - b'0'),
        b'A'..=b'F' => Some(b - b'A' + 10),
        b'a'..=b'f' => Some(b - b'a' + 10),
        _ => None,
    }
}

fn advance(at: Escape, b: u8) -> Step
    ensures { result ≡ step_of at b }
{
    match at {
        Escape::Plain => match b {
            b'"' => Step::End,
            b'\\' => Step::Within(Escape::Backslash),
            _ => Step::Byte(b),
        },
        Escape::Backslash => {
            if b == b'\\' {
                return Step::Byte(b);
            }
            match hex_value(b) {
                Some(_) => Step::Within(Escape::High(b)),
                None => Step::Stray,
            }
        }
        Escape::High(high) => match (hex_value(high), hex_value(b)) {
            (Some(h), Some(l)) => Step::Byte(16 * h + l),
            _ => Step::Stray,
        },
    }
}

/// The bytes of a `c` string, and how many bytes spell them before its closing quote.
///
/// The text begins behind the opening quote. `None` comes where an escape is none, or no quote follows.
pub fn string(alloc: Global, text: &[u8]) -> Result<Option<(List<u8>, usize)>, NoMemory>
    ensures value { IfOk result (λ o. o ≡ string_from Escape.Plain text.now) }
    ensures within { IfOk result (λ o. IfSome o (λ x. x.1 < length text.now)) }
{
    let mut bytes = List::new(alloc);
    let mut at = Escape::Plain;
    for (i, b) in text.iter().enumerate() {
        match advance(at, *b) {
            Step::End => return Ok(Some((bytes, i))),
            Step::Stray => return Ok(None),
            Step::Within(next) => at = next,
            Step::Byte(byte) => {
                bytes.add(byte)?;
                at = Escape::Plain;
            }
        }
    }
    Ok(None)
}
