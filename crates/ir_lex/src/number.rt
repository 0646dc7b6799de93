//! Numbers of at most 38 decimal digits, which fit 127 bits, with a sign.

ghost use Rattle.std.specs.Prelude.{◌≡◌, ◌<◌, ◌^◌, IfSome};
ghost use Rattle.ir_lex.specs.First.{magnitude_of, number_of};

/// The number that 1 to 38 digits write; `None` where the bytes are no such digits.
fn magnitude(digits: &[u8]) -> Option<u128>
    ensures value { result ≡ magnitude_of digits.now }
    ensures small { IfSome result (λ n. n < 10 ^ 38) }
{
    if digits.is_empty() || digits.len() > 38 {
        return None;
    }
    let mut n: u128 = 0;
    for d in digits {
        if !d.is_ascii_digit() {
            return None;
        }
        n = n * 10 + u128::from(*d - b'0');
    }
    Some(n)
}

/// The number that a run spells; `None` where it spells none. Takes no memory.
pub fn number(run: &[u8]) -> Option<i128>
    ensures { result ≡ number_of run.now }
{
    match run {
        [b'-', digits @ ..] => match magnitude(digits) {
            Some(n) => Some(-(n as i128)),
            None => None,
        },
        _ => match magnitude(run) {
            Some(n) => Some(n as i128),
            None => None,
        },
    }
}
