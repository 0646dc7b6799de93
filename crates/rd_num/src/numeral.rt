//! Numbers as words of digits, decimal and hexadecimal.
//!
//! A word has one digit or more and at most so many; leading zeros count as digits, and no other
//! byte may stand in it. Nothing here takes memory.

ghost use Rattle.std.specs.Prelude.{◌≡◌, ◌≤◌, ◌^◌};
ghost use Rattle.rd_num.specs.Numeral.{digit_value, numeral};

/// The value of a digit, 0 to 9 and then a to f; 16 for anything else.
fn digit(c: u8) -> u8
    ensures value { result ≡ digit_value c }
    ensures small { result ≤ 16 }
{
    if c >= b'0' && c <= b'9' {
        c - b'0'
    } else if c >= b'a' && c <= b'f' {
        c - 87
    } else {
        16
    }
}

/// The number of a word of 1 to `most` decimal digits, where it is below a limit.
pub fn decimal(word: &[u8], most: usize, limit: u128) -> Option<u64>
    requires most { most ≤ 20 }
    requires limit { limit ≤ 2 ^ 64 }
    ensures { result ≡ numeral 10 most limit word.now }
{
    if word.is_empty() || word.len() > most {
        return None;
    }
    let mut n: u128 = 0;
    for c in word {
        let value = digit(*c);
        if value >= 10 {
            return None;
        }
        n = n * 10 + u128::from(value);
    }
    if n < limit { Some(n as u64) } else { None }
}

/// The number of a word of 1 to 16 hexadecimal digits in lower case.
pub fn hexadecimal(word: &[u8]) -> Option<u64>
    ensures { result ≡ numeral 16 16 (2 ^ 64) word.now }
{
    if word.is_empty() || word.len() > 16 {
        return None;
    }
    let mut n: u128 = 0;
    for c in word {
        let value = digit(*c);
        if value >= 16 {
            return None;
        }
        n = n * 16 + u128::from(value);
    }
    if n <= u128::from(u64::MAX) {
        Some(n as u64)
    } else {
        None
    }
}
