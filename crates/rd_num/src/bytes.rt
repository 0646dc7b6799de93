//! Words as bytes, the lowest byte first, as every file of this project has them.

ghost use Rattle.std.specs.Prelude.{◌≡◌, ◌<◌, ◌≤◌, length, take, MatchOption, All};
ghost use Rattle.rd_num.specs.Number.{le_bytes, le_number};

/// The four bytes of a word. Takes no memory.
pub fn put_u32_le(n: u32) -> [u8; 4]
    ensures { result ≡ le_bytes 4 n }
{
    n.to_le_bytes()
}

/// The eight bytes of a word. Takes no memory.
pub fn put_u64_le(n: u64) -> [u8; 8]
    ensures { result ≡ le_bytes 8 n }
{
    n.to_le_bytes()
}

/// The word that the first four bytes spell; later bytes aren't looked at.
///
/// `None` comes exactly on fewer than four bytes. Takes no memory.
pub fn get_u32_le(bytes: &[u8]) -> Option<u32>
    ensures { MatchOption result (length bytes.now < 4)
        (λ n. (4 ≤ length bytes.now) × (n ≡ le_number (take 4 bytes.now))) }
{
    match bytes {
        [a, b, c, d, ..] => Some(u32::from_le_bytes([*a, *b, *c, *d])),
        _ => None,
    }
}

/// The word that the first eight bytes spell; later bytes aren't looked at.
///
/// `None` comes exactly on fewer than eight bytes. Takes no memory.
pub fn get_u64_le(bytes: &[u8]) -> Option<u64>
    ensures { MatchOption result (length bytes.now < 8)
        (λ n. (8 ≤ length bytes.now) × (n ≡ le_number (take 8 bytes.now))) }
{
    match bytes {
        [a, b, c, d, e, f, g, h, ..] => {
            Some(u64::from_le_bytes([*a, *b, *c, *d, *e, *f, *g, *h]))
        }
        _ => None,
    }
}

/// Makes it known to a proof that each item of a slice of bytes is below 256.
pub fn bytes_known(bytes: &[u8])
    ensures { All (λ b. b < 256) bytes.now }
{}
