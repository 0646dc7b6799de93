//! Words of up to eight bytes.

ghost use Rattle.std.specs.Prelude.{◌≡◌, ◌<◌, ◌≤◌, length};
ghost use Rattle.rd_num.specs.Number.{le_number};

// The word that eight bytes spell.
#[inline]
fn number(bytes: [u8; 8]) -> u64
    ensures { result ≡ le_number bytes }
{
    let [a, b, c, d, e, f, g, h] = bytes;
    u64::from_le_bytes([a, b, c, d, e, f, g, h])
}

/// The word that so many bytes spell. Takes no memory.
#[inline]
#[tactic(auto, using(crate::proofs::Words::le_number_padded))]
pub fn word_of<const N: usize>(bytes: &[u8]) -> u64
    requires count { length bytes.now ≡ N }
    requires few { N ≤ 8 }
    ensures { result ≡ le_number bytes.now }
{
    let mut all = [0; 8];
    all[..N].copy_from_slice(bytes);
    number(all)
}
