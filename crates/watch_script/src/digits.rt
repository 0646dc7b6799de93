//! Numbers and bytes as digits at the end of a text.

ghost use Rattle.std.specs.Prelude.{◌≡◌, ◌++◌, ◌≤◌, OnOk, length, decimal};
ghost use Rattle.hex.specs.Hex.{encode_lower};
ghost use Rattle.watch_script.specs.ShowText.{word_text};

use hex::encode_to_slice;
use itoa::Buffer;
use rd_num::list::List;
use rd_num::width::NoMemory;

/// Appends up to sixteen bytes, each as two hexadecimal digits in lower case.
pub(crate) fn put_bytes(text: &mut List<u8>, bytes: &[u8]) -> Result<(), NoMemory>
    requires { length bytes.now ≤ 16 }
    ensures { OnOk result (text.new ≡ text.old ++ encode_lower bytes.now) }
{
    let mut digits = [0; 32];
    let room = &mut digits[..2 * bytes.len()];
    match encode_to_slice(bytes, room) {
        Ok(()) => text.append(room),
        Err(_) => unreachable!(),
    }
}

/// Appends a number in sixteen hexadecimal digits.
#[tactic(auto, unfolding(crate::specs::ShowText::word_text))]
pub(crate) fn put_word(text: &mut List<u8>, n: u64) -> Result<(), NoMemory>
    ensures { OnOk result (text.new ≡ text.old ++ word_text n) }
{
    put_bytes(text, &n.to_be_bytes())
}

/// Appends a decimal number.
pub(crate) fn put_number(text: &mut List<u8>, n: u64) -> Result<(), NoMemory>
    ensures { OnOk result (text.new ≡ text.old ++ decimal n) }
{
    let mut buffer = Buffer::new();
    text.append(buffer.format(n).as_bytes())
}
