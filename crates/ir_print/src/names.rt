//! Names behind their marks, numbers, and the bytes of `c` strings.

ghost use Rattle.std.specs.Prelude.{◌≡◌, ◌++◌, ◌<◌, OnOk, decimal, flat_map};
ghost use Rattle.std.specs.Fmt.{signed_decimal};
ghost use Rattle.std.specs.List.{list_all};
ghost use Rattle.std.specs.Char.{is_ascii_digit};
ghost use Rattle.ir_lex.specs.Tokens.{is_run_byte, is_name_byte};
ghost use Rattle.ir_print.specs.Names.{is_plain, name_text, local_text, global_text, label_text, hex_digit, escaped, string_text};

use itoa::Buffer;
use rd_num::list::List;
use rd_num::width::NoMemory;

// Whether a byte may stand in a name without quotes.
#[tactic(auto, unfolding(ir_lex::specs::Tokens::is_run_byte))]
fn may_run(byte: u8) -> bool
    ensures { result ≡ is_run_byte byte }
{
    byte.is_ascii_alphanumeric() || byte == b'$' || byte == b'.' || byte == b'_' || byte == b'-'
}

// Whether a byte may stand between quotes as it is.
#[tactic(auto, unfolding(ir_lex::specs::Tokens::is_name_byte))]
fn may_quote(byte: u8) -> bool
    ensures { result ≡ is_name_byte byte }
{
    32 <= byte && byte <= 126 && byte != b'"' && byte != b'\\'
}

// Whether a name is a run.
fn is_run(name: &[u8]) -> bool
    ensures { result ≡ list_all is_run_byte name.now }
{
    for byte in name {
        if !may_run(*byte) {
            return false;
        }
    }
    true
}

// Whether a name is all digits.
fn is_digits(name: &[u8]) -> bool
    ensures { result ≡ list_all is_ascii_digit name.now }
{
    for byte in name {
        if !byte.is_ascii_digit() {
            return false;
        }
    }
    true
}

// Whether a name stands without quotes.
fn stands_plain(name: &[u8]) -> bool
    ensures { result ≡ is_plain name.now }
{
    let digit_first = match name.first() {
        Some(byte) => byte.is_ascii_digit(),
        None => false,
    };
    is_run(name) && (is_digits(name) || !digit_first)
}

// Appends a name, between quotes where it must.
#[tactic(auto, unfolding(crate::specs::Names::name_text))]
fn put_name(text: &mut List<u8>, name: &[u8]) -> Result<(), NoMemory>
    ensures { OnOk result (text.new ≡ text.old ++ name_text name.now) }
{
    if stands_plain(name) {
        return text.append(name);
    }
    text.append(b"\"")?;
    text.append(name)?;
    text.append(b"\"")
}

/// Appends the name of a local.
#[tactic(auto, unfolding(crate::specs::Names::local_text))]
pub fn put_local(text: &mut List<u8>, name: &[u8]) -> Result<(), NoMemory>
    ensures { OnOk result (text.new ≡ text.old ++ local_text name.now) }
{
    text.append(b"%")?;
    put_name(text, name)
}

/// Appends the name of a global.
#[tactic(auto, unfolding(crate::specs::Names::global_text))]
pub fn put_global_name(text: &mut List<u8>, name: &[u8]) -> Result<(), NoMemory>
    ensures { OnOk result (text.new ≡ text.old ++ global_text name.now) }
{
    text.append(b"@")?;
    put_name(text, name)
}

/// Appends a block's label.
#[tactic(auto, unfolding(crate::specs::Names::label_text))]
pub fn put_label(text: &mut List<u8>, name: &[u8]) -> Result<(), NoMemory>
    ensures { OnOk result (text.new ≡ text.old ++ label_text name.now) }
{
    put_name(text, name)?;
    text.append(b":")
}

/// Appends a number that may be below zero.
pub fn put_integer(text: &mut List<u8>, n: i128) -> Result<(), NoMemory>
    ensures { OnOk result (text.new ≡ text.old ++ signed_decimal n) }
{
    let mut buffer = Buffer::new();
    text.append(buffer.format(n).as_bytes())
}

/// Appends a count.
pub fn put_count(text: &mut List<u8>, n: u32) -> Result<(), NoMemory>
    ensures { OnOk result (text.new ≡ text.old ++ decimal n) }
{
    let mut buffer = Buffer::new();
    text.append(buffer.format(n).as_bytes())
}

// An upper-case hexadecimal digit.
fn digit(n: u8) -> u8
    requires { n < 16 }
    ensures { result ≡ hex_digit n }
{
    if n < 10 { 48 + n } else { 55 + n }
}

// Appends one byte of a `c` string.
fn put_escaped(text: &mut List<u8>, byte: u8) -> Result<(), NoMemory>
    ensures { OnOk result (text.new ≡ text.old ++ escaped byte) }
{
    if may_quote(byte) {
        return text.append(&[byte]);
    }
    text.append(&[b'\\', digit(byte / 16), digit(byte % 16)])
}

fn put_all_escaped(text: &mut List<u8>, bytes: &[u8]) -> Result<(), NoMemory>
    ensures { OnOk result (text.new ≡ text.old ++ flat_map escaped bytes.now) }
{
    for byte in bytes {
        put_escaped(text, *byte)?;
    }
    Ok(())
}

/// Appends a `c` string.
#[tactic(auto, unfolding(crate::specs::Names::string_text))]
pub fn put_string(text: &mut List<u8>, bytes: &[u8]) -> Result<(), NoMemory>
    ensures { OnOk result (text.new ≡ text.old ++ string_text bytes.now) }
{
    text.append(b"c\"")?;
    put_all_escaped(text, bytes)?;
    text.append(b"\"")
}
