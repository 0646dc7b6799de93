//! Classes of bytes, what a byte begins, and how far a class reaches at the front of a text.

ghost use Rattle.std.specs.Prelude.{◌≡◌, ◌≤◌, length};
ghost use Rattle.std.specs.List.{prefix_len};
ghost use Rattle.ir_lex.specs.Tokens.{is_run_byte, is_name_byte, is_text_byte, is_separator, is_mark, starts};
ghost use Rattle.ir_lex.specs.First.{start_of, test_of, opens_string, run_len_of};

/// A class of bytes.
#[derive(Clone, Copy)]
pub enum Class {
    /// The bytes of runs.
    Run,
    /// The decimal digits.
    Digit,
    /// The bytes of names between quotes.
    Name,
    /// The bytes of strings.
    Text,
    /// All but the line feed.
    Line,
}

/// What a byte at the front of a piece begins.
#[derive(Clone, Copy)]
pub enum Start {
    Run,
    Separator,
    Comment,
    Quote,
    Global,
    Local,
    Meta,
    Hash,
    Mark,
    Nothing,
}

#[tactic(auto, unfolding(crate::specs::Tokens::is_run_byte))]
fn is_run(b: u8) -> bool
    ensures { result ≡ is_run_byte b }
{
    b.is_ascii_alphanumeric() || b == b'$' || b == b'.' || b == b'_' || b == b'-'
}

#[tactic(auto, unfolding(crate::specs::Tokens::is_name_byte))]
fn is_name(b: u8) -> bool
    ensures { result ≡ is_name_byte b }
{
    b' ' <= b && b <= b'~' && b != b'"' && b != b'\\'
}

#[tactic(auto, unfolding(crate::specs::Tokens::is_text_byte))]
fn is_text(b: u8) -> bool
    ensures { result ≡ is_text_byte b }
{
    b' ' <= b && b != b'"'
}

#[tactic(auto, unfolding(crate::specs::Tokens::is_separator))]
fn separates(b: u8) -> bool
    ensures { result ≡ is_separator b }
{
    b == b' ' || b == b'\t' || b == b'\r' || b == b'\n'
}

#[tactic(auto, unfolding(crate::specs::Tokens::is_mark))]
fn marks(b: u8) -> bool
    ensures { result ≡ is_mark b }
{
    match b {
        b'='
        | b','
        | b'('
        | b')'
        | b'['
        | b']'
        | b'{'
        | b'}'
        | b'<'
        | b'>'
        | b'*'
        | b'|'
        | b'+'
        | b':' => true,
        _ => false,
    }
}

/// What a byte begins. Takes no memory.
#[tactic(auto, unfolding(crate::specs::First::start_of))]
pub fn what_begins(b: u8) -> Start
    ensures { result ≡ start_of b }
{
    if is_run(b) {
        return Start::Run;
    }
    if separates(b) {
        return Start::Separator;
    }
    match b {
        b';' => Start::Comment,
        b'"' => Start::Quote,
        b'@' => Start::Global,
        b'%' => Start::Local,
        b'!' => Start::Meta,
        b'#' => Start::Hash,
        _ => {
            if marks(b) {
                Start::Mark
            } else {
                Start::Nothing
            }
        }
    }
}

fn belongs(class: Class, b: u8) -> bool
    ensures { result ≡ test_of class b }
{
    match class {
        Class::Run => is_run(b),
        Class::Digit => b.is_ascii_digit(),
        Class::Name => is_name(b),
        Class::Text => is_text(b),
        Class::Line => b != b'\n',
    }
}

/// How many bytes of a class stand at the front of a text. Takes no memory.
pub fn front(class: Class, text: &[u8]) -> usize
    ensures value { result ≡ prefix_len (test_of class) text.now }
    ensures within { result ≤ length text.now }
{
    for (i, b) in text.iter().enumerate() {
        if !belongs(class, *b) {
            return i;
        }
    }
    text.len()
}

/// Whether a text's first byte is this one. Takes no memory.
pub fn starts_with(first: u8, text: &[u8]) -> bool
    ensures { result ≡ starts first text.now }
{
    match text {
        [b, ..] => *b == first,
        [] => false,
    }
}

fn opens_a_string(text: &[u8]) -> bool
    ensures { result ≡ opens_string text.now }
{
    match text {
        [a, b, ..] => *a == b'c' && *b == b'"',
        _ => false,
    }
}

/// The length of the run at the front of a text, or 0 where none stands there. Takes no memory.
pub fn run_len(text: &[u8]) -> usize
    ensures value { result ≡ run_len_of text.now }
    ensures within { result ≤ length text.now }
{
    if opens_a_string(text) {
        0
    } else {
        front(Class::Run, text)
    }
}
