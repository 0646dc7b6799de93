//! One table of texts, each with its tokens or its fault.

use crate::token::{Token, TokenKind};
use crate::{LexFault, lex};
use std::alloc::{AllocError, Global};
use std::test::Fail;

fn show_bytes(out: &mut String, word: &str, bytes: &[u8]) -> Result<(), AllocError> {
    out.push_str(word)?;
    for b in bytes {
        out.push(char::from(*b))?;
    }
    Ok(())
}

fn show_kind(alloc: Global, out: &mut String, kind: &TokenKind) -> Result<(), Fail> {
    match kind {
        TokenKind::Label(name) => show_bytes(out, "label ", name.as_slice())?,
        TokenKind::CStr(bytes) => show_bytes(out, "c ", bytes.as_slice())?,
        TokenKind::Int(n) => out.push_str(&format!(in alloc; "int {n}")?)?,
        TokenKind::Word(word) => show_bytes(out, "word ", word.as_slice())?,
        TokenKind::Global(name) => show_bytes(out, "global ", name.as_slice())?,
        TokenKind::Local(name) => show_bytes(out, "local ", name.as_slice())?,
        TokenKind::Meta(text) => show_bytes(out, "meta ", text.as_slice())?,
        TokenKind::Hash(text) => show_bytes(out, "hash ", text.as_slice())?,
        TokenKind::Str(bytes) => show_bytes(out, "str ", bytes.as_slice())?,
        TokenKind::Mark(b) => show_bytes(out, "mark ", &[*b])?,
    }
    Ok(())
}

// Each token as its kind, place and length; or the place of the fault.
fn show(alloc: Global, text: &[u8]) -> Result<String, Fail> {
    let mut out = String::new(alloc);
    match lex(alloc, text) {
        Err(LexFault::NoMemory) => out.push_str("no memory")?,
        Err(LexFault::At { place }) => out.push_str(&format!(in alloc; "fault {place}")?)?,
        Ok(tokens) => {
            for token in tokens.as_slice() {
                if !out.is_empty() {
                    out.push_str("; ")?;
                }
                let at = token.place;
                let len = token.len;
                show_kind(alloc, &mut out, &token.kind)?;
                out.push_str(&format!(in alloc; " {at} {len}")?)?;
            }
        }
    }
    Ok(out)
}

#[test]
fn texts_have_these_tokens(rt: HostRuntime) -> Result<(), Fail> {
    for (text, want) in [
        ("", ""),
        (" \t\r\n", ""),
        ("a:", "label a 0 2"),
        ("12:", "label 12 0 3"),
        ("c:", "label c 0 2"),
        ("\"a b\":", "label a b 0 6"),
        ("c\"x\\4a\\\\\"", "c xJ\\ 0 9"),
        ("c\"\n\":", "c \n 0 4; mark : 4 1"),
        ("7 -12", "int 7 0 1; int -12 2 3"),
        (
            "99999999999999999999999999999999999999",
            "int 99999999999999999999999999999999999999 0 38",
        ),
        (
            "100000000000000000000000000000000000000",
            "word 100000000000000000000000000000000000000 0 39",
        ),
        (
            "- --1 1a ...",
            "word - 0 1; word --1 2 3; word 1a 6 2; word ... 9 3",
        ),
        ("c \"x\"", "word c 0 1; str x 2 3"),
        ("cc\"x\"", "word cc 0 2; str x 2 3"),
        ("@f @\"f\"", "global f 0 2; global f 3 4"),
        (
            "%7 %-1 %a:",
            "local 7 0 2; local -1 3 3; local a 7 2; mark : 9 1",
        ),
        ("@\"a b\":", "global a b 0 6; mark : 6 1"),
        ("!dbg !{", "meta dbg 0 4; meta  5 1; mark { 6 1"),
        ("!c\"x\"", "meta  0 1; c x 1 4"),
        ("#0 #dbg_value", "hash 0 0 2; hash dbg_value 3 10"),
        ("\"\" \"\":", "str  0 2; str  3 2; mark : 5 1"),
        ("\"a\\\":", "str a\\ 0 4; mark : 4 1"),
        ("\"\u{e9}\":", "str \u{c3}\u{a9} 0 4; mark : 4 1"),
        (
            "=,()[]{",
            "mark = 0 1; mark , 1 1; mark ( 2 1; mark ) 3 1; mark [ 4 1; mark ] 5 1; mark { 6 1",
        ),
        (
            "}<>*|+:",
            "mark } 0 1; mark < 1 1; mark > 2 1; mark * 3 1; mark | 4 1; mark + 5 1; mark : 6 1",
        ),
        ("a;b\rc\nd ;", "word a 0 1; word d 6 1"),
    ] {
        assert_eq!(rt; show(rt.alloc(), text.as_bytes())?.as_str(), want);
    }
    Ok(())
}

#[test]
fn texts_fault_at_these_places(rt: HostRuntime) -> Result<(), Fail> {
    for (text, want) in [
        ("define i32 @main() { ret i32 7 } ~", "fault 33"),
        ("define i32 @", "fault 11"),
        ("x c\"\\\"", "fault 2"),
        ("c\"\\4\"", "fault 0"),
        ("c\"a", "fault 0"),
        (" @c\"x\"", "fault 1"),
        ("%c\"x\"", "fault 0"),
        ("#c\"x\"", "fault 0"),
        ("#", "fault 0"),
        ("@7a", "fault 0"),
        ("@\"\"", "fault 0"),
        ("%\"a\\b\"", "fault 0"),
        ("a \"b\nc\"", "fault 2"),
        ("\"a:", "fault 0"),
        ("a\u{e9}", "fault 1"),
        ("\r\u{0}", "fault 1"),
    ] {
        assert_eq!(rt; show(rt.alloc(), text.as_bytes())?.as_str(), want);
    }
    Ok(())
}
