//! Words of the grammar's lists, at the front of a row of tokens.
//!
//! Each list stands here once. Words without a value are passed, as many as there are; a word with a
//! value gives it. Every function looks at one token at a time, and takes no memory.

ghost use Rattle.std.specs.Prelude.{◌≡◌, ◌<◌, [], ◌∷◌, false, map, length, IfNone, IfSome};
ghost use Rattle.ir_grammar.specs.Tokens.{word as a_word_sort, has, sort_of, starts, kinds};
ghost use Rattle.ir_grammar.specs.Parts.{skip};
ghost use Rattle.ir_grammar.specs.Reading.{done, first, read, Gives};
ghost use Rattle.ir_syntax.specs.Words.{one_of, bin_word, cast_word, pred_word, flag, link, convention, parameter_word as a_parameter_word, function_word as a_function_word};

use ir_core::instruction::{BinOp, CastOp, Pred};
use ir_grammar::cursor::{Stop, is_word};
use ir_lex::token::{Token, TokenKind};

/// Words of operations of two numbers.
const BINS: [&[u8]; 13] = [
    b"add", b"sub", b"mul", b"udiv", b"sdiv", b"urem", b"srem", b"shl", b"lshr", b"ashr", b"and",
    b"or", b"xor",
];

/// Words of casts.
const CASTS: [&[u8]; 3] = [b"trunc", b"zext", b"sext"];

/// Words on how an operation may be carried out.
const FLAGS: [&[u8]; 8] = [
    b"nuw",
    b"nsw",
    b"exact",
    b"inbounds",
    b"nusw",
    b"disjoint",
    b"nneg",
    b"samesign",
];

/// Words on how a name is linked.
const LINKS: [&[u8]; 18] = [
    b"private",
    b"internal",
    b"common",
    b"linkonce",
    b"linkonce_odr",
    b"weak",
    b"weak_odr",
    b"dso_local",
    b"dso_preemptable",
    b"default",
    b"hidden",
    b"protected",
    b"unnamed_addr",
    b"local_unnamed_addr",
    b"externally_initialized",
    b"ccc",
    b"fastcc",
    b"coldcc",
];

/// Words on how a call passes its arguments.
const CONVENTIONS: [&[u8]; 3] = [b"ccc", b"fastcc", b"coldcc"];

/// Words on what a parameter, an argument or a result may be.
const PARAMETER_WORDS: [&[u8]; 20] = [
    b"noundef",
    b"zeroext",
    b"signext",
    b"nonnull",
    b"noalias",
    b"nocapture",
    b"nofree",
    b"readonly",
    b"readnone",
    b"writeonly",
    b"returned",
    b"immarg",
    b"writable",
    b"dead_on_unwind",
    b"dereferenceable",
    b"dereferenceable_or_null",
    b"sret",
    b"captures",
    b"range",
    b"initializes",
];

/// Words on what a function or a call does.
const FUNCTION_WORDS: [&[u8]; 20] = [
    b"unnamed_addr",
    b"local_unnamed_addr",
    b"nounwind",
    b"noreturn",
    b"uwtable",
    b"noinline",
    b"optnone",
    b"alwaysinline",
    b"mustprogress",
    b"willreturn",
    b"norecurse",
    b"nofree",
    b"nosync",
    b"nocallback",
    b"cold",
    b"hot",
    b"memory",
    b"readnone",
    b"readonly",
    b"writeonly",
];

/// Whether a token is one of these words.
fn is_one_of(kind: &TokenKind, words: &[&[u8]]) -> bool
    ensures { result ≡ has (map (λ w. a_word_sort w.now) words.now) (sort_of kind.now) }
{
    for text in words {
        if is_word(kind, text) {
            return true;
        }
    }
    false
}

/// Whether one of these words stands first.
pub fn at_one_of(tokens: &[Token], words: &[&[u8]]) -> bool
    ensures { result ≡ starts (map (λ w. a_word_sort w.now) words.now) (kinds tokens.now) }
{
    match tokens {
        [next, ..] => is_one_of(&next.kind, words),
        _ => false,
    }
}

/// The tokens behind one of these words.
pub fn one_word<'a>(tokens: &'a [Token], words: &[&[u8]]) -> Result<&'a [Token], Stop>
    requires { 0 < length words.now }
    ensures { Gives (λ rest. done tt (kinds rest.now)) result
        (read (one_of (map (λ w. a_word_sort w.now) words.now)) (kinds tokens.now)) }
{
    match tokens {
        [next, rest @ ..] => {
            if is_one_of(&next.kind, words) {
                Ok(rest)
            } else {
                Err(Stop::Stray(tokens.len()))
            }
        }
        _ => Err(Stop::Stray(0)),
    }
}

/// The tokens behind the first one, where it is one of these words.
#[tactic(auto, using(crate::proofs::Skips::skip_more))]
fn behind_one<'a>(tokens: &'a [Token], words: &[&[u8]]) -> Option<&'a [Token]>
    ensures none { IfNone result (starts (map (λ w. a_word_sort w.now) words.now)
        (kinds tokens.now) ≡ false) }
    ensures rest { IfSome result (λ rest. read
        (skip (one_of (map (λ w. a_word_sort w.now) words.now))) (kinds rest.now) ≡
        read (skip (one_of (map (λ w. a_word_sort w.now) words.now))) (kinds tokens.now)) }
    ensures shorter { IfSome result (λ rest. length rest.now < length tokens.now) }
{
    match tokens {
        [next, rest @ ..] => {
            if is_one_of(&next.kind, words) {
                Some(rest)
            } else {
                None
            }
        }
        _ => None,
    }
}

/// The tokens behind these words, as many as stand first.
#[tactic(auto, using(crate::proofs::Skips::skip_end))]
fn behind_words<'a>(tokens: &'a [Token], words: &[&[u8]]) -> &'a [Token]
    ensures { read (skip (one_of (map (λ w. a_word_sort w.now) words.now))) (kinds tokens.now) ≡
        done tt (kinds result.now) }
{
    let mut rest = tokens;
    'words: while let Some(behind) = behind_one(rest, words) {
        rest = behind;
    }
    rest
}

/// The tokens behind words on how an operation may be carried out.
#[tactic(auto, unfolding(crate::specs::Words::flag))]
pub fn flags<'a>(tokens: &'a [Token]) -> &'a [Token]
    ensures { read (skip flag) (kinds tokens.now) ≡ done tt (kinds result.now) }
{
    behind_words(tokens, &FLAGS)
}

/// The tokens behind words on how a name is linked.
#[tactic(auto, unfolding(crate::specs::Words::link))]
pub fn links<'a>(tokens: &'a [Token]) -> &'a [Token]
    ensures { read (skip link) (kinds tokens.now) ≡ done tt (kinds result.now) }
{
    behind_words(tokens, &LINKS)
}

/// The tokens behind words on how a call passes its arguments.
#[tactic(auto, unfolding(crate::specs::Words::convention))]
pub fn conventions<'a>(tokens: &'a [Token]) -> &'a [Token]
    ensures { read (skip convention) (kinds tokens.now) ≡ done tt (kinds result.now) }
{
    behind_words(tokens, &CONVENTIONS)
}

/// Whether a word on what a parameter may be stands first.
#[tactic(auto, unfolding(crate::specs::Words::parameter_word))]
pub fn at_parameter_word(tokens: &[Token]) -> bool
    ensures { result ≡ starts (first a_parameter_word) (kinds tokens.now) }
{
    at_one_of(tokens, &PARAMETER_WORDS)
}

/// The tokens behind a word on what a parameter may be.
#[tactic(auto, unfolding(crate::specs::Words::parameter_word))]
pub fn parameter_word<'a>(tokens: &'a [Token]) -> Result<&'a [Token], Stop>
    ensures { Gives (λ rest. done tt (kinds rest.now)) result
        (read a_parameter_word (kinds tokens.now)) }
{
    one_word(tokens, &PARAMETER_WORDS)
}

/// Whether a word on what a function does stands first.
#[tactic(auto, unfolding(crate::specs::Words::function_word))]
pub fn at_function_word(tokens: &[Token]) -> bool
    ensures { result ≡ starts (first a_function_word) (kinds tokens.now) }
{
    at_one_of(tokens, &FUNCTION_WORDS)
}

/// The tokens behind a word on what a function does.
#[tactic(auto, unfolding(crate::specs::Words::function_word))]
pub fn function_word<'a>(tokens: &'a [Token]) -> Result<&'a [Token], Stop>
    ensures { Gives (λ rest. done tt (kinds rest.now)) result
        (read a_function_word (kinds tokens.now)) }
{
    one_word(tokens, &FUNCTION_WORDS)
}

/// Whether the word of an operation of two numbers stands first.
#[tactic(auto, unfolding(crate::specs::Words::bin_word))]
pub fn at_bin_op(tokens: &[Token]) -> bool
    ensures { result ≡ starts (first bin_word) (kinds tokens.now) }
{
    at_one_of(tokens, &BINS)
}

/// The operation that stands first, and the tokens behind it.
#[tactic(auto, unfolding(crate::specs::Words::bin_word))]
pub fn bin_op<'a>(tokens: &'a [Token]) -> Result<(BinOp, &'a [Token]), Stop>
    ensures { Gives (λ x. done x.0 (kinds x.1.now)) result (read bin_word (kinds tokens.now)) }
{
    match tokens {
        [next, rest @ ..] => {
            let kind = &next.kind;
            if is_word(kind, b"add") {
                return Ok((BinOp::Add, rest));
            }
            if is_word(kind, b"sub") {
                return Ok((BinOp::Sub, rest));
            }
            if is_word(kind, b"mul") {
                return Ok((BinOp::Mul, rest));
            }
            if is_word(kind, b"udiv") {
                return Ok((BinOp::Udiv, rest));
            }
            if is_word(kind, b"sdiv") {
                return Ok((BinOp::Sdiv, rest));
            }
            if is_word(kind, b"urem") {
                return Ok((BinOp::Urem, rest));
            }
            if is_word(kind, b"srem") {
                return Ok((BinOp::Srem, rest));
            }
            if is_word(kind, b"shl") {
                return Ok((BinOp::Shl, rest));
            }
            if is_word(kind, b"lshr") {
                return Ok((BinOp::Lshr, rest));
            }
            if is_word(kind, b"ashr") {
                return Ok((BinOp::Ashr, rest));
            }
            if is_word(kind, b"and") {
                return Ok((BinOp::And, rest));
            }
            if is_word(kind, b"or") {
                return Ok((BinOp::Or, rest));
            }
            if is_word(kind, b"xor") {
                return Ok((BinOp::Xor, rest));
            }
            Err(Stop::Stray(tokens.len()))
        }
        _ => Err(Stop::Stray(0)),
    }
}

/// Whether the word of a cast stands first.
#[tactic(auto, unfolding(crate::specs::Words::cast_word))]
pub fn at_cast_op(tokens: &[Token]) -> bool
    ensures { result ≡ starts (first cast_word) (kinds tokens.now) }
{
    at_one_of(tokens, &CASTS)
}

/// The cast that stands first, and the tokens behind it.
#[tactic(auto, unfolding(crate::specs::Words::cast_word))]
pub fn cast_op<'a>(tokens: &'a [Token]) -> Result<(CastOp, &'a [Token]), Stop>
    ensures { Gives (λ x. done x.0 (kinds x.1.now)) result (read cast_word (kinds tokens.now)) }
{
    match tokens {
        [next, rest @ ..] => {
            let kind = &next.kind;
            if is_word(kind, b"trunc") {
                return Ok((CastOp::Trunc, rest));
            }
            if is_word(kind, b"zext") {
                return Ok((CastOp::Zext, rest));
            }
            if is_word(kind, b"sext") {
                return Ok((CastOp::Sext, rest));
            }
            Err(Stop::Stray(tokens.len()))
        }
        _ => Err(Stop::Stray(0)),
    }
}

/// What a comparison asks, and the tokens behind it.
#[tactic(auto, unfolding(crate::specs::Words::pred_word))]
pub fn pred<'a>(tokens: &'a [Token]) -> Result<(Pred, &'a [Token]), Stop>
    ensures { Gives (λ x. done x.0 (kinds x.1.now)) result (read pred_word (kinds tokens.now)) }
{
    match tokens {
        [next, rest @ ..] => {
            let kind = &next.kind;
            if is_word(kind, b"eq") {
                return Ok((Pred::Eq, rest));
            }
            if is_word(kind, b"ne") {
                return Ok((Pred::Ne, rest));
            }
            if is_word(kind, b"ult") {
                return Ok((Pred::Ult, rest));
            }
            if is_word(kind, b"ule") {
                return Ok((Pred::Ule, rest));
            }
            if is_word(kind, b"ugt") {
                return Ok((Pred::Ugt, rest));
            }
            if is_word(kind, b"uge") {
                return Ok((Pred::Uge, rest));
            }
            if is_word(kind, b"slt") {
                return Ok((Pred::Slt, rest));
            }
            if is_word(kind, b"sle") {
                return Ok((Pred::Sle, rest));
            }
            if is_word(kind, b"sgt") {
                return Ok((Pred::Sgt, rest));
            }
            if is_word(kind, b"sge") {
                return Ok((Pred::Sge, rest));
            }
            Err(Stop::Stray(tokens.len()))
        }
        _ => Err(Stop::Stray(0)),
    }
}
