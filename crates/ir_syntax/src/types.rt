//! Types at the front of a row of tokens, nested as deep as is left.
//!
//! A type gives its value and the tokens behind it. Arrays and structs are read by recursion, which the
//! number of levels that are left bounds: 64 for a type, 63 for the fields of a named type.

ghost use Rattle.std.specs.Prelude.{◌≡◌, ◌≤◌, length};
ghost use Rattle.ir_grammar.specs.Tokens.{kinds, starts};
ghost use Rattle.ir_grammar.specs.Grammar.{many};
ghost use Rattle.ir_grammar.specs.Parts.{behind_comma, listed};
ghost use Rattle.ir_grammar.specs.Reading.{done, first, read, Gives, put_before};
ghost use Rattle.ir_syntax.specs.Types.{itype as an_itype, simple_type, array_type, struct_type, type_at, ty as whole_ty, fields_type as a_fields_type, rtype as an_rtype};

use crate::names::{at_local, local};
use crate::words::at_one_of;
use ir_core::ty::Ty;
use ir_grammar::cursor::{Stop, at_mark, at_word, is_word, mark, number, word};
use ir_lex::token::Token;
use rd_num::boxed::Boxed;
use rd_num::list::List;
use rd_num::width::Width;
use std::alloc::Global;

/// Words of types of whole bytes.
const BYTE_TYPES: [&[u8]; 4] = [b"i8", b"i16", b"i32", b"i64"];

/// Words of types that have no parts.
const SIMPLE_TYPES: [&[u8]; 6] = [b"i1", b"i8", b"i16", b"i32", b"i64", b"ptr"];

/// Whether a type of whole bytes stands first.
#[tactic(auto, unfolding(crate::specs::Types::itype))]
pub fn at_itype(tokens: &[Token]) -> bool
    ensures { result ≡ starts (first an_itype) (kinds tokens.now) }
{
    at_one_of(tokens, &BYTE_TYPES)
}

/// A type of whole bytes, and the tokens behind it.
#[tactic(auto, unfolding(crate::specs::Types::itype))]
pub fn itype<'a>(tokens: &'a [Token]) -> Result<(Ty, &'a [Token]), Stop>
    ensures { Gives (λ x. done x.0 (kinds x.1.now)) result (read an_itype (kinds tokens.now)) }
{
    match tokens {
        [next, rest @ ..] => {
            let kind = &next.kind;
            if is_word(kind, b"i8") {
                return Ok((Ty::Int(Width::W8), rest));
            }
            if is_word(kind, b"i16") {
                return Ok((Ty::Int(Width::W16), rest));
            }
            if is_word(kind, b"i32") {
                return Ok((Ty::Int(Width::W32), rest));
            }
            if is_word(kind, b"i64") {
                return Ok((Ty::Int(Width::W64), rest));
            }
            Err(Stop::Stray(tokens.len()))
        }
        _ => Err(Stop::Stray(0)),
    }
}

/// Whether a type without parts stands first.
#[tactic(auto, unfolding(crate::specs::Types::simple_type))]
fn at_simple(tokens: &[Token]) -> bool
    ensures { result ≡ starts (first simple_type) (kinds tokens.now) }
{
    at_one_of(tokens, &SIMPLE_TYPES) || at_local(tokens)
}

/// A type without parts.
#[tactic(auto, unfolding(crate::specs::Types::simple_type))]
fn simple<'a>(alloc: Global, tokens: &'a [Token]) -> Result<(Ty, &'a [Token]), Stop>
    ensures { Gives (λ x. done x.0 (kinds x.1.now)) result (read simple_type (kinds tokens.now)) }
{
    match tokens {
        [next, rest @ ..] => {
            let kind = &next.kind;
            if is_word(kind, b"i1") {
                return Ok((Ty::Int(Width::W1), rest));
            }
            if is_word(kind, b"i8") {
                return Ok((Ty::Int(Width::W8), rest));
            }
            if is_word(kind, b"i16") {
                return Ok((Ty::Int(Width::W16), rest));
            }
            if is_word(kind, b"i32") {
                return Ok((Ty::Int(Width::W32), rest));
            }
            if is_word(kind, b"i64") {
                return Ok((Ty::Int(Width::W64), rest));
            }
            if is_word(kind, b"ptr") {
                return Ok((Ty::Ptr, rest));
            }
            let (name, rest) = local(alloc, tokens)?;
            Ok((Ty::Named(name), rest))
        }
        _ => Err(Stop::Stray(0)),
    }
}

/// Whether a type stands first.
#[tactic(auto, using(crate::proofs::Firsts::first_type), unfolding(crate::specs::Types::simple_type))]
pub fn at_type(tokens: &[Token]) -> bool
    ensures { result ≡ starts (first whole_ty) (kinds tokens.now) }
{
    at_simple(tokens) || at_mark(tokens, b'[') || at_mark(tokens, b'{') || at_mark(tokens, b'<')
}

/// A type, with so many levels left.
#[cycle(ty)]
#[tactic(auto, using(crate::proofs::Levels::shallow, crate::proofs::Levels::deep_simple, crate::proofs::Levels::deep_array, crate::proofs::Levels::deep_struct))]
fn ty<'a>(alloc: Global, tokens: &'a [Token], depth: u32) -> Result<(Ty, &'a [Token]), Stop>
    ensures { Gives (λ x. done x.0 (kinds x.1.now)) result
        (read (type_at depth) (kinds tokens.now)) }
{
    if depth == 0 || at_simple(tokens) {
        return simple(alloc, tokens);
    }
    if at_mark(tokens, b'[') {
        return array(alloc, tokens, depth - 1);
    }
    structure(alloc, tokens, depth - 1)
}

/// An array, whose element has so many levels left.
#[cycle(ty)]
#[tactic(auto, unfolding(crate::specs::Types::array_type))]
fn array<'a>(alloc: Global, tokens: &'a [Token], depth: u32) -> Result<(Ty, &'a [Token]), Stop>
    ensures { Gives (λ x. done x.0 (kinds x.1.now)) result
        (read (array_type (type_at depth)) (kinds tokens.now)) }
{
    let rest = mark(tokens, b'[')?;
    let (count, rest) = number(rest)?;
    let rest = word(rest, b"x")?;
    let (element, rest) = ty(alloc, rest, depth)?;
    let rest = mark(rest, b']')?;
    match Boxed::new(alloc, element) {
        Ok(element) => Ok((Ty::Array(count, element), rest)),
        Err(_) => Err(Stop::NoMemory),
    }
}

/// A struct, whose fields have so many levels left.
#[cycle(ty)]
#[tactic(auto, unfolding(crate::specs::Types::struct_type, crate::specs::Types::plain_struct, crate::specs::Types::packed_struct))]
fn structure<'a>(alloc: Global, tokens: &'a [Token], depth: u32) -> Result<(Ty, &'a [Token]), Stop>
    ensures { Gives (λ x. done x.0 (kinds x.1.now)) result
        (read (struct_type (type_at depth)) (kinds tokens.now)) }
{
    if at_mark(tokens, b'{') {
        let rest = mark(tokens, b'{')?;
        let (fields, rest) = fields(alloc, rest, depth)?;
        return Ok((Ty::Struct(fields), rest));
    }
    let rest = mark(tokens, b'<')?;
    let rest = mark(rest, b'{')?;
    let (fields, rest) = fields(alloc, rest, depth)?;
    let rest = mark(rest, b'>')?;
    Ok((Ty::Packed(fields), rest))
}

/// The fields of a struct, as far as its `}`.
#[cycle(ty)]
fn fields<'a>(
    alloc: Global,
    tokens: &'a [Token],
    depth: u32,
) -> Result<(List<Ty>, &'a [Token]), Stop>
    ensures { Gives (λ x. done x.0 (kinds x.1.now)) result
        (read (listed 125 (type_at depth)) (kinds tokens.now)) }
{
    let mut fields = List::new(alloc);
    if at_mark(tokens, b'}') {
        let rest = mark(tokens, b'}')?;
        return Ok((fields, rest));
    }
    let (field, rest) = ty(alloc, tokens, depth)?;
    match fields.add(field) {
        Ok(()) => {}
        Err(_) => return Err(Stop::NoMemory),
    }
    let (fields, rest) = more_fields(alloc, rest, depth, fields)?;
    let rest = mark(rest, b'}')?;
    Ok((fields, rest))
}

/// The fields behind commas, in front of them those that were read.
#[cycle(ty)]
fn more_fields<'a>(
    alloc: Global,
    tokens: &'a [Token],
    depth: u32,
    fields: List<Ty>,
) -> Result<(List<Ty>, &'a [Token]), Stop>
    ensures { Gives (λ x. done x.0 (kinds x.1.now)) result
        (put_before fields (read (many (behind_comma (type_at depth))) (kinds tokens.now))) }
{
    let mut all = fields;
    let mut rest = tokens;
    'fields: while at_mark(rest, b',') {
        let behind = mark(rest, b',')?;
        let (field, behind) = ty(alloc, behind, depth)?;
        match all.add(field) {
            Ok(()) => {}
            Err(_) => return Err(Stop::NoMemory),
        }
        rest = behind;
    }
    Ok((all, rest))
}

/// A type, and the tokens behind it.
#[tactic(auto, unfolding(crate::specs::Types::ty))]
pub fn whole<'a>(alloc: Global, tokens: &'a [Token]) -> Result<(Ty, &'a [Token]), Stop>
    ensures { Gives (λ x. done x.0 (kinds x.1.now)) result (read whole_ty (kinds tokens.now)) }
{
    ty(alloc, tokens, 64)
}

/// The fields of a named type, and the tokens behind them.
#[tactic(auto, unfolding(crate::specs::Types::fields_type))]
pub fn fields_type<'a>(alloc: Global, tokens: &'a [Token]) -> Result<(Ty, &'a [Token]), Stop>
    ensures { Gives (λ x. done x.0 (kinds x.1.now)) result
        (read a_fields_type (kinds tokens.now)) }
{
    structure(alloc, tokens, 63)
}

/// The type of a result, and the tokens behind it.
#[tactic(auto, unfolding(crate::specs::Types::rtype))]
pub fn rtype<'a>(alloc: Global, tokens: &'a [Token]) -> Result<(Ty, &'a [Token]), Stop>
    ensures { Gives (λ x. done x.0 (kinds x.1.now)) result (read an_rtype (kinds tokens.now)) }
{
    if at_word(tokens, b"void") {
        let rest = word(tokens, b"void")?;
        return Ok((Ty::Void, rest));
    }
    whole(alloc, tokens)
}
