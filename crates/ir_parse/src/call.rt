//! Calls, with a result name or without.
//!
//! What a call's words, attributes and attachments say leaves no trace. A call of a global of debug
//! records is passed whole: it has a group in place of its arguments, and comes back as no operation.

ghost use Rattle.std.specs.Prelude.{◌≡◌, [], ◌∷◌};
ghost use Rattle.ir_grammar.specs.Tokens.{global as global_sort, kinds, starts};
ghost use Rattle.ir_grammar.specs.Reading.{applied, done, first, read, Gives};
ghost use Rattle.ir_syntax.specs.Instructions.{call_word as a_call_word, call_head as a_call_head, callee as a_callee, function_attribute as a_function_attribute, call_attribute as a_call_attribute, call_tail as a_call_tail, call as a_call, void_callee as a_void_callee, void_call as a_void_call};

use ir_core::instruction::Op;
use ir_core::operand::Operand;
use ir_core::ty::Ty;
use ir_grammar::cursor::{Stop, word};
use ir_lex::token::{Token, TokenKind};
use ir_syntax::arguments::args;
use ir_syntax::metadata::{attaches, maybe_pgroup, pgroup};
use ir_syntax::names::{at_debug_global, is_debug, local, plain_global};
use ir_syntax::parameter::pattrs;
use ir_syntax::traceless::{at_plain_hash, debug_global, plain_hash};
use ir_syntax::types::rtype;
use ir_syntax::words::{at_function_word, at_one_of, conventions, function_word, one_word};
use std::alloc::Global;

/// Words that may stand before `call`.
const TAILS: [&[u8]; 2] = [b"tail", b"notail"];

/// The tokens behind the word of a call.
#[tactic(auto, unfolding(ir_syntax::specs::Instructions::call_word))]
fn call_word<'a>(tokens: &'a [Token]) -> Result<&'a [Token], Stop>
    ensures { Gives (λ rest. done tt (kinds rest.now)) result
        (read a_call_word (kinds tokens.now)) }
{
    if at_one_of(tokens, &TAILS) {
        let rest = one_word(tokens, &TAILS)?;
        return word(rest, b"call");
    }
    word(tokens, b"call")
}

/// The type of what a call gives, and the tokens behind it.
#[tactic(auto, unfolding(ir_syntax::specs::Instructions::call_head))]
fn call_head<'a>(alloc: Global, tokens: &'a [Token]) -> Result<(Ty, &'a [Token]), Stop>
    ensures { Gives (λ x. done x.0 (kinds x.1.now)) result (read a_call_head (kinds tokens.now)) }
{
    let rest = call_word(tokens)?;
    let rest = conventions(rest);
    let rest = pattrs(alloc, rest)?;
    rtype(alloc, rest)
}

/// Whether a global that is none of debug records stands first.
fn at_plain_global(tokens: &[Token]) -> bool
    ensures { result ≡ starts (global_sort ∷ []) (kinds tokens.now) }
{
    match tokens {
        [next, ..] => match &next.kind {
            TokenKind::Global(name) => !is_debug(name.as_slice()),
            _ => false,
        },
        _ => false,
    }
}

/// What is called.
#[tactic(auto, unfolding(ir_syntax::specs::Instructions::callee))]
fn callee<'a>(alloc: Global, tokens: &'a [Token]) -> Result<(Operand, &'a [Token]), Stop>
    ensures { Gives (λ x. done x.0 (kinds x.1.now)) result (read a_callee (kinds tokens.now)) }
{
    if at_plain_global(tokens) {
        let (name, rest) = plain_global(alloc, tokens)?;
        return Ok((Operand::Global(name), rest));
    }
    let (name, rest) = local(alloc, tokens)?;
    Ok((Operand::Local(name), rest))
}

/// The tokens behind a word on what a function does, with its group.
#[tactic(auto, unfolding(ir_syntax::specs::Instructions::function_attribute))]
fn function_attribute<'a>(alloc: Global, tokens: &'a [Token]) -> Result<&'a [Token], Stop>
    ensures { Gives (λ rest. done tt (kinds rest.now)) result
        (read a_function_attribute (kinds tokens.now)) }
{
    let rest = function_word(tokens)?;
    maybe_pgroup(alloc, rest)
}

/// Whether what may stand behind a call's arguments stands first.
#[tactic(auto, using(crate::proofs::Calls::call_attribute_starts))]
fn at_call_attribute(tokens: &[Token]) -> bool
    ensures { result ≡ starts (first a_call_attribute) (kinds tokens.now) }
{
    at_plain_hash(tokens) || at_function_word(tokens)
}

/// The tokens behind one thing of those.
#[tactic(auto, unfolding(ir_syntax::specs::Instructions::call_attribute))]
fn call_attribute<'a>(alloc: Global, tokens: &'a [Token]) -> Result<&'a [Token], Stop>
    ensures { Gives (λ rest. done tt (kinds rest.now)) result
        (read a_call_attribute (kinds tokens.now)) }
{
    if at_plain_hash(tokens) {
        return plain_hash(tokens);
    }
    function_attribute(alloc, tokens)
}

/// The tokens behind what may stand behind a call's arguments.
#[tactic(auto, unfolding(ir_syntax::specs::Instructions::call_tail))]
fn call_tail<'a>(alloc: Global, tokens: &'a [Token]) -> Result<&'a [Token], Stop>
    ensures { Gives (λ rest. done tt (kinds rest.now)) result
        (read a_call_tail (kinds tokens.now)) }
{
    let mut rest = tokens;
    'attributes: while at_call_attribute(rest) {
        rest = call_attribute(alloc, rest)?;
    }
    Ok(rest)
}

/// A call whose result has a name.
#[tactic(auto, unfolding(ir_syntax::specs::Instructions::call))]
pub fn call<'a>(alloc: Global, tokens: &'a [Token]) -> Result<(Op, &'a [Token]), Stop>
    ensures { Gives (λ x. done x.0 (kinds x.1.now)) result (read a_call (kinds tokens.now)) }
{
    let (ty, rest) = call_head(alloc, tokens)?;
    let (callee, rest) = callee(alloc, rest)?;
    let (args, rest) = args(alloc, rest)?;
    let rest = call_tail(alloc, rest)?;
    let rest = attaches(alloc, rest)?;
    Ok((Op::Call(ty, callee, args), rest))
}

/// What a call without a result name has behind its type.
#[tactic(auto, unfolding(ir_syntax::specs::Instructions::void_callee))]
fn void_callee<'a>(
    alloc: Global,
    tokens: &'a [Token],
    ty: Ty,
) -> Result<(Option<Op>, &'a [Token]), Stop>
    ensures { Gives (λ x. done x.0 (kinds x.1.now)) result
        (applied ty (read a_void_callee (kinds tokens.now))) }
{
    if at_debug_global(tokens) {
        let rest = debug_global(tokens)?;
        let rest = pgroup(alloc, rest)?;
        return Ok((None, rest));
    }
    let (callee, rest) = callee(alloc, tokens)?;
    let (args, rest) = args(alloc, rest)?;
    Ok((Some(Op::Call(ty, callee, args)), rest))
}

/// A call without a result name, or none where it is one of debug records.
#[tactic(auto, unfolding(ir_syntax::specs::Instructions::void_call))]
pub fn void_call<'a>(alloc: Global, tokens: &'a [Token]) -> Result<(Option<Op>, &'a [Token]), Stop>
    ensures { Gives (λ x. done x.0 (kinds x.1.now)) result (read a_void_call (kinds tokens.now)) }
{
    let (ty, rest) = call_head(alloc, tokens)?;
    let (op, rest) = void_callee(alloc, rest, ty)?;
    let rest = call_tail(alloc, rest)?;
    let rest = attaches(alloc, rest)?;
    Ok((op, rest))
}
