//! Whole instructions.
//!
//! An instruction that leaves no trace, as a debug record, comes back as none.

ghost use Rattle.std.specs.Prelude.{◌≡◌};
ghost use Rattle.ir_grammar.specs.Tokens.{kinds, starts};
ghost use Rattle.ir_grammar.specs.Reading.{done, first, read, Gives};
ghost use Rattle.ir_syntax.specs.Instructions.{op as an_op, without_name, named_inst as a_named_inst, void_inst as a_void_inst, debug_inst as a_debug_inst, inst as an_inst};

use crate::call::{call, void_call};
use crate::instruction::{alloca, binary, cast, compare, freeze, gep, load, phi, select, store};
use ir_core::instruction::{Inst, Op};
use ir_grammar::cursor::{Stop, at_word, mark};
use ir_lex::token::Token;
use ir_syntax::metadata::group;
use ir_syntax::names::{at_local, local};
use ir_syntax::traceless::{at_debug_hash, debug_hash};
use ir_syntax::words::{at_bin_op, at_cast_op, at_one_of};
use std::alloc::Global;

/// Words that an instruction without a result name begins with.
const VOIDS: [&[u8]; 4] = [b"store", b"tail", b"notail", b"call"];

/// An operation, with all that stands behind it.
#[tactic(auto, unfolding(ir_syntax::specs::Instructions::op), using(crate::proofs::Firsts::first_binary, crate::proofs::Firsts::first_compare, crate::proofs::Firsts::first_cast, crate::proofs::Firsts::first_select, crate::proofs::Firsts::first_freeze, crate::proofs::Firsts::first_alloca, crate::proofs::Firsts::first_load, crate::proofs::Firsts::first_gep, crate::proofs::Firsts::first_phi))]
fn op<'a>(alloc: Global, tokens: &'a [Token]) -> Result<(Op, &'a [Token]), Stop>
    ensures { Gives (λ x. done x.0 (kinds x.1.now)) result (read an_op (kinds tokens.now)) }
{
    if at_bin_op(tokens) {
        return binary(alloc, tokens);
    }
    if at_word(tokens, b"icmp") {
        return compare(alloc, tokens);
    }
    if at_cast_op(tokens) {
        return cast(alloc, tokens);
    }
    if at_word(tokens, b"select") {
        return select(alloc, tokens);
    }
    if at_word(tokens, b"freeze") {
        return freeze(alloc, tokens);
    }
    if at_word(tokens, b"alloca") {
        return alloca(alloc, tokens);
    }
    if at_word(tokens, b"load") {
        return load(alloc, tokens);
    }
    if at_word(tokens, b"getelementptr") {
        return gep(alloc, tokens);
    }
    if at_word(tokens, b"phi") {
        return phi(alloc, tokens);
    }
    call(alloc, tokens)
}

/// An instruction whose result has a name.
#[tactic(auto, unfolding(ir_syntax::specs::Instructions::named_inst))]
fn named_inst<'a>(alloc: Global, tokens: &'a [Token]) -> Result<(Option<Inst>, &'a [Token]), Stop>
    ensures { Gives (λ x. done x.0 (kinds x.1.now)) result (read a_named_inst (kinds tokens.now)) }
{
    let (name, rest) = local(alloc, tokens)?;
    let rest = mark(rest, b'=')?;
    let (op, rest) = op(alloc, rest)?;
    let inst = Inst {
        result: Some(name),
        op,
    };
    Ok((Some(inst), rest))
}

/// An instruction without a result name, where there is one.
fn unnamed(op: Option<Op>) -> Option<Inst>
    ensures { result ≡ without_name op }
{
    match op {
        Some(op) => Some(Inst { result: None, op }),
        None => None,
    }
}

/// Whether an instruction without a result name is next.
#[tactic(auto, using(crate::proofs::Firsts::first_void_inst))]
fn at_void_inst(tokens: &[Token]) -> bool
    ensures { result ≡ starts (first a_void_inst) (kinds tokens.now) }
{
    at_one_of(tokens, &VOIDS)
}

/// An instruction without a result name, or none where it leaves no trace.
#[tactic(auto, unfolding(ir_syntax::specs::Instructions::void_inst), using(crate::proofs::Firsts::first_store))]
fn void_inst<'a>(alloc: Global, tokens: &'a [Token]) -> Result<(Option<Inst>, &'a [Token]), Stop>
    ensures { Gives (λ x. done x.0 (kinds x.1.now)) result (read a_void_inst (kinds tokens.now)) }
{
    if at_word(tokens, b"store") {
        let (op, rest) = store(alloc, tokens)?;
        return Ok((unnamed(Some(op)), rest));
    }
    let (op, rest) = void_call(alloc, tokens)?;
    Ok((unnamed(op), rest))
}

/// A debug record, which leaves no trace.
#[tactic(auto, unfolding(ir_syntax::specs::Instructions::debug_inst))]
fn debug_inst<'a>(alloc: Global, tokens: &'a [Token]) -> Result<(Option<Inst>, &'a [Token]), Stop>
    ensures { Gives (λ x. done x.0 (kinds x.1.now)) result (read a_debug_inst (kinds tokens.now)) }
{
    let rest = debug_hash(tokens)?;
    let rest = group(alloc, rest)?;
    Ok((None, rest))
}

/// Whether an instruction is next.
#[tactic(auto, using(crate::proofs::Calls::inst_starts))]
pub fn at_inst(tokens: &[Token]) -> bool
    ensures { result ≡ starts (first an_inst) (kinds tokens.now) }
{
    at_local(tokens) || at_void_inst(tokens) || at_debug_hash(tokens)
}

/// An instruction, or none where it leaves no trace.
#[tactic(auto, unfolding(ir_syntax::specs::Instructions::inst), using(crate::proofs::Firsts::first_named_inst))]
pub fn inst<'a>(alloc: Global, tokens: &'a [Token]) -> Result<(Option<Inst>, &'a [Token]), Stop>
    ensures { Gives (λ x. done x.0 (kinds x.1.now)) result (read an_inst (kinds tokens.now)) }
{
    if at_local(tokens) {
        return named_inst(alloc, tokens);
    }
    if at_void_inst(tokens) {
        return void_inst(alloc, tokens);
    }
    debug_inst(alloc, tokens)
}
