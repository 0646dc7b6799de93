//! How blocks end.

ghost use Rattle.std.specs.Prelude.{◌≡◌};
ghost use Rattle.ir_grammar.specs.Tokens.{kinds, starts};
ghost use Rattle.ir_grammar.specs.Grammar.{many};
ghost use Rattle.ir_grammar.specs.Reading.{done, first, read, Gives};
ghost use Rattle.ir_syntax.specs.Terminators.{target as a_target, ret as a_ret, br as a_br, case as a_case, switch as a_switch, unreachable as an_unreachable, ending as an_ending, term as a_term};

use ir_core::instruction::{Case, Term};
use ir_core::ty::Name;
use ir_grammar::cursor::{Stop, at_mark, at_word, mark, word};
use ir_lex::token::Token;
use ir_syntax::metadata::attaches;
use ir_syntax::names::local;
use ir_syntax::types::{at_type, whole};
use ir_syntax::values::{const_value, value};
use rd_num::list::List;
use std::alloc::Global;

/// The block that a jump goes to, and the tokens behind it.
#[tactic(auto, unfolding(ir_syntax::specs::Terminators::target))]
fn target<'a>(alloc: Global, tokens: &'a [Token]) -> Result<(Name, &'a [Token]), Stop>
    ensures { Gives (λ x. done x.0 (kinds x.1.now)) result (read a_target (kinds tokens.now)) }
{
    let rest = word(tokens, b"label")?;
    local(alloc, rest)
}

/// A return.
#[tactic(auto, unfolding(ir_syntax::specs::Terminators::ret))]
fn ret<'a>(alloc: Global, tokens: &'a [Token]) -> Result<(Term, &'a [Token]), Stop>
    ensures { Gives (λ x. done x.0 (kinds x.1.now)) result (read a_ret (kinds tokens.now)) }
{
    let rest = word(tokens, b"ret")?;
    if at_word(rest, b"void") {
        let rest = word(rest, b"void")?;
        return Ok((Term::Ret, rest));
    }
    let (ty, rest) = whole(alloc, rest)?;
    let (value, rest) = value(alloc, rest)?;
    Ok((Term::RetValue(ty, value), rest))
}

/// A jump, with a condition or without.
#[tactic(auto, unfolding(ir_syntax::specs::Terminators::br), using(crate::proofs::Firsts::first_target))]
fn br<'a>(alloc: Global, tokens: &'a [Token]) -> Result<(Term, &'a [Token]), Stop>
    ensures { Gives (λ x. done x.0 (kinds x.1.now)) result (read a_br (kinds tokens.now)) }
{
    let rest = word(tokens, b"br")?;
    if at_word(rest, b"label") {
        let (to, rest) = target(alloc, rest)?;
        return Ok((Term::Br(to), rest));
    }
    let rest = word(rest, b"i1")?;
    let (condition, rest) = value(alloc, rest)?;
    let rest = mark(rest, b',')?;
    let (yes, rest) = target(alloc, rest)?;
    let rest = mark(rest, b',')?;
    let (no, rest) = target(alloc, rest)?;
    Ok((Term::BrIf(condition, yes, no), rest))
}

/// One case of a switch.
#[tactic(auto, unfolding(ir_syntax::specs::Terminators::case))]
fn case<'a>(alloc: Global, tokens: &'a [Token]) -> Result<(Case, &'a [Token]), Stop>
    ensures { Gives (λ x. done x.0 (kinds x.1.now)) result (read a_case (kinds tokens.now)) }
{
    let (ty, rest) = whole(alloc, tokens)?;
    let (value, rest) = const_value(rest)?;
    let rest = mark(rest, b',')?;
    let (to, rest) = target(alloc, rest)?;
    Ok((Case { ty, value, to }, rest))
}

/// Whether a case is next.
#[tactic(auto, using(crate::proofs::Firsts::first_case))]
fn at_case(tokens: &[Token]) -> bool
    ensures { result ≡ starts (first a_case) (kinds tokens.now) }
{
    at_type(tokens)
}

/// Cases, as many as there are.
fn cases<'a>(alloc: Global, tokens: &'a [Token]) -> Result<(List<Case>, &'a [Token]), Stop>
    ensures { Gives (λ x. done x.0 (kinds x.1.now)) result
        (read (many a_case) (kinds tokens.now)) }
{
    let mut all = List::new(alloc);
    let mut rest = tokens;
    'cases: while at_case(rest) {
        let (case, behind) = case(alloc, rest)?;
        match all.add(case) {
            Ok(()) => {}
            Err(_) => return Err(Stop::NoMemory),
        }
        rest = behind;
    }
    Ok((all, rest))
}

/// A switch.
#[tactic(auto, unfolding(ir_syntax::specs::Terminators::switch))]
fn switch<'a>(alloc: Global, tokens: &'a [Token]) -> Result<(Term, &'a [Token]), Stop>
    ensures { Gives (λ x. done x.0 (kinds x.1.now)) result (read a_switch (kinds tokens.now)) }
{
    let rest = word(tokens, b"switch")?;
    let (ty, rest) = whole(alloc, rest)?;
    let (value, rest) = value(alloc, rest)?;
    let rest = mark(rest, b',')?;
    let (other, rest) = target(alloc, rest)?;
    let rest = mark(rest, b'[')?;
    let (cases, rest) = cases(alloc, rest)?;
    let rest = mark(rest, b']')?;
    Ok((Term::Switch(ty, value, other, cases), rest))
}

/// The end that nothing reaches.
#[tactic(auto, unfolding(ir_syntax::specs::Terminators::unreachable))]
fn unreachable_end<'a>(tokens: &'a [Token]) -> Result<(Term, &'a [Token]), Stop>
    ensures { Gives (λ x. done x.0 (kinds x.1.now)) result
        (read an_unreachable (kinds tokens.now)) }
{
    let rest = word(tokens, b"unreachable")?;
    Ok((Term::Unreachable, rest))
}

/// A terminator, without its attachments.
#[tactic(auto, unfolding(ir_syntax::specs::Terminators::ending), using(crate::proofs::Firsts::first_ret, crate::proofs::Firsts::first_br, crate::proofs::Firsts::first_switch))]
fn ending<'a>(alloc: Global, tokens: &'a [Token]) -> Result<(Term, &'a [Token]), Stop>
    ensures { Gives (λ x. done x.0 (kinds x.1.now)) result (read an_ending (kinds tokens.now)) }
{
    if at_word(tokens, b"ret") {
        return ret(alloc, tokens);
    }
    if at_word(tokens, b"br") {
        return br(alloc, tokens);
    }
    if at_word(tokens, b"switch") {
        return switch(alloc, tokens);
    }
    unreachable_end(tokens)
}

/// A terminator.
#[tactic(auto, unfolding(ir_syntax::specs::Terminators::term))]
pub fn term<'a>(alloc: Global, tokens: &'a [Token]) -> Result<(Term, &'a [Token]), Stop>
    ensures { Gives (λ x. done x.0 (kinds x.1.now)) result (read a_term (kinds tokens.now)) }
{
    let (term, rest) = ending(alloc, tokens)?;
    let rest = attaches(alloc, rest)?;
    Ok((term, rest))
}
