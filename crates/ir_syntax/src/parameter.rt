//! Parameters at the front of a row of tokens, as they are written and as a function names them.
//!
//! A parameter without a written name is named by a decimal number: that of the parameters before it which
//! have no written name or a name of digits. A declaration keeps only the types of its parameters.

ghost use Rattle.std.specs.Prelude.{◌≡◌, ◌+◌, ◌≤◌, [], ◌∷◌, length, decimal, if◌then◌else◌, MatchResult};
ghost use Rattle.ir_grammar.specs.Tokens.{kinds, starts};
ghost use Rattle.ir_grammar.specs.Grammar.{many};
ghost use Rattle.ir_grammar.specs.Parts.{skip, behind_comma};
ghost use Rattle.ir_grammar.specs.Reading.{done, first, read, Gives, put_before};
ghost use Rattle.ir_syntax.specs.Parameters.{pattr as a_pattr, param as a_param, params as all_params, declared_param as a_declared_param, declared_params as all_declared_params, is_numbered as is_numbered_name, name_or};
ghost use Rattle.ir_syntax.specs.Naming.{named_behind, with_one};

use crate::metadata::{aligned, is_number, maybe_pgroup};
use crate::names::{behind_local, maybe_local};
use crate::types::whole;
use crate::words::{at_parameter_word, parameter_word};
use ir_core::module::Param;
use ir_core::ty::{Name, Ty};
use ir_grammar::cursor::{Stop, at_mark, at_word, mark};
use ir_lex::token::Token;
use itoa::Buffer;
use rd_num::list::List;
use std::alloc::Global;

/// A parameter as it is written, where it may have no name.
#[derive(Drop)]
pub struct Written {
    pub ty: Ty,
    pub name: Option<Name>,
}

/// The parameters of a function, and how many of them have no written name or a name of digits.
#[derive(Drop)]
pub struct NamedParams {
    pub named: List<Param>,
    pub numbered: usize,
}

/// Whether an attribute of a parameter stands first.
#[tactic(auto, unfolding(crate::specs::Parameters::pattr), using(crate::proofs::Attributes::pattr_starts))]
pub fn at_pattr(tokens: &[Token]) -> bool
    ensures { result ≡ starts (first a_pattr) (kinds tokens.now) }
{
    at_word(tokens, b"align") || at_parameter_word(tokens)
}

/// The tokens behind an attribute of a parameter.
#[tactic(auto, unfolding(crate::specs::Parameters::pattr))]
fn pattr<'a>(alloc: Global, tokens: &'a [Token]) -> Result<&'a [Token], Stop>
    ensures { Gives (λ rest. done tt (kinds rest.now)) result (read a_pattr (kinds tokens.now)) }
{
    if at_word(tokens, b"align") {
        return aligned(tokens);
    }
    let rest = parameter_word(tokens)?;
    maybe_pgroup(alloc, rest)
}

/// The tokens behind attributes of a parameter, as many as there are.
pub fn pattrs<'a>(alloc: Global, tokens: &'a [Token]) -> Result<&'a [Token], Stop>
    ensures { Gives (λ rest. done tt (kinds rest.now)) result
        (read (skip a_pattr) (kinds tokens.now)) }
{
    let mut rest = tokens;
    'attributes: while at_pattr(rest) {
        rest = pattr(alloc, rest)?;
    }
    Ok(rest)
}

/// A parameter as it is written, and the tokens behind it.
#[tactic(auto, unfolding(crate::specs::Parameters::param))]
fn param<'a>(alloc: Global, tokens: &'a [Token]) -> Result<(Written, &'a [Token]), Stop>
    ensures { Gives (λ x. done x.0 (kinds x.1.now)) result (read a_param (kinds tokens.now)) }
{
    let (ty, rest) = whole(alloc, tokens)?;
    let rest = pattrs(alloc, rest)?;
    let (name, rest) = maybe_local(alloc, rest)?;
    Ok((Written { ty, name }, rest))
}

/// The decimal digits of a number, as a name.
pub fn digits(alloc: Global, n: usize) -> Result<Name, Stop>
    ensures { MatchResult result (λ name. name ≡ decimal n) (λ stop. stop ≡ Stop.NoMemory) }
{
    let mut name = List::new(alloc);
    let mut buffer = Buffer::new();
    match name.append(buffer.format(n).as_bytes()) {
        Ok(()) => Ok(name),
        Err(_) => Err(Stop::NoMemory),
    }
}

/// Whether a parameter has no written name, or a name of digits.
fn is_numbered(name: &Option<Name>) -> bool
    ensures { result ≡ is_numbered_name name.now }
{
    match name {
        Some(text) => is_number(text.as_slice()),
        None => true,
    }
}

/// A name, or a number as a name where there is none.
fn name_or_number(alloc: Global, name: Option<Name>, number: usize) -> Result<Name, Stop>
    ensures { MatchResult result (λ own. own ≡ name_or name (decimal number))
        (λ stop. stop ≡ Stop.NoMemory) }
{
    match name {
        Some(own) => Ok(own),
        None => digits(alloc, number),
    }
}

/// One parameter more, with a name.
fn with_param(alloc: Global, params: NamedParams, written: Written) -> Result<NamedParams, Stop>
    requires { params.numbered ≤ length params.named }
    ensures { MatchResult result (λ more. more ≡ with_one params written)
        (λ stop. stop ≡ Stop.NoMemory) }
{
    let mut params = params;
    let number = params.numbered;
    if is_numbered(&written.name) {
        params.numbered = number + 1;
    }
    let name = name_or_number(alloc, written.name, number)?;
    let param = Param {
        ty: written.ty,
        name,
    };
    match params.named.add(param) {
        Ok(()) => Ok(params),
        Err(_) => Err(Stop::NoMemory),
    }
}

/// The parameters behind commas, named behind those that were read.
#[tactic(auto, using(crate::proofs::NamedRows::named_end))]
fn more_params<'a>(
    alloc: Global,
    tokens: &'a [Token],
    params: NamedParams,
) -> Result<(NamedParams, &'a [Token]), Stop>
    requires { params.numbered ≤ length params.named }
    ensures { Gives (λ x. done x.0 (kinds x.1.now)) result
        (named_behind params.named params.numbered
        (read (many (behind_comma a_param)) (kinds tokens.now))) }
{
    let mut all = params;
    let mut rest = tokens;
    'commas: while at_mark(rest, b',') {
        let behind = mark(rest, b',')?;
        let (written, behind) = param(alloc, behind)?;
        all = with_param(alloc, all, written)?;
        rest = behind;
    }
    Ok((all, rest))
}

/// The parameters between parentheses, with names, and the tokens behind them.
#[tactic(auto, unfolding(crate::specs::Parameters::params))]
pub fn params<'a>(alloc: Global, tokens: &'a [Token]) -> Result<(NamedParams, &'a [Token]), Stop>
    ensures { Gives (λ x. done x.0 (kinds x.1.now)) result (read all_params (kinds tokens.now)) }
{
    let rest = mark(tokens, b'(')?;
    let none = NamedParams {
        named: List::new(alloc),
        numbered: 0,
    };
    if at_mark(rest, b')') {
        let rest = mark(rest, b')')?;
        return Ok((none, rest));
    }
    let (written, rest) = param(alloc, rest)?;
    let one = with_param(alloc, none, written)?;
    let (all, rest) = more_params(alloc, rest, one)?;
    let rest = mark(rest, b')')?;
    Ok((all, rest))
}

/// The type of a declaration's parameter, and the tokens behind it.
#[tactic(auto, unfolding(crate::specs::Parameters::declared_param))]
fn declared_param<'a>(alloc: Global, tokens: &'a [Token]) -> Result<(Ty, &'a [Token]), Stop>
    ensures { Gives (λ x. done x.0 (kinds x.1.now)) result
        (read a_declared_param (kinds tokens.now)) }
{
    let (ty, rest) = whole(alloc, tokens)?;
    let rest = pattrs(alloc, rest)?;
    let rest = behind_local(rest);
    Ok((ty, rest))
}

/// The types behind commas, in front of them those that were read.
fn more_declared_params<'a>(
    alloc: Global,
    tokens: &'a [Token],
    types: List<Ty>,
) -> Result<(List<Ty>, &'a [Token]), Stop>
    ensures { Gives (λ x. done x.0 (kinds x.1.now)) result
        (put_before types (read (many (behind_comma a_declared_param)) (kinds tokens.now))) }
{
    let mut all = types;
    let mut rest = tokens;
    'commas: while at_mark(rest, b',') {
        let behind = mark(rest, b',')?;
        let (next, behind) = declared_param(alloc, behind)?;
        match all.add(next) {
            Ok(()) => {}
            Err(_) => return Err(Stop::NoMemory),
        }
        rest = behind;
    }
    Ok((all, rest))
}

/// The types of a declaration's parameters, and the tokens behind them.
#[tactic(auto, unfolding(crate::specs::Parameters::declared_params))]
pub fn declared_params<'a>(
    alloc: Global,
    tokens: &'a [Token],
) -> Result<(List<Ty>, &'a [Token]), Stop>
    ensures { Gives (λ x. done x.0 (kinds x.1.now)) result
        (read all_declared_params (kinds tokens.now)) }
{
    let rest = mark(tokens, b'(')?;
    let mut types = List::new(alloc);
    if at_mark(rest, b')') {
        let rest = mark(rest, b')')?;
        return Ok((types, rest));
    }
    let (ty, rest) = declared_param(alloc, rest)?;
    match types.add(ty) {
        Ok(()) => {}
        Err(_) => return Err(Stop::NoMemory),
    }
    let (types, rest) = more_declared_params(alloc, rest, types)?;
    let rest = mark(rest, b')')?;
    Ok((types, rest))
}
