//! Arguments of calls at the front of a row of tokens.

ghost use Rattle.std.specs.Prelude.{◌≡◌};
ghost use Rattle.ir_grammar.specs.Tokens.{kinds};
ghost use Rattle.ir_grammar.specs.Grammar.{many};
ghost use Rattle.ir_grammar.specs.Parts.{behind_comma};
ghost use Rattle.ir_grammar.specs.Reading.{done, read, Gives, put_before};
ghost use Rattle.ir_syntax.specs.Parameters.{arg as an_arg, args as all_args};

use crate::parameter::pattrs;
use crate::types::whole;
use crate::values::value;
use ir_core::instruction::Arg;
use ir_grammar::cursor::{Stop, at_mark, mark};
use ir_lex::token::Token;
use rd_num::list::List;
use std::alloc::Global;

/// An argument, and the tokens behind it.
#[tactic(auto, unfolding(crate::specs::Parameters::arg))]
fn arg<'a>(alloc: Global, tokens: &'a [Token]) -> Result<(Arg, &'a [Token]), Stop>
    ensures { Gives (λ x. done x.0 (kinds x.1.now)) result (read an_arg (kinds tokens.now)) }
{
    let (ty, rest) = whole(alloc, tokens)?;
    let rest = pattrs(alloc, rest)?;
    let (value, rest) = value(alloc, rest)?;
    Ok((Arg { ty, value }, rest))
}

/// The arguments behind commas, in front of them those that were read.
fn more_args<'a>(
    alloc: Global,
    tokens: &'a [Token],
    args: List<Arg>,
) -> Result<(List<Arg>, &'a [Token]), Stop>
    ensures { Gives (λ x. done x.0 (kinds x.1.now)) result
        (put_before args (read (many (behind_comma an_arg)) (kinds tokens.now))) }
{
    let mut all = args;
    let mut rest = tokens;
    'commas: while at_mark(rest, b',') {
        let behind = mark(rest, b',')?;
        let (next, behind) = arg(alloc, behind)?;
        match all.add(next) {
            Ok(()) => {}
            Err(_) => return Err(Stop::NoMemory),
        }
        rest = behind;
    }
    Ok((all, rest))
}

/// The arguments between parentheses, and the tokens behind them.
#[tactic(auto, unfolding(crate::specs::Parameters::args))]
pub fn args<'a>(alloc: Global, tokens: &'a [Token]) -> Result<(List<Arg>, &'a [Token]), Stop>
    ensures { Gives (λ x. done x.0 (kinds x.1.now)) result (read all_args (kinds tokens.now)) }
{
    let rest = mark(tokens, b'(')?;
    let mut args = List::new(alloc);
    if at_mark(rest, b')') {
        let rest = mark(rest, b')')?;
        return Ok((args, rest));
    }
    let (first, rest) = arg(alloc, rest)?;
    match args.add(first) {
        Ok(()) => {}
        Err(_) => return Err(Stop::NoMemory),
    }
    let (args, rest) = more_args(alloc, rest, args)?;
    let rest = mark(rest, b')')?;
    Ok((args, rest))
}
