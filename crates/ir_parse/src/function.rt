//! Functions with their bodies.

ghost use Rattle.std.specs.Prelude.{◌≡◌};
ghost use Rattle.ir_grammar.specs.Tokens.{kinds};
ghost use Rattle.ir_grammar.specs.Reading.{done, read, Gives};
ghost use Rattle.ir_syntax.specs.Functions.{define as a_define};

use crate::block::body;
use crate::declaration::defined_tails;
use ir_core::module::Function;
use ir_grammar::cursor::{Stop, mark, word};
use ir_lex::token::Token;
use ir_syntax::names::global;
use ir_syntax::parameter::{digits, params, pattrs};
use ir_syntax::types::rtype;
use ir_syntax::words::links;
use std::alloc::Global;

/// A function, and the tokens behind it.
#[tactic(auto, unfolding(ir_syntax::specs::Functions::define))]
pub fn define<'a>(alloc: Global, tokens: &'a [Token]) -> Result<(Function, &'a [Token]), Stop>
    ensures { Gives (λ x. done x.0 (kinds x.1.now)) result (read a_define (kinds tokens.now)) }
{
    let rest = word(tokens, b"define")?;
    let rest = links(rest);
    let rest = pattrs(alloc, rest)?;
    let (ret, rest) = rtype(alloc, rest)?;
    let (name, rest) = global(alloc, rest)?;
    let (params, rest) = params(alloc, rest)?;
    let rest = defined_tails(alloc, rest)?;
    let rest = mark(rest, b'{')?;
    let unlabelled = digits(alloc, params.numbered)?;
    let (blocks, rest) = body(alloc, rest, unlabelled)?;
    let rest = mark(rest, b'}')?;
    let function = Function {
        name,
        ret,
        params: params.named,
        blocks,
    };
    Ok((function, rest))
}
