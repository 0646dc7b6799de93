//! Blocks: instructions and how they end, behind a label or without one.

ghost use Rattle.std.specs.Prelude.{◌≡◌, ◌++◌, option_to_list, MatchResult};
ghost use Rattle.ir_grammar.specs.Tokens.{kinds, starts};
ghost use Rattle.ir_grammar.specs.Grammar.{many};
ghost use Rattle.ir_grammar.specs.Reading.{done, first, read, Gives, put_before, applied};
ghost use Rattle.ir_syntax.specs.Parameters.{name_or};
ghost use Rattle.ir_syntax.specs.Functions.{insts as all_insts, block as a_block, labelled as a_labelled, body as a_body};

use crate::inst::{at_inst, inst};
use crate::terminator::term;
use ir_core::instruction::Inst;
use ir_core::module::Block;
use ir_core::ty::Name;
use ir_grammar::cursor::Stop;
use ir_lex::token::Token;
use ir_syntax::names::{at_label, label, maybe_label};
use rd_num::list::List;
use std::alloc::Global;

/// One instruction more, where it leaves a trace.
fn with_inst(insts: List<Inst>, next: Option<Inst>) -> Result<List<Inst>, Stop>
    ensures { MatchResult result (λ more. more ≡ insts ++ option_to_list next)
        (λ stop. stop ≡ Stop.NoMemory) }
{
    let mut all = insts;
    match next {
        Some(inst) => match all.add(inst) {
            Ok(()) => Ok(all),
            Err(_) => Err(Stop::NoMemory),
        },
        None => Ok(all),
    }
}

/// Instructions, as many as there are, without those that leave no trace.
#[tactic(auto, unfolding(ir_syntax::specs::Functions::insts), using(crate::proofs::Present::present_end, crate::proofs::Present::present_none))]
fn insts<'a>(alloc: Global, tokens: &'a [Token]) -> Result<(List<Inst>, &'a [Token]), Stop>
    ensures { Gives (λ x. done x.0 (kinds x.1.now)) result (read all_insts (kinds tokens.now)) }
{
    let mut all = List::new(alloc);
    let mut rest = tokens;
    'insts: while at_inst(rest) {
        let (next, behind) = inst(alloc, rest)?;
        all = with_inst(all, next)?;
        rest = behind;
    }
    Ok((all, rest))
}

/// A block with this name, and the tokens behind it.
#[tactic(auto, unfolding(ir_syntax::specs::Functions::block))]
fn block<'a>(alloc: Global, tokens: &'a [Token], label: Name) -> Result<(Block, &'a [Token]), Stop>
    ensures { Gives (λ x. done x.0 (kinds x.1.now)) result
        (applied label (read a_block (kinds tokens.now))) }
{
    let (insts, rest) = insts(alloc, tokens)?;
    let (end, rest) = term(alloc, rest)?;
    Ok((Block { label, insts, end }, rest))
}

/// A block behind its label, and the tokens behind it.
#[tactic(auto, unfolding(ir_syntax::specs::Functions::labelled))]
fn labelled<'a>(alloc: Global, tokens: &'a [Token]) -> Result<(Block, &'a [Token]), Stop>
    ensures { Gives (λ x. done x.0 (kinds x.1.now)) result (read a_labelled (kinds tokens.now)) }
{
    let (name, rest) = label(alloc, tokens)?;
    block(alloc, rest, name)
}

/// Whether a block behind a label stands first.
#[tactic(auto, unfolding(ir_syntax::specs::Functions::labelled))]
fn at_labelled(tokens: &[Token]) -> bool
    ensures { result ≡ starts (first a_labelled) (kinds tokens.now) }
{
    at_label(tokens)
}

/// Blocks behind labels, in front of them those that were read.
fn more_blocks<'a>(
    alloc: Global,
    tokens: &'a [Token],
    blocks: List<Block>,
) -> Result<(List<Block>, &'a [Token]), Stop>
    ensures { Gives (λ x. done x.0 (kinds x.1.now)) result
        (put_before blocks (read (many a_labelled) (kinds tokens.now))) }
{
    let mut all = blocks;
    let mut rest = tokens;
    'labels: while at_labelled(rest) {
        let (next, behind) = labelled(alloc, rest)?;
        match all.add(next) {
            Ok(()) => {}
            Err(_) => return Err(Stop::NoMemory),
        }
        rest = behind;
    }
    Ok((all, rest))
}

/// A written name, or another where there is none.
fn chosen(name: Option<Name>, other: Name) -> Name
    ensures { result ≡ name_or name other }
{
    match name {
        Some(own) => own,
        None => other,
    }
}

/// The blocks of a function, where a first block without a label has this name, and the tokens behind them.
#[tactic(auto, unfolding(ir_syntax::specs::Functions::body))]
pub fn body<'a>(
    alloc: Global,
    tokens: &'a [Token],
    unlabelled: Name,
) -> Result<(List<Block>, &'a [Token]), Stop>
    ensures { Gives (λ x. done x.0 (kinds x.1.now)) result
        (applied unlabelled (read a_body (kinds tokens.now))) }
{
    let (name, rest) = maybe_label(alloc, tokens)?;
    let name = chosen(name, unlabelled);
    let (first, rest) = block(alloc, rest, name)?;
    let mut blocks = List::new(alloc);
    match blocks.add(first) {
        Ok(()) => {}
        Err(_) => return Err(Stop::NoMemory),
    }
    more_blocks(alloc, rest, blocks)
}
