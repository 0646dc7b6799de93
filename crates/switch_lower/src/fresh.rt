//! Names that no name of a function is: they begin with one zero byte more than any of these.

ghost use Rattle.std.specs.Prelude.{◌≡◌, ◌<◌, ◌^◌, IfOk, map, max};
ghost use Rattle.std.specs.List.{flat_map};
ghost use Rattle.ir_core.specs.declared.instruction.Inst.{Inst as OneInst};
ghost use Rattle.ir_core.specs.declared.module.Param.{Param as OneParam};
ghost use Rattle.ir_core.specs.Counts.{greatest};
ghost use Rattle.ir_core.specs.Definitions.{result_names, block_names};
ghost use Rattle.low_core.specs.Plain.{inst_of, block_of};
ghost use Rattle.switch_lower.specs.Fresh.{zeros_of as zeros_before, test_name as test_name_of, chunk_name as chunk_name_of};
ghost use Rattle.switch_lower.specs.Bodies.{padding_in};

use ir_core::module::{Function, Param};
use ir_core::ty::Name;
use low_core::moves::{Body, Chunk, Move};
use rd_num::bytes::put_u64_le;
use rd_num::list::List;
use rd_num::width::NoMemory;
use std::alloc::Global;

/// The zero bytes with which a name begins. Takes no memory.
fn zeros_of(name: &[u8]) -> usize
    ensures value { result ≡ zeros_before name.now }
    ensures within { result < 2 ^ 63 }
{
    let mut count = 0;
    for b in name {
        if *b != 0 {
            return count;
        }
        count += 1;
    }
    count
}

/// The greater one. Takes no memory.
fn greater(a: usize, b: usize) -> usize
    requires a { a < 2 ^ 63 }
    requires b { b < 2 ^ 63 }
    ensures value { result ≡ max a b }
    ensures within { result < 2 ^ 63 }
{
    if a < b { b } else { a }
}

/// The zero bytes with which the name of a result begins. Takes no memory.
fn zeros_of_result(name: &Option<Name>) -> usize
    ensures value { result ≡ greatest (map zeros_before (result_names name.now)) }
    ensures within { result < 2 ^ 63 }
{
    match name {
        Some(text) => zeros_of(text.as_slice()),
        None => 0,
    }
}

/// The most zero bytes with which a variable of moves begins. Takes no memory.
fn zeros_of_moves(moves: &[Move]) -> usize
    ensures value { result ≡ greatest (map zeros_before
        (flat_map (λ (i : OneInst). result_names i.result) (map inst_of moves.now))) }
    ensures within { result < 2 ^ 63 }
{
    let mut most = 0;
    for x in moves {
        most = greater(most, zeros_of_result(&x.to));
    }
    most
}

/// The most zero bytes with which a name of a chunk begins. Takes no memory.
fn zeros_of_chunk(c: &Chunk) -> usize
    ensures value { result ≡ greatest (map zeros_before (block_names (block_of c.now))) }
    ensures within { result < 2 ^ 63 }
{
    greater(
        zeros_of(c.label.as_slice()),
        zeros_of_moves(c.moves.as_slice()),
    )
}

/// The most zero bytes with which a name of chunks begins. Takes no memory.
#[tactic(auto, using(crate::proofs::FreshLaws::zeros_append))]
fn zeros_of_chunks(chunks: &[Chunk]) -> usize
    ensures value { result ≡ greatest (map zeros_before
        (flat_map block_names (map block_of chunks.now))) }
    ensures within { result < 2 ^ 63 }
{
    let mut most = 0;
    for c in chunks {
        most = greater(most, zeros_of_chunk(c));
    }
    most
}

/// The most zero bytes with which a name of parameters begins. Takes no memory.
fn zeros_of_params(params: &[Param]) -> usize
    ensures value { result ≡ greatest (map zeros_before
        (map (λ (p : OneParam). p.name) params.now)) }
    ensures within { result < 2 ^ 63 }
{
    let mut most = 0;
    for p in params {
        most = greater(most, zeros_of(p.name.as_slice()));
    }
    most
}

/// How many zero bytes the new names of a function begin with. Takes no memory.
#[tactic(auto, using(crate::proofs::FreshLaws::zeros_append))]
pub fn padding(f: &Function, b: &Body) -> usize
    ensures { result ≡ padding_in f.now b.now }
{
    let params = zeros_of_params(f.params.as_slice());
    let chunks = zeros_of_chunks(b.chunks.as_slice());
    1 + greater(params, chunks)
}

/// The variable in which tests leave their answer, behind so many zero bytes.
#[tactic(auto, using(crate::proofs::FreshLaws::one_more_zero))]
pub fn test_name(alloc: Global, padding: usize) -> Result<Name, NoMemory>
    ensures { IfOk result (λ n. n ≡ test_name_of padding) }
{
    let mut all = List::new(alloc);
    for _k in 0..padding {
        all.add(0)?;
    }
    Ok(all)
}

/// The label of the new chunk that stands at a number in its body.
pub fn chunk_name(alloc: Global, padding: usize, at: u64) -> Result<Name, NoMemory>
    ensures { IfOk result (λ n. n ≡ chunk_name_of padding at) }
{
    let mut all = test_name(alloc, padding)?;
    all.append(&put_u64_le(at))?;
    Ok(all)
}
