//! Frames of functions: where homes are, and how many words there are.

ghost use Rattle.std.specs.Prelude.{◌≡◌, ◌+◌, ◌-◌, ◌≤◌, ◌^◌, All, map, max, IfOk};
ghost use Rattle.ir_core.specs.Counts.{greatest};
ghost use Rattle.low_core.specs.declared.sel.Home.{Home as OneHome};
ghost use Rattle.std.specs.List.{flat_map};
ghost use Rattle.low_core.specs.declared.sel.SelBlock.{SelBlock as OneBlock};
ghost use Rattle.low_core.specs.declared.sel.SelOp.{SelOp as OneOp};
ghost use Rattle.low_core.specs.SelParts.{ops_of};
ghost use Rattle.low_core.specs.SelWeights.{arguments_of, words_passed};
ghost use Rattle.frame_lower.specs.Frames as frames;

use frame_rows::spot::Spot;
use low_core::sel::{Home, SelBlock, SelFun, SelOp};
use rd_num::list::List;
use rd_num::width::NoMemory;
use std::alloc::Global;
use x86_core::reg::Reg;

/// The register of a colour.
fn named(names: &[Reg], color: u32) -> Reg
    ensures { result ≡ frames.named names.now color }
{
    match names.get(color as usize) {
        Some(r) => *r,
        None => Reg::Rbx,
    }
}

/// A home, behind so many words of the frame.
fn spot(names: &[Reg], passed: u32, home: Home) -> Spot
    requires few { passed ≤ 2 ^ 20 }
    requires near { frames.words_to home ≤ 2 ^ 20 }
    ensures { result ≡ frames.spot names.now passed home }
{
    match home {
        Home::Color(c) => Spot::Own(named(names, c)),
        Home::Frame(k) => Spot::Frame(passed + k),
    }
}

/// Homes, behind so many words of the frame.
pub fn spots(
    alloc: Global,
    names: &[Reg],
    passed: u32,
    homes: &[Home],
) -> Result<List<Spot>, NoMemory>
    requires few { passed ≤ 2 ^ 20 }
    requires near { All (λ (h : OneHome). frames.words_to h ≤ 2 ^ 20) homes.now }
    ensures { IfOk result (λ l. l ≡ map (frames.spot names.now passed) homes.now) }
{
    let mut all = List::new(alloc);
    for home in homes {
        all.add(spot(names, passed, *home))?;
    }
    Ok(all)
}

/// The greater one.
fn greater(a: u32, b: u32) -> u32
    ensures { result ≡ max a b }
{
    if a < b { b } else { a }
}

/// How many words of the frame a home takes up to itself.
fn words_to(home: Home) -> u32
    requires { frames.words_to home ≤ 2 ^ 20 }
    ensures { result ≡ frames.words_to home }
{
    match home {
        Home::Color(_) => 0,
        Home::Frame(k) => k + 1,
    }
}

/// The words of homes.
pub fn home_words(homes: &[Home]) -> u32
    requires { All (λ (h : OneHome). frames.words_to h ≤ 2 ^ 20) homes.now }
    ensures { result ≡ frames.home_words homes.now }
{
    let mut most = 0;
    for home in homes {
        most = greater(most, words_to(*home));
    }
    greater(1, most)
}

/// The arguments of an operation that are passed on the stack.
fn op_passed(op: &SelOp) -> u32
    requires { arguments_of op.now ≤ 2 ^ 10 }
    ensures { result ≡ arguments_of op.now - 6 }
{
    match op {
        SelOp::Call(_, _, args) => args.len().saturating_sub(6) as u32,
        SelOp::CallAt(_, _, args) => args.len().saturating_sub(6) as u32,
        SelOp::Outside(_, _, args) => args.len().saturating_sub(6) as u32,
        SelOp::Set(_, _) | SelOp::Copy(_, _) | SelOp::Alu(_, _, _, _, _) => 0,
        SelOp::Div(_, _, _, _, _, _) | SelOp::Widen(_, _, _, _, _) => 0,
        SelOp::Test(_, _, _, _, _) | SelOp::Pick(_, _, _, _) => 0,
        SelOp::Load(_, _, _) | SelOp::Store(_, _, _) | SelOp::FrameAt(_, _) => 0,
        SelOp::GlobalAt(_, _) | SelOp::FunctionAt(_, _) => 0,
    }
}

/// The most of them among operations.
fn most_passed(ops: &[SelOp]) -> u32
    requires { All (λ (op : OneOp). arguments_of op ≤ 2 ^ 10) ops.now }
    ensures { result ≡ greatest (map (λ (op : OneOp). arguments_of op - 6) ops.now) }
{
    let mut most = 0;
    for op in ops {
        most = greater(most, op_passed(op));
    }
    most
}

/// The most of them in blocks.
#[tactic(auto, using(crate::proofs::Greatest::most_of_both))]
fn most_passed_in(blocks: &[SelBlock]) -> u32
    requires { All (λ (b : OneBlock). All (λ (op : OneOp). arguments_of op ≤ 2 ^ 10) b.ops)
        blocks.now }
    ensures { result ≡ greatest (map (λ (op : OneOp). arguments_of op - 6)
        (flat_map (λ (b : OneBlock). b.ops) blocks.now)) }
{
    let mut most = 0;
    for block in blocks {
        most = greater(most, most_passed(block.ops.as_slice()));
    }
    most
}

/// The words of arguments past the sixth that calls of a function pass.
pub fn passed_words(f: &SelFun) -> u32
    requires { All (λ (b : OneBlock). All (λ (op : OneOp). arguments_of op ≤ 2 ^ 10) b.ops)
        f.now.blocks }
    ensures { result ≡ words_passed f.now }
{
    most_passed_in(f.blocks.as_slice())
}
