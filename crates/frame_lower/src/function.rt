//! The code of a whole function.

ghost use Rattle.std.specs.Prelude.{◌≡◌, ◌+◌, ◌<◌, ◌≤◌, ◌^◌, ℕ, [], map, take, All, IfOk, OnOk, length};
ghost use Rattle.std.specs.List.{sum_by};
ghost use Rattle.low_core.specs.declared.sel.SelBlock.{SelBlock};
ghost use Rattle.low_core.specs.SelWeights.{arguments_of, sel_block_weight, sel_function_weight};
ghost use Rattle.obj_core.specs.declared.object.FuncKind.TheVariants.{Saved as SavedKind};
ghost use Rattle.obj_rows.specs.Marked.{all_unlinked};
ghost use Rattle.frame_lower.specs.Blocks.{calls_of_blocks};
ghost use Rattle.frame_lower.specs.Functions.{front_row, function_row, saved_function, with_cuts};
ghost use Rattle.frame_lower.specs.Making.{IsFit, BlocksReach, making};
ghost use Rattle.frame_lower.specs.Rows as rows;
ghost use Rattle.frame_lower.specs.Writing.{empty_code, link_of, with_row};
ghost use Rattle.frame_lower.specs.declared.code.Linked.{Linked as Linked0};

use crate::code::{Code, Linked};
use crate::ends::stack_moved;
use crate::maker::Maker;
use low_core::sel::SelFun;
use obj_core::object::{Func, FuncKind, Link};
use rd_num::list::List;
use rd_num::width::NoMemory;
use std::alloc::Global;
use x86_core::instr::{Cond, ImmOp, Instr, Wide};
use x86_core::reg::Reg;

/// Links as an object has them.
fn object_links(alloc: Global, links: &[Linked]) -> Result<List<Link>, NoMemory>
    requires { All (λ (l : Linked0). l.at < 2 ^ 32) links.now }
    ensures { IfOk result (λ all. all ≡ map link_of links.now) }
{
    let mut all = List::new(alloc);
    for l in links {
        all.add(Link {
            at: l.at as u32,
            slot: l.slot,
        })?;
    }
    Ok(all)
}

/// Cuts as an object has them.
fn object_cuts(alloc: Global, cuts: &[usize]) -> Result<List<u32>, NoMemory>
    requires { All (λ at. at < 2 ^ 32) cuts.now }
    ensures { IfOk result (λ all. all ≡ cuts.now) }
{
    let mut all = List::new(alloc);
    for at in cuts {
        all.add(*at as u32)?;
    }
    Ok(all)
}

/// The first ones of some cuts.
fn first_cuts(cuts: &[usize], most: usize) -> &[usize]
    ensures { result.now ≡ take most cuts.now }
{
    if most < cuts.len() {
        &cuts[..most]
    } else {
        cuts
    }
}

/// Code as a function that saves registers, with so many of its cuts.
fn finished(alloc: Global, code: Code, most: usize) -> Result<Func, NoMemory>
    requires links { All (λ (l : Linked0). l.at < 2 ^ 32) code.links }
    requires cuts { All (λ at. at < 2 ^ 32) (take most code.cuts) }
    ensures { IfOk result (λ f. f ≡ record {
      kind = SavedKind;
      bytes = code.bytes;
      links = map link_of code.links;
      cuts = take most code.cuts;
    }) }
{
    let links = object_links(alloc, code.links.as_slice())?;
    let cuts = object_cuts(alloc, first_cuts(code.cuts.as_slice(), most))?;
    Ok(Func {
        kind: FuncKind::Saved,
        bytes: code.bytes,
        links,
        cuts,
    })
}

impl<'a> Maker<'a> {
    /// One call fewer may be made, and none past the last.
    fn put_count(code: &mut Code) -> Result<(), NoMemory>
        ensures { OnOk result (code.new ≡ with_row (all_unlinked rows.count_row) code.old) }
    {
        code.put(&Instr::AluImm(ImmOp::Sub, Wide::W64, Reg::R15, 1))?;
        code.put(&Instr::Jcc(Cond::Ae, 1))?;
        code.put(&Instr::Int3)
    }

    /// What stands in front of the first block.
    #[tactic(auto, using(crate::proofs::Writing::front_joined))]
    fn put_front(&self, code: &mut Code, function: &SelFun) -> Result<(), NoMemory>
        requires fit { IsFit self.now }
        requires few { length function.now.params ≤ 2 ^ 10 }
        ensures { OnOk result (code.new ≡
            with_row (front_row (making self.now) function.now) code.old) }
    {
        Maker::put_count(code)?;
        self.put_pushes(code)?;
        code.put(&stack_moved(ImmOp::Sub, self.room))?;
        self.put_params(code, function.params.as_slice())?;
        Ok(())
    }

    /// The code of a function, whose calls go by the slots from one on.
    fn whole_code(&self, alloc: Global, first: u32, function: &SelFun) -> Result<Code, NoMemory>
        requires fit { IsFit self.now }
        requires params { length function.now.params ≤ 32 }
        requires reaches { BlocksReach self.now function.now.blocks }
        requires few { All (λ (b : SelBlock). All (λ op. arguments_of op ≤ 2 ^ 10) b.ops)
            function.now.blocks }
        requires slots { first + calls_of_blocks function.now.blocks < 2 ^ 32 }
        requires light { sel_function_weight function.now < 2 ^ 30 }
        ensures { IfOk result (λ c. c ≡
            with_row (function_row (making self.now) first function.now) empty_code) }
    {
        let mut code = Code::new(alloc);
        self.put_front(&mut code, function)?;
        let blocks = function.blocks.as_slice();
        let starts = self.starts(alloc, code.bytes.len(), blocks)?;
        self.put_blocks(alloc, &mut code, starts.as_slice(), first, blocks)?;
        Ok(code)
    }

    /// A function with so many of its cuts, whose calls go by the slots from one on.
    pub fn function(
        &self,
        alloc: Global,
        first: u32,
        most: usize,
        function: &SelFun,
    ) -> Result<Func, NoMemory>
        requires fit { IsFit self.now }
        requires params { length function.now.params ≤ 32 }
        requires reaches { BlocksReach self.now function.now.blocks }
        requires few { All (λ (b : SelBlock). All (λ op. arguments_of op ≤ 2 ^ 10) b.ops)
            function.now.blocks }
        requires slots { first + calls_of_blocks function.now.blocks < 2 ^ 32 }
        requires light { sel_function_weight function.now < 2 ^ 30 }
        ensures { IfOk result (λ f. f ≡
            with_cuts most (saved_function (function_row (making self.now) first function.now))) }
    {
        let code = self.whole_code(alloc, first, function)?;
        let f = finished(alloc, code, most)?;
        Ok(f)
    }
}
