//! Blocks in the code of a function.

ghost use Rattle.std.specs.Prelude.{◌≡◌, ◌+◌, ◌<◌, ◌≤◌, ◌^◌, ℕ, [], All, IfOk, OnOk, length};
ghost use Rattle.std.specs.List.{sum_by};
ghost use Rattle.low_core.specs.declared.sel.SelBlock.{SelBlock};
ghost use Rattle.low_core.specs.SelWeights.{arguments_of, sel_block_weight};
ghost use Rattle.frame_lower.specs.Blocks.{block_row, blocks_row, calls_in, calls_of_blocks};
ghost use Rattle.frame_lower.specs.Blocks.{block_bytes as bytes_of, start_in, starts_from};
ghost use Rattle.frame_lower.specs.Making.{IsFit, OpsReach, BlocksReach, making};
ghost use Rattle.frame_lower.specs.Writing.{with_row};

use crate::code::Code;
use crate::maker::Maker;
use low_core::sel::SelBlock;
use rd_num::list::List;
use rd_num::width::NoMemory;
use std::alloc::Global;

impl<'a> Maker<'a> {
    /// A block at the end of the code, whose calls go by the slots from one on; the next slot.
    #[tactic(auto, using(crate::proofs::Writing::block_joined))]
    fn put_block(
        &self,
        alloc: Global,
        code: &mut Code,
        starts: &[usize],
        first: u32,
        block: &SelBlock,
    ) -> Result<u32, NoMemory>
        requires fit { IsFit self.now }
        requires reaches { OpsReach self.now block.now.ops }
        requires few { All (λ op. arguments_of op ≤ 2 ^ 10) block.now.ops }
        requires slots { first + calls_in block.now.ops < 2 ^ 32 }
        requires near { length code.old.bytes + sel_block_weight block.now < 2 ^ 30 }
        requires starts { (n : ℕ) → start_in starts.now n < 2 ^ 30 }
        ensures next { IfOk result (λ n. n ≡ first + calls_in block.now.ops) }
        ensures code { OnOk result (code.new ≡ with_row (block_row (making self.now)
            (start_in starts.now) (length code.old.bytes) first block.now) code.old) }
    {
        let next = self.put_ops(alloc, code, first, block.ops.as_slice())?;
        self.put_end(code, starts, &block.end)?;
        Ok(next)
    }

    /// How many bytes a block has, wherever it stands.
    fn block_bytes(&self, alloc: Global, block: &SelBlock) -> Result<usize, NoMemory>
        requires fit { IsFit self.now }
        requires reaches { OpsReach self.now block.now.ops }
        requires few { All (λ op. arguments_of op ≤ 2 ^ 10) block.now.ops }
        requires near { sel_block_weight block.now < 2 ^ 30 }
        ensures { IfOk result (λ n. n ≡ bytes_of (making self.now) block.now) }
    {
        let mut code = Code::new(alloc);
        self.put_block(alloc, &mut code, &[], 0, block)?;
        Ok(code.bytes.len())
    }

    /// Where blocks start, the first of them at an offset.
    pub fn starts(
        &self,
        alloc: Global,
        first: usize,
        blocks: &[SelBlock],
    ) -> Result<List<usize>, NoMemory>
        requires fit { IsFit self.now }
        requires reaches { BlocksReach self.now blocks.now }
        requires few { All (λ (b : SelBlock). All (λ op. arguments_of op ≤ 2 ^ 10) b.ops) blocks.now }
        requires near { first + sum_by sel_block_weight blocks.now < 2 ^ 30 }
        ensures { IfOk result (λ l. l ≡ starts_from (making self.now) first blocks.now) }
    {
        let mut all = List::new(alloc);
        let mut at = first;
        for block in blocks {
            all.add(at)?;
            at += self.block_bytes(alloc, block)?;
        }
        Ok(all)
    }

    /// Blocks at the end of the code, whose calls go by the slots from one on.
    pub fn put_blocks(
        &self,
        alloc: Global,
        code: &mut Code,
        starts: &[usize],
        first: u32,
        blocks: &[SelBlock],
    ) -> Result<(), NoMemory>
        requires fit { IsFit self.now }
        requires reaches { BlocksReach self.now blocks.now }
        requires few { All (λ (b : SelBlock). All (λ op. arguments_of op ≤ 2 ^ 10) b.ops) blocks.now }
        requires slots { first + calls_of_blocks blocks.now < 2 ^ 32 }
        requires near { length code.old.bytes + sum_by sel_block_weight blocks.now < 2 ^ 30 }
        requires starts { (n : ℕ) → start_in starts.now n < 2 ^ 30 }
        ensures { OnOk result (code.new ≡ with_row (blocks_row (making self.now)
            (start_in starts.now) (length code.old.bytes) first blocks.now) code.old) }
    {
        let mut slot = first;
        for block in blocks {
            slot = self.put_block(alloc, code, starts, slot, block)?;
        }
        Ok(())
    }
}
