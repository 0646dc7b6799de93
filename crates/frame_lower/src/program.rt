//! The functions of a whole program.

ghost use Rattle.std.specs.Prelude.{◌≡◌, ◌+◌, ◌<◌, ◌≤◌, ◌^◌, length, map, IfOk};
ghost use Rattle.obj_core.specs.Saved.{five_of};
ghost use Rattle.obj_core.specs.Slots.{push_purpose};
ghost use Rattle.frame_lower.specs.Blocks.{calls_of_blocks};
ghost use Rattle.frame_lower.specs.Frames.{frame_words, room_bytes};
ghost use Rattle.frame_lower.specs.Functions.{function_row, making_with, saved_function, slot_number, with_cuts};
ghost use Rattle.frame_lower.specs.Given.{HasPlaces, IsSmall};

use crate::frame::{home_words, passed_words, spots};
use crate::maker::Maker;
use low_core::sel::{Home, SelFun};
use obj_core::address::SlotAddr;
use obj_core::object::Func;
use rd_draw::perm;
use rd_num::list::List;
use rd_num::width::NoMemory;
use std::alloc::Global;
use x86_core::reg::Reg;

/// What the orders of pushes are drawn for.
const PUSH_PURPOSE: u32 = 4;

/// The order in which a function pushes the five registers, as it is drawn.
#[tactic(auto, unfolding(obj_core::specs::Saved::five_of), using(rd_draw::proofs::Permuted::shuffled_long))]
fn push_order(alloc: Global, reg_seed: u64, number: u32) -> Result<List<u32>, NoMemory>
    ensures drawn { IfOk result (λ all. all ≡ five_of reg_seed push_purpose number) }
    ensures five { IfOk result (λ all. length all ≡ 5) }
{
    perm(alloc, reg_seed, PUSH_PURPOSE, number, 5)
}

/// The addresses of functions as numbers.
pub fn addresses(alloc: Global, pointers: &[SlotAddr]) -> Result<List<u64>, NoMemory>
    ensures { IfOk result (λ l. l ≡ map slot_number pointers.now) }
{
    let mut all = List::new(alloc);
    for p in pointers {
        all.add(p.number())?;
    }
    Ok(all)
}

/// What functions share: the addresses of globals and functions, and the register seed.
#[derive(Clone, Copy)]
pub struct Shared<'a> {
    pub globals: &'a [u64],
    pub functions: &'a [u64],
    pub reg_seed: u64,
}

impl<'a> Shared<'a> {
    /// A function of a number with so many of its cuts, with its homes and the names of its colours;
    /// its calls go by the slots from one on.
    pub fn function(
        &self,
        alloc: Global,
        number: u32,
        first: u32,
        most: usize,
        names: &[Reg],
        homes: &[Home],
        function: &SelFun,
    ) -> Result<Func, NoMemory>
        requires small { IsSmall function.now }
        requires places { HasPlaces function.now homes.now }
        requires slots { first + calls_of_blocks function.now.blocks < 2 ^ 32 }
        ensures { IfOk result (λ f. f ≡ with_cuts most (saved_function (function_row (making_with
            self.now.globals.now self.now.functions.now self.now.reg_seed number names.now
            homes.now function.now) first function.now))) }
    {
        let passed = passed_words(function);
        let words = passed + home_words(homes);
        let spots = spots(alloc, names, passed, homes)?;
        let order = push_order(alloc, self.reg_seed, number)?;
        let maker = Maker {
            homes: spots.as_slice(),
            globals: self.globals,
            functions: self.functions,
            words,
            room: 8 * words + function.frame,
            order: order.as_slice(),
        };
        let made = maker.function(alloc, first, most, function)?;
        Ok(made)
    }
}
