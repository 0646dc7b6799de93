//! The compare tree of a switch.

ghost use Rattle.std.specs.Prelude.{◌≡◌, ◌+◌, ◌*◌, ◌^◌, [], ◌∷◌, ◌++◌, ◌≤◌, IfOk, OnOk, length};
ghost use Rattle.ir_core.specs.declared.instruction.Pred.TheVariants.{Eq, Ult};
ghost use Rattle.switch_lower.specs.Fresh.{chunk_name as chunk_name_of};
ghost use Rattle.switch_lower.specs.Tree.{compare_chunk, read_chunk, onward, tests, row, ways_within, size_within, tree, tree_of};

use crate::fresh::{chunk_name, test_name};
use ir_core::instruction::{Op, Pred, Term};
use ir_core::operand::Operand;
use ir_core::ty::{Name, Ty};
use low_core::copies::{copy_name, copy_operand, copy_ty};
use low_core::moves::{Chunk, Move, MoveOp};
use rd_num::list::List;
use rd_num::width::NoMemory;
use std::alloc::Global;
use std::marker::Model;

/// What all tests of a switch share: its value, where it leads by default, and how many zero bytes
/// new names begin with.
#[derive(Drop)]
pub struct Switch<'a> {
    pub ty: &'a Ty,
    pub value: &'a Operand,
    pub default: &'a Name,
    pub padding: usize,
}

impl<'a> Model for Switch<'a> {
    ghost use Rattle.std.specs.Coded.{codes};
    ghost use Rattle.ir_core.specs.contracts.ty.Ty as types;
    ghost use Rattle.switch_lower.specs.Tree.{Choice};

    ghost Value = { Choice };

    ghost coded = { Prim.hlevel (codes, types.the_row.coded) };

    ghost view = { λ s. record {
      ty = s.ty.now;
      value = s.value.now;
      default = s.default.now;
      padding = s.padding;
    } };
}

/// How many chunks a full tree of a depth has, with the comparison in front of it. Takes no memory.
fn size(depth: u32) -> u64
    requires { depth ≤ 60 }
    ensures value { result ≡ size_within depth }
    ensures within { result ≤ 5 * 2 ^ 60 }
{
    5 << depth
}

/// How many ways a tree of a depth can have. Takes no memory.
fn half(depth: u32) -> usize
    requires { depth ≤ 60 }
    ensures { result ≡ ways_within depth }
{
    4 << depth
}

/// A depth that serves all ways that a memory can hold. Takes no memory.
fn deepest(ways: &[(u64, Name)]) -> u32
    ensures serves { length ways.now ≤ ways_within result }
    ensures within { result ≤ 61 }
{
    61
}

impl<'a> Switch<'a> {
    /// The chunk that compares the value with a number, and goes to one label or to another.
    fn compare(
        &self,
        alloc: Global,
        at: u64,
        pred: Pred,
        number: u64,
        taken: Name,
        other: Name,
    ) -> Result<Chunk, NoMemory>
        ensures { IfOk result (λ c. c ≡ compare_chunk self.now at pred number taken other) }
    {
        let label = chunk_name(alloc, self.padding, at)?;
        let ty = copy_ty(alloc, self.ty)?;
        let value = copy_operand(alloc, self.value)?;
        let to = test_name(alloc, self.padding)?;
        let test = test_name(alloc, self.padding)?;
        let mut moves = List::new(alloc);
        moves.add(Move {
            to: Some(to),
            op: MoveOp::Keep(Op::Compare(pred, ty, value, Operand::Int(number as i128))),
        })?;
        Ok(Chunk {
            label,
            moves,
            end: Term::BrIf(Operand::Local(test), taken, other),
        })
    }

    /// The chunk that reads the value.
    fn read(&self, alloc: Global, at: u64) -> Result<Chunk, NoMemory>
        ensures { IfOk result (λ c. c ≡ read_chunk self.now at) }
    {
        let label = chunk_name(alloc, self.padding, at)?;
        let ty = copy_ty(alloc, self.ty)?;
        let value = copy_operand(alloc, self.value)?;
        let mut moves = List::new(alloc);
        moves.add(Move {
            to: None,
            op: MoveOp::Copy(ty, value),
        })?;
        let to = copy_name(alloc, self.default)?;
        Ok(Chunk {
            label,
            moves,
            end: Term::Br(to),
        })
    }

    /// Where to go on from a test: to the tests of further ways, or by default.
    fn onward(&self, alloc: Global, at: u64, ways: &[(u64, Name)]) -> Result<Name, NoMemory>
        ensures { IfOk result (λ n. n ≡ onward self.now at ways.now) }
    {
        if ways.is_empty() {
            copy_name(alloc, self.default)
        } else {
            chunk_name(alloc, self.padding, at)
        }
    }

    /// Adds the test of a way in front of others.
    fn add_test(
        &self,
        alloc: Global,
        all: &mut List<Chunk>,
        way: &(u64, Name),
        later: &[(u64, Name)],
    ) -> Result<(), NoMemory>
        ensures { OnOk result (all.new ≡ all.old ++ compare_chunk self.now (length all.old) Eq
            way.now.0 way.now.1 (onward self.now (length all.old + 1) later.now) ∷ []) }
    {
        let at = all.as_slice().len() as u64;
        let to = copy_name(alloc, &way.1)?;
        let other = self.onward(alloc, at + 1, later)?;
        let test = self.compare(alloc, at, Pred::Eq, way.0, to, other)?;
        all.add(test)
    }

    /// Adds a test for each way.
    fn add_tests(
        &self,
        alloc: Global,
        all: &mut List<Chunk>,
        ways: &[(u64, Name)],
    ) -> Result<(), NoMemory>
        ensures { OnOk result (all.new ≡ all.old ++ tests self.now (length all.old) ways.now) }
    {
        for k in 0..ways.len() {
            self.add_test(alloc, all, &ways[k], &ways[k + 1..])?;
        }
        Ok(())
    }

    /// Adds a row of tests, or a chunk that reads the value where there are none.
    fn add_row(
        &self,
        alloc: Global,
        all: &mut List<Chunk>,
        ways: &[(u64, Name)],
    ) -> Result<(), NoMemory>
        ensures { OnOk result (all.new ≡ all.old ++ row self.now (length all.old) ways.now) }
    {
        if ways.is_empty() {
            let only = self.read(alloc, all.as_slice().len() as u64)?;
            all.add(only)
        } else {
            self.add_tests(alloc, all, ways)
        }
    }

    /// Adds the comparison that leads to the left half of a tree or to its right half.
    fn add_halving(
        &self,
        alloc: Global,
        all: &mut List<Chunk>,
        number: u64,
        depth: u32,
    ) -> Result<(), NoMemory>
        requires { depth ≤ 60 }
        ensures { OnOk result (all.new ≡ all.old ++ compare_chunk self.now (length all.old) Ult
            number (chunk_name_of self.now.padding (length all.old + 1))
            (chunk_name_of self.now.padding (length all.old + size_within depth)) ∷ []) }
    {
        let at = all.as_slice().len() as u64;
        let left = chunk_name(alloc, self.padding, at + 1)?;
        let right = chunk_name(alloc, self.padding, at + size(depth))?;
        let halving = self.compare(alloc, at, Pred::Ult, number, left, right)?;
        all.add(halving)
    }

    /// Adds a tree of at most a depth.
    fn add_tree(
        &self,
        alloc: Global,
        all: &mut List<Chunk>,
        ways: &[(u64, Name)],
        depth: u32,
    ) -> Result<(), NoMemory>
        requires { depth ≤ 61 }
        ensures { OnOk result (all.new ≡ all.old ++
            tree self.now depth (length all.old) ways.now) }
    {
        if depth == 0 {
            return self.add_row(alloc, all, ways);
        }
        let half = half(depth - 1);
        if ways.len() <= half {
            return self.add_tree(alloc, all, ways, depth - 1);
        }
        self.add_halving(alloc, all, ways[half].0, depth - 1)?;
        self.add_tree(alloc, all, &ways[..half], depth - 1)?;
        self.add_tree(alloc, all, &ways[half..], depth - 1)?;
        Ok(())
    }

    /// Adds the compare tree of a switch with these ways.
    pub fn add(
        &self,
        alloc: Global,
        all: &mut List<Chunk>,
        ways: &[(u64, Name)],
    ) -> Result<(), NoMemory>
        ensures { OnOk result (all.new ≡ all.old ++ tree_of self.now (length all.old) ways.now) }
    {
        self.add_tree(alloc, all, ways, deepest(ways))?;
        Ok(())
    }
}
