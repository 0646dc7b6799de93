//! One object of a run, and the ranges of its cells.
//!
//! Contracts see an `Object` as the object of `ir_core`. While it is live it has as many cells as
//! its size says. The tests of a range come in the order of the reasons: a dead object, a range
//! that isn't inside and, where it is changed, a constant object. Changes are made in place.

ghost use Rattle.std.specs.Prelude.{◌≡◌, ◌+◌, ◌++◌, ◌≤◌, ◌<◌, ◌&&◌, nat_lt, length, take, drop, replicate, false, Some, Ok, Err, IfOk, OnErr, MatchResult};
ghost use Rattle.ir_core.specs.declared.memory.Cell.TheVariants.{Unset as UnsetCell, Byte as ByteCell};
ghost use Rattle.ir_core.specs.Memory.{dead};
ghost use Rattle.ir_core.specs.Pointers.{holds_place};
ghost use Rattle.ir_core.specs.Answers.{stop_of, answered, answered_as};
ghost use Rattle.ir_memory.specs.Ranges.{whole, inside, writable as can_write, loaded, put as put_in, put_run, copied_part, without_target, copied_over, copied_inside};

use crate::cells::{kind_bytes, read};
use ir_core::kind::Kind;
use ir_core::memory::{Cell, Reason, Value};
use ir_core::stop::Stop;
use rd_num::width::NoMemory;
use std::alloc::Global;
use std::marker::Model;

/// An object, whose cells can change.
#[derive(Drop)]
pub struct Object {
    live: bool,
    constant: bool,
    size: u64,
    cells: Vec<Cell>,
}

impl Model for Object {
    ghost use Rattle.std.specs.Prelude.{◌≡◌, true, length};
    ghost use Rattle.ir_core.specs.declared.memory.Object0.{Object0 as Shown};

    ghost Value = { Shown };

    ghost view = { λ x. record {
      live = x.live;
      constant = x.constant;
      size = x.size;
      cells = x.cells.items;
    } };

    ghost invariant = { λ x. x.live ≡ true → length x.cells.items ≡ x.size };
}

impl Object {
    /// A live object of cells that are all given.
    pub fn new(constant: bool, cells: Vec<Cell>) -> Object
        ensures { result ≡ whole constant cells.items }
    {
        Object {
            live: true,
            constant,
            size: cells.len() as u64,
            cells,
        }
    }

    /// A live object of unset bytes.
    pub fn unset(alloc: Global, size: u64) -> Result<Object, NoMemory>
        ensures { IfOk result (λ x. x ≡ whole false (replicate size UnsetCell)) }
    {
        match Vec::from_elem(alloc, Cell::Unset, size as usize) {
            Ok(cells) => Ok(Object::new(false, cells)),
            Err(_) => Err(NoMemory),
        }
    }

    /// The tests of a range of so many cells from a place on.
    fn test(&self, from: u64, count: u64) -> Result<(), Stop>
        ensures { answered_as self.now result ≡ inside from count self.now }
    {
        if !self.live {
            return Err(Stop::Left(Reason::Dead));
        }
        if from > self.size || count > self.size - from {
            return Err(Stop::Left(Reason::Bounds));
        }
        Ok(())
    }

    /// The value of a kind at a place.
    pub fn load(&self, kind: Kind, from: u64) -> Result<Value, Stop>
        ensures { answered result ≡ loaded kind from self.now }
    {
        let count = kind_bytes(kind);
        self.test(from, count as u64)?;
        let start = from as usize;
        read(kind, &self.cells[start..start + count])
    }

    /// The tests of a range that is changed.
    fn test_writable(&self, from: u64, count: u64) -> Result<(), Stop>
        ensures { answered_as self.now result ≡ can_write from count self.now }
    {
        self.test(from, count)?;
        if self.constant {
            return Err(Stop::Left(Reason::Constant));
        }
        Ok(())
    }

    /// Puts cells in the place of others.
    pub fn put(&mut self, from: u64, cells: &[Cell]) -> Result<(), Stop>
        ensures changed { answered_as self.new result ≡ put_in from cells.now self.old }
        ensures unchanged { OnErr result (self.new ≡ self.old) }
    {
        self.test_writable(from, cells.len() as u64)?;
        let start = from as usize;
        self.cells[start..start + cells.len()].copy_from_slice(cells);
        Ok(())
    }

    /// Puts one byte in the place of so many cells.
    pub fn fill(&mut self, from: u64, count: u64, byte: u8) -> Result<(), Stop>
        ensures changed { answered_as self.new result ≡
            put_run from count (ByteCell byte) self.old }
        ensures unchanged { OnErr result (self.new ≡ self.old) }
    {
        self.test_writable(from, count)?;
        fill_cells(
            self.cells.as_mut_slice(),
            from as usize,
            count as usize,
            byte,
        );
        Ok(())
    }

    /// The cells of a range.
    fn part(&self, from: u64, count: u64) -> Result<&[Cell], Stop>
        ensures cells { MatchResult result
            (λ cells. copied_part from count self.now ≡ Ok cells.now)
            (λ stop. copied_part from count self.now ≡ Err (stop_of stop)) }
        ensures count { IfOk result (λ cells. length cells.now ≡ count) }
    {
        self.test(from, count)?;
        let start = from as usize;
        Ok(&self.cells[start..start + count as usize])
    }

    /// How a copy of a range stops that has no target.
    pub fn no_target(&self, from: u64, count: u64) -> Stop
        ensures { without_target from count self.now ≡ Err (stop_of result) }
    {
        match self.test(from, count) {
            Ok(()) => Stop::Left(Reason::Bounds),
            Err(stop) => stop,
        }
    }

    /// Copies cells of another object to a place of this one.
    pub fn copy_from(&mut self, source: &Object, from: u64, to: u64, count: u64) -> Result<(), Stop>
        ensures changed { answered_as self.new result ≡
            copied_over from to count source.now self.old }
        ensures unchanged { OnErr result (self.new ≡ self.old) }
    {
        let cells = source.part(from, count)?;
        self.put(to, cells)
    }

    /// Copies some cells to another place of the object, or to the same.
    pub fn copy_inside(&mut self, from: u64, to: u64, count: u64) -> Result<(), Stop>
        requires { 0 < count }
        ensures changed { answered_as self.new result ≡ copied_inside from to count self.old }
        ensures unchanged { OnErr result (self.new ≡ self.old) }
    {
        self.test(from, count)?;
        self.test_writable(to, count)?;
        if from != to && overlap(from, to, count) {
            return Err(Stop::Left(Reason::Overlap));
        }
        let start = from as usize;
        self.cells
            .copy_within(start..start + count as usize, to as usize);
        Ok(())
    }

    /// The object is dead once its call has returned.
    pub fn kill(&mut self, alloc: Global)
        ensures { self.new ≡ dead self.old }
    {
        self.live = false;
        self.cells = Vec::new(alloc);
    }

    /// Whether an offset is inside of the object, which is live. Takes no memory.
    pub fn holds(&self, offset: u64) -> bool
        ensures { result ≡ holds_place (Some self.now) offset }
    {
        self.live && offset < self.size
    }

    /// How many bytes the object has, or had. Takes no memory.
    pub fn size(&self) -> u64
        ensures { result ≡ self.now.size }
    {
        self.size
    }
}

/// Puts one byte in the place of so many cells.
#[tactic(auto, using(crate::proofs::Fills::more_filled))]
fn fill_cells(cells: &mut [Cell], from: usize, count: usize, byte: u8)
    requires { from + count ≤ length cells.old }
    ensures { cells.new ≡ take from cells.old ++ replicate count (ByteCell byte) ++
        drop (from + count) cells.old }
{
    for i in 0..count {
        cells[from + i] = Cell::Byte(byte);
    }
}

/// Whether two ranges of some cells share one.
fn overlap(a: u64, b: u64, count: u64) -> bool
    requires { 0 < count }
    ensures { result ≡ (nat_lt a (b + count) && nat_lt b (a + count)) }
{
    a.saturating_sub(b) < count && b.saturating_sub(a) < count
}
