//! All objects of a run by their numbers, and what loads, stores, copies and fills do to them.
//!
//! Contracts see a `Memory` as the list of its objects. Each change is made in place, in time linear
//! in the bytes that it touches, and takes no memory; only an alloca does. The tests come in the
//! order of the reasons in `specs/Memory` of `ir_core`.

ghost use Rattle.std.specs.Prelude.{◌≡◌, ◌<◌, [], ◌∷◌, ◌++◌, length, IfOk, OnErr, slice_get, Err};
ghost use Rattle.ir_core.specs.declared.memory.Value.TheVariants.{At as PlaceAt};
ghost use Rattle.ir_core.specs.declared.memory.Cell.TheVariants.{Byte as ByteCell};
ghost use Rattle.ir_core.specs.Memory.{load_at, store_at, filled, copied, with_alloca, without, dead_at};
ghost use Rattle.ir_core.specs.Pointers.{pointers_compared as said_of};
ghost use Rattle.ir_core.specs.Answers.{stop_of, answered, answered_as};
ghost use Rattle.ir_memory.specs.Ranges.{put_at, run_at, copied_some, without_place};

use crate::cells::stored_as;
use crate::object::Object;
use crate::pointer::pointers_compared;
use ir_core::instruction::Pred;
use ir_core::kind::Kind;
use ir_core::memory::{Cell, Reason, Value};
use ir_core::stop::Stop;
use rd_num::width::NoMemory;
use std::alloc::Global;
use std::marker::Model;

/// The objects of a run.
#[derive(Drop)]
pub struct Memory {
    objects: Vec<Object>,
}

impl Model for Memory {
    ghost use Rattle.std.specs.Prelude.{List};
    ghost use Rattle.ir_core.specs.declared.memory.Object0.{Object0};

    ghost Value = { List Object0 };

    ghost view = { λ m. m.objects.items };
}

impl Memory {
    /// No object. Takes no memory.
    pub fn new(alloc: Global) -> Memory
        ensures { result ≡ [] }
    {
        Memory {
            objects: Vec::new(alloc),
        }
    }

    /// One more object, whose number is the number of objects before it.
    pub fn add(&mut self, object: Object) -> Result<(), NoMemory>
        ensures added { IfOk result (λ _. self.new ≡ self.old ++ object ∷ []) }
        ensures unchanged { OnErr result (self.new ≡ self.old) }
    {
        match self.objects.push(object) {
            Ok(()) => Ok(()),
            Err(_) => Err(NoMemory),
        }
    }

    /// How many objects there are, live and dead. Takes no memory.
    pub fn count(&self) -> usize
        ensures { result ≡ length self.now }
    {
        self.objects.len()
    }

    /// A new object of unset bytes.
    pub fn alloca(&mut self, alloc: Global, size: u64) -> Result<(), NoMemory>
        ensures added { IfOk result (λ _. self.new ≡ with_alloca self.old size) }
        ensures unchanged { OnErr result (self.new ≡ self.old) }
    {
        let object = Object::unset(alloc, size)?;
        self.add(object)
    }

    /// The value of a kind at a pointer. Takes no memory.
    pub fn load(&self, kind: Kind, p: Value) -> Result<Value, Stop>
        ensures { answered result ≡ load_at self.now kind p }
    {
        match p {
            Value::At(o, d) => load_in(self.objects.as_slice(), kind, o, d),
            Value::Num(_, _) | Value::Null | Value::Fun(_) => Err(Stop::Left(Reason::Bounds)),
        }
    }

    /// Stores a value at a pointer. Takes no memory.
    pub fn store(&mut self, v: Value, p: Value) -> Result<(), Stop>
        ensures changed { answered_as self.new result ≡ store_at self.old v p }
        ensures unchanged { OnErr result (self.new ≡ self.old) }
    {
        match p {
            Value::At(o, d) => {
                let stored = stored_as(v);
                let cells = &stored.cells[..stored.count];
                put_in(self.objects.as_mut_slice(), o, d, cells)
            }
            Value::Num(_, _) | Value::Null | Value::Fun(_) => Err(Stop::Left(Reason::Bounds)),
        }
    }

    /// Fills so many bytes from a pointer on; to fill none does nothing. Takes no memory.
    pub fn fill(&mut self, p: Value, byte: u8, count: u64) -> Result<(), Stop>
        ensures changed { answered_as self.new result ≡ filled self.old p byte count }
        ensures unchanged { OnErr result (self.new ≡ self.old) }
    {
        if count == 0 {
            return Ok(());
        }
        match p {
            Value::At(o, d) => fill_in(self.objects.as_mut_slice(), o, d, count, byte),
            Value::Num(_, _) | Value::Null | Value::Fun(_) => Err(Stop::Left(Reason::Bounds)),
        }
    }

    /// Copies so many bytes from a pointer to another; to copy none does nothing. Takes no memory.
    pub fn copy(&mut self, to: Value, from: Value, count: u64) -> Result<(), Stop>
        ensures changed { answered_as self.new result ≡ copied self.old to from count }
        ensures unchanged { OnErr result (self.new ≡ self.old) }
    {
        if count == 0 {
            return Ok(());
        }
        match from {
            Value::At(o, d) => copy_from(self.objects.as_mut_slice(), to, o, d, count),
            Value::Num(_, _) | Value::Null | Value::Fun(_) => Err(Stop::Left(Reason::Bounds)),
        }
    }

    /// Kills the objects of these numbers.
    pub fn forget(&mut self, alloc: Global, numbers: &[u64])
        ensures { self.new ≡ without self.old numbers.now }
    {
        forget_in(alloc, self.objects.as_mut_slice(), numbers);
    }

    /// What a comparison of two pointers says. Takes no memory.
    pub fn compared(&self, pred: Pred, a: Value, b: Value) -> Result<bool, Stop>
        ensures { answered result ≡ said_of pred self.now a b }
    {
        pointers_compared(pred, self.objects.as_slice(), a, b)
    }
}

/// The value of a kind at a place.
#[tactic(auto, using(crate::proofs::MemoryLaws::loads_there, crate::proofs::MemoryLaws::loads_nowhere))]
fn load_in(objects: &[Object], kind: Kind, o: u64, d: u64) -> Result<Value, Stop>
    ensures { answered result ≡ load_at objects.now kind (PlaceAt o d) }
{
    match objects.get(o as usize) {
        Some(x) => x.load(kind, d),
        None => Err(Stop::Left(Reason::Bounds)),
    }
}

/// Puts cells at a place.
#[tactic(auto, using(crate::proofs::MemoryLaws::puts_there, crate::proofs::MemoryLaws::puts_nowhere, crate::proofs::MemoryLaws::same_there, std::proofs::lemmas::Option::slice_get_read, std::proofs::lemmas::Option::slice_get_past))]
fn put_in(objects: &mut [Object], o: u64, d: u64, cells: &[Cell]) -> Result<(), Stop>
    ensures changed { answered_as objects.new result ≡
        put_at objects.old (PlaceAt o d) cells.now }
    ensures unchanged { OnErr result (objects.new ≡ objects.old) }
{
    let i = o as usize;
    if i >= objects.len() {
        return Err(Stop::Left(Reason::Bounds));
    }
    objects[i].put(d, cells)
}

/// Fills so many bytes from a place on.
#[tactic(auto, using(crate::proofs::MemoryLaws::fills_there, crate::proofs::MemoryLaws::fills_nowhere, crate::proofs::MemoryLaws::same_there, std::proofs::lemmas::Option::slice_get_read, std::proofs::lemmas::Option::slice_get_past))]
fn fill_in(objects: &mut [Object], o: u64, d: u64, count: u64, byte: u8) -> Result<(), Stop>
    ensures changed { answered_as objects.new result ≡
        run_at objects.old (PlaceAt o d) count (ByteCell byte) }
    ensures unchanged { OnErr result (objects.new ≡ objects.old) }
{
    let i = o as usize;
    if i >= objects.len() {
        return Err(Stop::Left(Reason::Bounds));
    }
    objects[i].fill(d, count, byte)
}

/// How a copy of a range stops that has no target.
#[tactic(auto, using(crate::proofs::CopyLaws::copies_nowhere, crate::proofs::CopyLaws::copies_from_nothing, std::proofs::lemmas::Option::slice_get_read, std::proofs::lemmas::Option::slice_get_past))]
fn no_target(objects: &[Object], o: u64, d: u64, count: u64) -> Stop
    ensures { without_place objects.now o d count ≡ Err (stop_of result) }
{
    match objects.get(o as usize) {
        Some(x) => x.no_target(d, count),
        None => Stop::Left(Reason::Bounds),
    }
}

/// Copies some bytes of a place to a pointer.
fn copy_from(objects: &mut [Object], to: Value, o: u64, d: u64, count: u64) -> Result<(), Stop>
    requires { 0 < count }
    ensures changed { answered_as objects.new result ≡
        copied_some objects.old to (PlaceAt o d) count }
    ensures unchanged { OnErr result (objects.new ≡ objects.old) }
{
    match to {
        Value::At(p, e) => copy_between(objects, p, e, o, d, count),
        Value::Num(_, _) | Value::Null | Value::Fun(_) => Err(no_target(objects, o, d, count)),
    }
}

/// Copies some bytes of a place to a place.
#[tactic(auto, using(crate::proofs::CopyLaws::copies_past, crate::proofs::CopyLaws::copies_from_past, std::proofs::lemmas::Option::slice_get_past))]
fn copy_between(
    objects: &mut [Object],
    p: u64,
    e: u64,
    o: u64,
    d: u64,
    count: u64,
) -> Result<(), Stop>
    requires { 0 < count }
    ensures changed { answered_as objects.new result ≡
        copied_some objects.old (PlaceAt p e) (PlaceAt o d) count }
    ensures unchanged { OnErr result (objects.new ≡ objects.old) }
{
    if p as usize >= objects.len() {
        return Err(no_target(objects, o, d, count));
    }
    if o as usize >= objects.len() {
        return Err(Stop::Left(Reason::Bounds));
    }
    if o == p {
        return copy_within(objects, o as usize, d, e, count);
    }
    if o < p {
        let (low, high) = objects.split_at_mut(p as usize);
        copy_up(low, high, e, o as usize, d, count)
    } else {
        let (low, high) = objects.split_at_mut(o as usize);
        copy_down(low, high, p as usize, e, d, count)
    }
}

/// Copies some bytes of an object to another place of it.
#[tactic(auto, using(crate::proofs::CopyLaws::copies_within, crate::proofs::MemoryLaws::same_there, std::proofs::lemmas::Option::slice_get_read))]
fn copy_within(objects: &mut [Object], o: usize, d: u64, e: u64, count: u64) -> Result<(), Stop>
    requires some { 0 < count }
    requires there { o < length objects.old }
    ensures changed { answered_as objects.new result ≡
        copied_some objects.old (PlaceAt o e) (PlaceAt o d) count }
    ensures unchanged { OnErr result (objects.new ≡ objects.old) }
{
    objects[o].copy_inside(d, e, count)
}

/// Copies some bytes to the object past the first ones.
#[tactic(auto, using(crate::proofs::CopyLaws::copies_up, crate::proofs::MemoryLaws::same_there))]
fn copy_up(
    low: &[Object],
    high: &mut [Object],
    e: u64,
    o: usize,
    d: u64,
    count: u64,
) -> Result<(), Stop>
    requires source { o < length low.now }
    requires target { 0 < length high.old }
    ensures changed { answered_as (low.now ++ high.new) result ≡
        copied_some (low.now ++ high.old) (PlaceAt (length low.now) e) (PlaceAt o d) count }
    ensures unchanged { OnErr result (high.new ≡ high.old) }
{
    high[0].copy_from(&low[o], d, e, count)
}

/// Copies some bytes of the object past the first ones.
#[tactic(auto, using(crate::proofs::CopyLaws::copies_down, crate::proofs::MemoryLaws::same_there))]
fn copy_down(
    low: &mut [Object],
    high: &[Object],
    p: usize,
    e: u64,
    d: u64,
    count: u64,
) -> Result<(), Stop>
    requires source { 0 < length high.now }
    requires target { p < length low.old }
    ensures changed { answered_as (low.new ++ high.now) result ≡
        copied_some (low.old ++ high.now) (PlaceAt p e) (PlaceAt (length low.old) d) count }
    ensures unchanged { OnErr result (low.new ≡ low.old) }
{
    low[p].copy_from(&high[0], d, e, count)
}

/// Kills the objects of these numbers.
fn forget_in(alloc: Global, objects: &mut [Object], numbers: &[u64])
    ensures { objects.new ≡ without objects.old numbers.now }
{
    for o in numbers {
        kill_at(alloc, objects, *o);
    }
}

/// Kills the object of a number, where there is one.
fn kill_at(alloc: Global, objects: &mut [Object], o: u64)
    ensures { objects.new ≡ dead_at objects.old o (slice_get objects.old o) }
{
    let i = o as usize;
    if i < objects.len() {
        objects[i].kill(alloc);
    }
}
