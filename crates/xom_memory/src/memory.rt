//! The store and its calls, each of which is allowed or refused as a whole.

ghost use Rattle.std.specs.Prelude.{◌≡◌, ℕ, ◌≢◌, ◌↔◌, ◌≤◌, ◌<◌, [], ◌∷◌, ◌++◌, None, Some, Bool, true, false, IfOk, IfErr, IfSome, OnOk, OnErr, IsOk, IsErr, IsTrue, MatchOption, MatchResult, option_map, slice_get, take, drop, length};
ghost use Rattle.x86_core.specs.Memory.{reads, writes, executes, one_covers, is_allowed, read_at, write_at, code_at};
ghost use Rattle.x86_core.specs.Data.{stack_start, segment};
ghost use Rattle.rd_num.specs.Number.{le_bytes, le_number};
ghost use Rattle.x86_core.specs.Step.{size_bytes};
ghost use Rattle.x86_core.specs.Machine.{machine_segments, machine_fetch, by_decoded};
ghost use Rattle.xom_memory.specs.Access.{bytes_at, written_at, outline_of, place_of, readable_at, lent as lent_segment, Filled, Wrote, Written, Permits};
ghost use Rattle.xom_memory.specs.Taking.{TakesTo};
ghost use Rattle.xom_memory.specs.Codes.{lasting_code, AreTold};

use crate::codes::{Codes, Known};
use crate::lent::ReadableSegment;
use crate::segment::{Part, may_execute, may_read, may_write};
use crate::stack::Stack;
use crate::word::word_of;
use rd_io::Source;
use rd_num::bytes::put_u64_le;
use rd_num::width::NoMemory;
use std::alloc::Global;
use std::marker::Model;
use x86_core::image::{Image, Rights, Segment};
use x86_core::instr::{Decoded, Size};
use x86_decode::decode_one;

/// An access that the rights of the segments don't allow.
#[derive(Clone, Copy, PartialEq, Debug)]
pub struct Refused;

/// Why bytes were not written.
#[derive(Clone, Copy, PartialEq, Debug)]
pub enum WriteFault {
    Refused,
    NoMemory,
}

/// Why no byte was taken from a source.
#[derive(Clone, Copy, PartialEq, Debug)]
pub enum TakeFault {
    /// The address may not be written; the source was not asked.
    Refused,
    /// The source was not asked.
    NoMemory,
    /// The source failed.
    Failed,
}

/// The segments of an image, and the stack behind them; contracts see the list of all segments.
#[derive(Drop)]
pub struct Memory {
    parts: Vec<Part>,
    stack: Stack,
    codes: Codes,
}

impl Model for Memory {
    ghost use Rattle.std.specs.Prelude.{List, [], ◌∷◌, ◌++◌};
    ghost use Rattle.x86_core.specs.declared.image.Segment.{Segment as Shown};
    ghost use Rattle.x86_core.specs.Data.{stack_start, segment};

    ghost Value = { List Shown };

    ghost view = { λ m. m.parts.items ++ segment stack_start m.stack 6 ∷ [] };

    ghost use Rattle.xom_memory.specs.Codes.{AreTold};

    ghost invariant = { λ m. AreTold m.parts.items m.codes };
}

impl Memory {
    /// The segments of an image and an empty stack.
    pub fn load(alloc: Global, image: &Image) -> Result<Memory, NoMemory>
        ensures { IfOk result (λ m. m ≡ machine_segments image.now) }
    {
        let parts = copies(alloc, image.segments.as_slice())?;
        let stack = Stack::new(alloc);
        let codes = Codes::new(alloc, code_bytes(parts.as_slice()));
        Ok(Memory {
            parts,
            stack,
            codes,
        })
    }

    /// The first address, the length and the rights of the segment with an index, in the order of the
    /// image's segments, the stack last. `None` comes exactly past the last.
    pub fn segment(&self, i: usize) -> Option<(u64, u64, Rights)>
        ensures { result ≡ option_map outline_of (slice_get self.now i) }
    {
        outline_at(self.parts.as_slice(), &self.stack, i)
    }

    /// How many segments there are, the stack among them.
    pub fn count(&self) -> usize
        ensures { result ≡ length self.now }
    {
        self.parts.len() + 1
    }

    /// The whole segment with an index, counted as in `segment`, where it may be read.
    ///
    /// `None` comes exactly past the last and where the segment may not be read.
    pub fn readable(&self, i: usize) -> Option<ReadableSegment<'_>>
        ensures { MatchOption result (readable_at self.now i ≡ None)
            (λ s. readable_at self.now i ≡ Some (lent_segment s)) }
    {
        readable_part(self.parts.as_slice(), &self.stack, i)
    }

    /// Reads the bytes from the address `at` on.
    ///
    /// `Refused` comes exactly where no one segment that may be read covers the whole range; nothing
    /// changes then. An empty range is always allowed. Takes no memory.
    #[tactic(auto, using(crate::proofs::Allowed::read_length, crate::proofs::Allowed::read_allowed, crate::proofs::Allowed::read_refused, crate::proofs::Allowed::read_nothing))]
    pub fn read_into(&self, at: u64, out: &mut [u8]) -> Result<(), Refused>
        ensures allowed { IsOk result ↔ IsTrue (is_allowed reads self.now at (length out.old)) }
        ensures read { OnOk result (out.new ≡ bytes_at self.now at (length out.old)) }
        ensures unchanged { OnErr result (out.new ≡ out.old) }
        ensures some { 0 < length out.old →
            MatchResult result (λ _. read_at self.now at (length out.old) ≡ Some out.new)
            (λ _. read_at self.now at (length out.old) ≡ None) }
    {
        if out.is_empty() {
            return Ok(());
        }
        if read_any(self.parts.as_slice(), &self.stack, at, out) {
            Ok(())
        } else {
            Err(Refused)
        }
    }

    /// Writes bytes from the address `at` on.
    ///
    /// `Refused` comes exactly where no one segment that may be written covers the whole range;
    /// nothing changes after an error. No bytes may be written anywhere.
    #[tactic(auto, using(crate::proofs::Taken::written_permits, crate::proofs::Taken::written_is, crate::proofs::Taken::written_same, crate::proofs::Lasting::told_stays))]
    pub fn write_from(&mut self, at: u64, bytes: &[u8]) -> Result<(), WriteFault>
        ensures allowed { Permits result (is_allowed writes self.old at (length bytes.now)) }
        ensures written { OnOk result (self.new ≡ written_at self.old at bytes.now) }
        ensures unchanged { OnErr result (self.new ≡ self.old) }
        ensures some { 0 < length bytes.now →
            Written result (write_at self.old at bytes.now) self.old self.new }
    {
        if bytes.is_empty() {
            return Ok(());
        }
        put_at(self.parts.as_mut_slice(), &mut self.stack, at, bytes)
    }

    /// Answers as a write of `len` bytes from the address `at` on would, and changes no byte.
    ///
    /// After `Ok` a write inside that range wants no memory.
    pub fn prepare(&mut self, at: u64, len: u64) -> Result<(), WriteFault>
        ensures allowed { Permits result (is_allowed writes self.old at len) }
        ensures unchanged { self.new ≡ self.old }
    {
        if len == 0 {
            return Ok(());
        }
        prepare_at(self.parts.as_slice(), &mut self.stack, at, len as usize)
    }

    /// Takes a byte from a source to the address `at`.
    ///
    /// The source is asked last, once nothing but its own answer can hinder the byte.
    #[tactic(auto, using(crate::proofs::Lasting::told_stays))]
    pub fn take<I: Source>(&mut self, at: u64, input: &mut I) -> Result<Option<u8>, TakeFault>
        ensures { TakesTo result at self.old self.new (I.told input.old) (I.told input.new) }
    {
        take_at(self.parts.as_mut_slice(), &mut self.stack, at, input)
    }

    /// The word that the bytes from the address `at` on spell, where they may be read. Takes no
    /// memory.
    #[inline]
    pub fn load_word(&self, at: u64, size: Size) -> Option<u64>
        ensures { result ≡ option_map le_number (read_at self.now at (size_bytes size)) }
    {
        match size {
            Size::W8 => load::<1>(self.parts.as_slice(), &self.stack, at),
            Size::W16 => load::<2>(self.parts.as_slice(), &self.stack, at),
            Size::W32 => load::<4>(self.parts.as_slice(), &self.stack, at),
            Size::W64 => load::<8>(self.parts.as_slice(), &self.stack, at),
        }
    }

    /// Writes the low bytes of a word from the address `at` on.
    ///
    /// `Refused` comes as in `write_from`; nothing changes after an error.
    #[inline]
    #[tactic(auto, using(crate::proofs::Lasting::told_stays))]
    pub fn store_word(&mut self, at: u64, size: Size, word: u64) -> Result<(), WriteFault>
        ensures { Written result (write_at self.old at (le_bytes (size_bytes size) word))
            self.old self.new }
    {
        match size {
            Size::W8 => store::<1>(self.parts.as_mut_slice(), &mut self.stack, at, word),
            Size::W16 => store::<2>(self.parts.as_mut_slice(), &mut self.stack, at, word),
            Size::W32 => store::<4>(self.parts.as_mut_slice(), &mut self.stack, at, word),
            Size::W64 => store::<8>(self.parts.as_mut_slice(), &mut self.stack, at, word),
        }
    }

    /// What stands at the address `at`. An address without code is as one whose instruction is cut.
    ///
    /// Code that can't be written is decoded once, as long as there is memory to keep it.
    #[inline]
    #[tactic(auto, using(crate::proofs::Lasting::told_fetched, crate::proofs::Lasting::told_stays))]
    pub fn instruction(&mut self, at: u64) -> Decoded
        ensures value { machine_fetch self.old at ≡ by_decoded at result }
        ensures unchanged { self.new ≡ self.old }
    {
        match self.codes.find(at) {
            Some(known) => Decoded::One {
                instr: known.instr,
                len: known.len,
            },
            None => decoded(self.parts.as_slice(), &self.stack, &mut self.codes, at),
        }
    }

    /// The code from the address `at` on: sixteen bytes, or as many as are left of the segment.
    ///
    /// Answers how many there are, 1 to 16. `Refused` comes exactly where no segment that may be
    /// executed covers the address; nothing changes then.
    #[tactic(auto, using(crate::proofs::Allowed::code_count, crate::proofs::Behind::code_front, crate::proofs::Behind::code_back))]
    pub fn fetch(&self, at: u64, out: &mut [u8; 16]) -> Result<u8, Refused>
        ensures refused { IsErr result ↔ (code_at self.now at ≡ None) }
        ensures fetched { IfOk result (λ n. code_at self.now at ≡ Some (take n out.new)) }
        ensures count { IfOk result (λ n. (1 ≤ n) × (n ≤ 16)) }
        ensures rest { IfOk result (λ n. drop n out.new ≡ drop n out.old) }
        ensures unchanged { OnErr result (out.new ≡ out.old) }
    {
        match executable(self.parts.as_slice(), at) {
            Some(code) => Ok(copied(code, out)),
            None => Err(Refused),
        }
    }
}

// How many bytes may be executed and not be written.
fn code_bytes(parts: &[Part]) -> u64 {
    let mut count: u64 = 0;
    for part in parts {
        if may_execute(part.rights()) && !may_write(part.rights()) {
            let (_, len, _) = part.outline();
            count = count.saturating_add(len);
        }
    }
    count
}

// What stands at an address, decoded from the bytes there, and kept where no write can change it.
#[inline(never)]
#[tactic(auto, using(crate::proofs::Lasting::lasting_fetched, crate::proofs::Lasting::front_fetched, crate::proofs::Lasting::nothing_fetched))]
fn decoded(parts: &[Part], stack: &Stack, codes: &mut Codes, at: u64) -> Decoded
    ensures value { machine_fetch (parts.now ++ segment stack_start stack.now 6 ∷ []) at ≡
        by_decoded at result }
    ensures told { AreTold parts.now codes.old → AreTold parts.now codes.new }
{
    let _ = stack;
    match lasting(parts, at) {
        Some(code) => {
            let decoded = decode_one(code);
            if let Decoded::One { instr, len } = decoded {
                codes.keep(Known { at, instr, len });
            }
            decoded
        }
        None => match executable(parts, at) {
            Some(code) => decode_one(code),
            None => Decoded::Short,
        },
    }
}

// The code from an address on, where the segment that it is fetched from can't be written.
fn lasting<'a>(parts: &'a [Part], at: u64) -> Option<&'a [u8]>
    ensures { MatchOption result (lasting_code parts.now at ≡ None)
        (λ b. lasting_code parts.now at ≡ Some b.now) }
{
    for part in parts {
        if may_execute(part.rights()) && part.covers(at, 1) {
            return if may_write(part.rights()) {
                None
            } else {
                Some(part.code(at))
            };
        }
    }
    None
}

// The word that so many bytes at an address spell, where a segment or the stack may be read there.
#[inline(always)]
#[tactic(auto, using(crate::proofs::Allowed::read_length, crate::proofs::Behind::read_front, crate::proofs::Behind::read_back))]
fn load<const N: usize>(parts: &[Part], stack: &Stack, at: u64) -> Option<u64>
    requires some { 0 < N }
    requires few { N ≤ 8 }
    ensures { result ≡ option_map le_number (read_at
        (parts.now ++ segment stack_start stack.now 6 ∷ []) at N) }
{
    match readable(parts, at, N) {
        Some(bytes) => Some(word_of::<N>(bytes)),
        None if stack.covers(at, N) => Some(stack.word::<N>(at)),
        None => None,
    }
}

// Writes so many low bytes of a word.
#[inline(always)]
fn store<const N: usize>(
    parts: &mut [Part],
    stack: &mut Stack,
    at: u64,
    word: u64,
) -> Result<(), WriteFault>
    requires some { 0 < N }
    requires few { N ≤ 8 }
    ensures written { let all = parts.old ++ segment stack_start stack.old 6 ∷ [] in
        Written result (write_at all at (take N (le_bytes 8 word)))
        all (parts.new ++ segment stack_start stack.new 6 ∷ []) }
    ensures code { (a : ℕ) → lasting_code parts.new a ≡ lasting_code parts.old a }
{
    let all = put_u64_le(word);
    put_at(parts, stack, at, &all[..N])
}

// Puts up to sixteen bytes at the front of an array.
fn copied(code: &[u8], out: &mut [u8; 16]) -> u8
    requires { length code.now ≤ 16 }
    ensures count { result ≡ length code.now }
    ensures front { take result out.new ≡ code.now }
    ensures rest { drop result out.new ≡ drop result out.old }
{
    out[..code.len()].copy_from_slice(code);
    code.len() as u8
}

// The outline of a segment or, behind the last, of the stack.
#[tactic(auto, using(crate::proofs::Behind::get_front, crate::proofs::Behind::get_last))]
fn outline_at(parts: &[Part], stack: &Stack, i: usize) -> Option<(u64, u64, Rights)>
    ensures { result ≡ option_map outline_of (slice_get
        (parts.now ++ segment stack_start stack.now 6 ∷ []) i) }
{
    match parts.get(i) {
        Some(part) => Some(part.outline()),
        None if i == parts.len() => Some(stack.outline()),
        None => None,
    }
}

// The whole segment with an index or, behind the last, the stack, where it may be read.
#[tactic(auto, using(crate::proofs::Whole::whole_front, crate::proofs::Whole::whole_last, crate::proofs::Whole::whole_past))]
fn readable_part<'a>(parts: &'a [Part], stack: &'a Stack, i: usize) -> Option<ReadableSegment<'a>>
    ensures { let all = parts.now ++ segment stack_start stack.now 6 ∷ [] in MatchOption result
        (readable_at all i ≡ None) (λ s. readable_at all i ≡ Some (lent_segment s)) }
{
    match parts.get(i) {
        Some(part) => part.readable(),
        None if i == parts.len() => Some(stack.lent()),
        None => None,
    }
}

// Reads the bytes of a range where a segment or the stack may be read and covers it.
#[tactic(auto, using(crate::proofs::Allowed::read_length, crate::proofs::Behind::read_front, crate::proofs::Behind::read_back))]
fn read_any(parts: &[Part], stack: &Stack, at: u64, out: &mut [u8]) -> bool
    ensures { Filled result (read_at (parts.now ++ segment stack_start stack.now 6 ∷ [])
        at (length out.old)) out.old out.new }
{
    match readable(parts, at, out.len()) {
        Some(bytes) => {
            out.copy_from_slice(bytes);
            true
        }
        None if stack.covers(at, out.len()) => {
            stack.read(at, out);
            true
        }
        None => false,
    }
}

// Makes the pages of a range where a segment or the stack may be written and covers it.
#[tactic(auto, using(crate::proofs::Behind::holds_behind))]
fn prepare_at(parts: &[Part], stack: &mut Stack, at: u64, len: usize) -> Result<(), WriteFault>
    requires { 0 < len }
    ensures allowed { Permits result (one_covers writes (parts.now ++
        segment stack_start stack.old 6 ∷ []) at len) }
    ensures unchanged { stack.new ≡ stack.old }
{
    if is_any_writable(parts, at, len) {
        return Ok(());
    }
    if !stack.covers(at, len) {
        return Err(WriteFault::Refused);
    }
    match stack.prepare(at, len) {
        Ok(()) => Ok(()),
        Err(_) => Err(WriteFault::NoMemory),
    }
}

// Writes bytes where a segment or the stack may be written and covers their range.
#[tactic(auto, using(crate::proofs::Behind::write_front, crate::proofs::Behind::write_back, crate::proofs::Behind::write_none))]
#[inline(always)]
fn put_at(parts: &mut [Part], stack: &mut Stack, at: u64, bytes: &[u8]) -> Result<(), WriteFault>
    requires { 0 < length bytes.now }
    ensures written { let all = parts.old ++ segment stack_start stack.old 6 ∷ [] in Written result
        (write_at all at bytes.now) all (parts.new ++ segment stack_start stack.new 6 ∷ []) }
    ensures code { (a : ℕ) → lasting_code parts.new a ≡ lasting_code parts.old a }
{
    if write_in(parts, at, bytes) {
        return Ok(());
    }
    if !stack.covers(at, bytes.len()) {
        return Err(WriteFault::Refused);
    }
    match stack.write(at, bytes) {
        Ok(()) => Ok(()),
        Err(_) => Err(WriteFault::NoMemory),
    }
}

// Takes a byte to an address where a segment or the stack may be written and covers it.
#[tactic(auto, using(crate::proofs::Taken::taken_front, crate::proofs::Taken::taken_back, crate::proofs::Behind::holds_behind))]
fn take_at<I: Source>(
    parts: &mut [Part],
    stack: &mut Stack,
    at: u64,
    input: &mut I,
) -> Result<Option<u8>, TakeFault>
    ensures taken { TakesTo result at (parts.old ++ segment stack_start stack.old 6 ∷ [])
        (parts.new ++ segment stack_start stack.new 6 ∷ []) (I.told input.old) (I.told input.new) }
    ensures code { (a : ℕ) → lasting_code parts.new a ≡ lasting_code parts.old a }
{
    if is_any_writable(parts, at, 1) {
        return take_in(parts, at, input);
    }
    if !stack.covers(at, 1) {
        return Err(TakeFault::Refused);
    }
    stack.take(at, input)
}

// Takes a byte to an address that one of the segments covers and that may be written.
#[tactic(auto, using(crate::proofs::Taken::wrote_allowed))]
fn take_in<I: Source>(parts: &mut [Part], at: u64, input: &mut I) -> Result<Option<u8>, TakeFault>
    requires { one_covers writes parts.old at 1 ≡ true }
    ensures taken { TakesTo result at parts.old parts.new (I.told input.old) (I.told input.new) }
    ensures code { (a : ℕ) → lasting_code parts.new a ≡ lasting_code parts.old a }
{
    match input.take() {
        Ok(Some(byte)) => {
            let _written = write_in(parts, at, &[byte]);
            Ok(Some(byte))
        }
        Ok(None) => Ok(None),
        Err(_) => Err(TakeFault::Failed),
    }
}

// Equal parts of the segments, in their order.
fn copies(alloc: Global, segments: &[Segment]) -> Result<Vec<Part>, NoMemory>
    ensures { IfOk result (λ v. v.items ≡ segments.now) }
{
    let mut parts = match Vec::with_capacity(alloc, segments.len()) {
        Ok(parts) => parts,
        Err(_) => return Err(NoMemory),
    };
    for segment in segments {
        let part = Part::copy_of(alloc, segment)?;
        match parts.push(part) {
            Ok(()) => {}
            Err(_) => return Err(NoMemory),
        }
    }
    Ok(parts)
}

// The bytes of a range, where one of the segments may be read and covers it.
#[inline(always)]
fn readable<'a>(parts: &'a [Part], at: u64, len: usize) -> Option<&'a [u8]>
    ensures { MatchOption result (read_at parts.now at len ≡ None)
        (λ b. read_at parts.now at len ≡ Some b.now) }
{
    for part in parts {
        if may_read(part.rights()) && part.covers(at, len) {
            return Some(part.range(at, len));
        }
    }
    None
}

// Up to sixteen bytes of code, where one of the segments may be executed and covers their address.
fn executable<'a>(parts: &'a [Part], at: u64) -> Option<&'a [u8]>
    ensures { MatchOption result (code_at parts.now at ≡ None)
        (λ b. code_at parts.now at ≡ Some b.now) }
{
    for part in parts {
        if may_execute(part.rights()) && part.covers(at, 1) {
            return Some(part.code(at));
        }
    }
    None
}

// Whether one of the segments may be written and covers a range.
fn is_any_writable(parts: &[Part], at: u64, len: usize) -> bool
    ensures { result ≡ one_covers writes parts.now at len }
{
    for part in parts {
        if may_write(part.rights()) && part.covers(at, len) {
            return true;
        }
    }
    false
}

// The index of the first segment that may be written and covers a range.
#[inline(always)]
fn writable_place(parts: &[Part], at: u64, len: usize) -> Option<usize>
    ensures { result ≡ place_of parts.now at len }
{
    for i in 0..parts.len() {
        if may_write(parts[i].rights()) && parts[i].covers(at, len) {
            return Some(i);
        }
    }
    None
}

// Writes bytes where one of the segments may be written and covers their range.
#[inline(always)]
#[tactic(auto, using(crate::proofs::Places::placed_holds, crate::proofs::Places::write_placed, crate::proofs::Places::write_unplaced, crate::proofs::Places::place_within))]
fn write_in(parts: &mut [Part], at: u64, bytes: &[u8]) -> bool
    ensures wrote { Wrote result (write_at parts.old at bytes.now) parts.old parts.new }
    ensures code { (a : ℕ) → lasting_code parts.new a ≡ lasting_code parts.old a }
{
    match writable_place(parts, at, bytes.len()) {
        Some(i) => {
            parts[i].put(at, bytes);
            true
        }
        None => false,
    }
}
