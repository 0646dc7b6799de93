//! Files, a source and a sink in memory, with the numbers of the calls that fail.
//!
//! Calls are numbered from 1, each object's for itself. They tell all that they hold.

ghost use Rattle.std.specs.Prelude.{◌≡◌, ◌+◌, ◌≤◌, [], ◌∷◌, ◌++◌, ◌||◌, ◌≢◌, length, drop, refl, None, Some, Err, OnOk, OnErr, MatchOption, nat_le, not, is_some};
ghost use Rattle.rd_io.specs.Causes.{Caused, PutCaused, FileCaused};
ghost use Rattle.rd_io.specs.Held.{content_of, files_told, source_told, sink_told};
ghost use Rattle.rd_io.specs.Numbered.{one_more, is_failing, TakeFails, PutFails, ReadFails};
ghost use Rattle.rd_io.specs.Outside.{Takes, Ends, Reads};

use crate::{Failed, FileFail, Files, PutFail, Sink, Source};
use rd_num::copied::{Copied, copy_list};
use rd_num::list::List;
use std::alloc::Global;

/// A content under a name.
#[derive(Drop)]
pub struct File {
    pub name: List<u8>,
    pub bytes: List<u8>,
}

/// Files in memory. A name that isn't held is a failed call; of two equal names the first counts.
#[derive(Drop)]
pub struct MemFiles {
    files: List<File>,
    fails: List<u64>,
    calls: u64,
    lost: Option<List<u8>>,
    faults: u64,
}

impl MemFiles {
    /// Files of which the calls with these numbers fail. Takes no memory.
    pub fn new(files: List<File>, fails: List<u64>) -> MemFiles
        ensures { result ≡ record {
          files = files;
          fails = fails;
          calls = 0;
          lost = None;
          faults = 0;
        } }
    {
        MemFiles {
            files,
            fails,
            calls: 0,
            lost: None,
            faults: 0,
        }
    }
}

impl Files for MemFiles {
    ghost told = { λ f. files_told (content_of f.files) f.lost f.faults };

    fn read(&mut self, alloc: Global, name: &str, limit: u64) -> Result<List<u8>, FileFail>
        ensures bytes { Reads (content_of self.old.files name.now) limit result }
        ensures fault { let is_held = is_some (content_of self.old.files name.now) in
            ReadFails (is_failing self.old.fails self.old.calls || not is_held) result }
        ensures cause { FileCaused
            (files_told (content_of self.old.files) self.old.lost self.old.faults)
            (files_told (content_of self.new.files) self.new.lost self.new.faults) name.now result }
        ensures call { self.new.calls ≡ one_more self.old.calls }
        ensures files { (self.new.files ≡ self.old.files) × (self.new.fails ≡ self.old.fails) }
    {
        self.calls = self.calls.saturating_add(1);
        let own = match copy_list(alloc, name.as_bytes()) {
            Ok(own) => own,
            Err(_) => return Err(FileFail::NoMemory),
        };
        let fails = self.fails.as_slice().contains(&self.calls);
        match find(self.files.as_slice(), name.as_bytes()) {
            Some(bytes) if !fails => within(alloc, bytes, limit),
            _ => {
                self.lost = Some(own);
                self.faults = self.faults.saturating_add(1);
                Err(FileFail::Failed)
            }
        }
    }
}

/// The content of the first file with a name.
pub(crate) fn find<'a>(files: &'a [File], name: &[u8]) -> Option<&'a List<u8>>
    ensures { let held = content_of files.now name.now in
        MatchOption result (held ≡ None) (λ b. held ≡ Some b.now) }
{
    for file in files {
        if file.name.as_slice() == name {
            return Some(&file.bytes);
        }
    }
    None
}

/// A copy of a content that has at most `limit` bytes.
pub(crate) fn within(alloc: Global, bytes: &List<u8>, limit: u64) -> Result<List<u8>, FileFail>
    ensures bytes { Reads (Some bytes.now) limit result }
    ensures sure { result ≢ Err FileFail.Failed }
{
    if bytes.len() as u64 > limit {
        return Err(FileFail::TooLong);
    }
    match bytes.copied(alloc) {
        Ok(own) => Ok(own),
        Err(_) => Err(FileFail::NoMemory),
    }
}

/// A source over bytes in memory.
#[derive(Drop)]
pub struct MemSource {
    bytes: List<u8>,
    place: usize,
    fails: List<u64>,
    calls: u64,
    faults: u64,
}

impl MemSource {
    /// A source of these bytes, of which the calls with these numbers fail. Takes no memory.
    pub fn new(bytes: List<u8>, fails: List<u64>) -> MemSource
        ensures { result ≡ record {
          bytes = bytes;
          place = 0;
          fails = fails;
          calls = 0;
          faults = 0;
        } }
    {
        MemSource {
            bytes,
            place: 0,
            fails,
            calls: 0,
            faults: 0,
        }
    }
}

impl Source for MemSource {
    ghost told = { λ s. source_told s.bytes s.place s.faults };

    fn take(&mut self) -> Result<Option<u8>, Failed>
        ensures bytes { Takes (Some (drop self.old.place self.old.bytes))
            (Some (drop self.new.place self.new.bytes)) result }
        ensures end { Ends (nat_le (length self.old.bytes) self.old.place)
            (nat_le (length self.new.bytes) self.new.place) result }
        ensures fault { TakeFails (is_failing self.old.fails self.old.calls) result }
        ensures cause { Caused self.old.faults self.new.faults result }
        ensures call { self.new.calls ≡ one_more self.old.calls }
        ensures fails { self.new.fails ≡ self.old.fails }
    {
        self.calls = self.calls.saturating_add(1);
        if self.fails.as_slice().contains(&self.calls) {
            self.faults = self.faults.saturating_add(1);
            return Err(Failed);
        }
        Ok(next(&self.bytes, &mut self.place))
    }
}

/// The byte at a place, and the place behind it.
pub(crate) fn next(bytes: &List<u8>, place: &mut usize) -> Option<u8>
    ensures { MatchOption result ((length bytes.now ≤ place.old) × (place.new ≡ place.old))
        (λ b. (drop place.old bytes.now ≡ b ∷ drop place.new bytes.now) ×
        (place.new ≡ place.old + 1)) }
{
    if *place < bytes.len() {
        let byte = bytes.as_slice()[*place];
        *place += 1;
        Some(byte)
    } else {
        None
    }
}

/// A sink that keeps its bytes in memory.
#[derive(Drop)]
pub struct MemSink {
    bytes: List<u8>,
    fails: List<u64>,
    calls: u64,
    faults: u64,
}

impl MemSink {
    /// An empty sink, of which the calls with these numbers fail. Takes no memory.
    pub fn new(alloc: Global, fails: List<u64>) -> MemSink
        ensures { result ≡ record { bytes = []; fails = fails; calls = 0; faults = 0 } }
    {
        MemSink {
            bytes: List::new(alloc),
            fails,
            calls: 0,
            faults: 0,
        }
    }

    /// What was written. Takes no memory.
    pub fn bytes(&self) -> &List<u8>
        ensures { result.now ≡ self.now.bytes }
    {
        &self.bytes
    }
}

impl Sink for MemSink {
    ghost told = { λ s. sink_told s.bytes s.faults };

    ghost counted = { λ s. refl };

    /// Appends bytes. After an error none of them was appended.
    fn put(&mut self, bytes: &[u8]) -> Result<(), PutFail>
        ensures put { OnOk result (self.new.bytes ≡ self.old.bytes ++ bytes.now) }
        ensures unchanged { OnErr result (self.new.bytes ≡ self.old.bytes) }
        ensures fault { PutFails (is_failing self.old.fails self.old.calls) result }
        ensures cause { PutCaused self.old.faults self.new.faults result }
        ensures call { self.new.calls ≡ one_more self.old.calls }
        ensures fails { self.new.fails ≡ self.old.fails }
    {
        self.calls = self.calls.saturating_add(1);
        if self.fails.as_slice().contains(&self.calls) {
            self.faults = self.faults.saturating_add(1);
            return Err(PutFail::Failed);
        }
        match self.bytes.append(bytes) {
            Ok(()) => Ok(()),
            Err(_) => Err(PutFail::NoMemory),
        }
    }
}
