//! Files, a source and sinks that never fail, whose counts of faults stay at zero.

ghost use Rattle.std.specs.Prelude.{◌≡◌, ◌≢◌, [], length, drop, nat_le, refl, None, Some, Err, IsOk, OnOk, OnErr, ◌++◌};
ghost use Rattle.rd_io.specs.Held.{content_or_empty, count_told, files_told, source_told, sink_told};
ghost use Rattle.rd_io.specs.Outside.{Takes, Ends, Reads, Counts};

use crate::memory::{File, find, next, within};
use crate::{Failed, FileFail, Files, PutFail, Sink, Source};
use rd_num::list::List;
use std::alloc::Global;

/// Files in memory. A name that isn't held reads as no bytes; of two equal names the first counts.
#[derive(Drop)]
pub struct SureFiles {
    files: List<File>,
}

impl SureFiles {
    /// These files. Takes no memory.
    pub fn new(files: List<File>) -> SureFiles
        ensures { result ≡ record { files = files } }
    {
        SureFiles { files }
    }
}

impl Files for SureFiles {
    ghost told = { λ f. files_told (λ name. Some (content_or_empty f.files name)) None 0 };

    fn read(&mut self, alloc: Global, name: &str, limit: u64) -> Result<List<u8>, FileFail>
        ensures bytes { Reads (Some (content_or_empty self.old.files name.now)) limit result }
        ensures sure { result ≢ Err FileFail.Failed }
        ensures files { self.new ≡ self.old }
    {
        match find(self.files.as_slice(), name.as_bytes()) {
            Some(bytes) => within(alloc, bytes, limit),
            None => Ok(List::new(alloc)),
        }
    }
}

/// A source over bytes in memory.
#[derive(Drop)]
pub struct SureSource {
    bytes: List<u8>,
    place: usize,
}

impl SureSource {
    /// A source of these bytes. Takes no memory.
    pub fn new(bytes: List<u8>) -> SureSource
        ensures { result ≡ record { bytes = bytes; place = 0 } }
    {
        SureSource { bytes, place: 0 }
    }
}

impl Source for SureSource {
    ghost told = { λ s. source_told s.bytes s.place 0 };

    fn take(&mut self) -> Result<Option<u8>, Failed>
        ensures bytes { Takes (Some (drop self.old.place self.old.bytes))
            (Some (drop self.new.place self.new.bytes)) result }
        ensures end { Ends (nat_le (length self.old.bytes) self.old.place)
            (nat_le (length self.new.bytes) self.new.place) result }
        ensures sure { IsOk result }
    {
        Ok(next(&self.bytes, &mut self.place))
    }
}

/// A sink that keeps its bytes in memory.
#[derive(Drop)]
pub struct SureSink {
    bytes: List<u8>,
}

impl SureSink {
    /// An empty sink. Takes no memory.
    pub fn new(alloc: Global) -> SureSink
        ensures { result ≡ record { bytes = [] } }
    {
        SureSink {
            bytes: List::new(alloc),
        }
    }

    /// What was written. Takes no memory.
    pub fn bytes(&self) -> &List<u8>
        ensures { result.now ≡ self.now.bytes }
    {
        &self.bytes
    }
}

impl Sink for SureSink {
    ghost told = { λ s. sink_told s.bytes 0 };

    ghost counted = { λ s. refl };

    /// Appends bytes. Where memory is wanting none of them was appended.
    fn put(&mut self, bytes: &[u8]) -> Result<(), PutFail>
        ensures put { OnOk result (self.new.bytes ≡ self.old.bytes ++ bytes.now) }
        ensures unchanged { OnErr result (self.new ≡ self.old) }
        ensures sure { result ≢ Err PutFail.Failed }
    {
        match self.bytes.append(bytes) {
            Ok(()) => Ok(()),
            Err(_) => Err(PutFail::NoMemory),
        }
    }
}

/// A sink that counts bytes as far as 2^64 - 1 and keeps none.
#[derive(Drop)]
pub struct CountSink {
    count: u64,
}

impl CountSink {
    /// A sink that got nothing. Takes no memory.
    pub fn new() -> CountSink
        ensures { result ≡ record { count = 0 } }
    {
        CountSink { count: 0 }
    }

    /// How many bytes were put. Takes no memory.
    pub fn count(&self) -> u64
        ensures { result ≡ self.now.count }
    {
        self.count
    }
}

impl Sink for CountSink {
    ghost told = { λ s. count_told s.count };

    ghost counted = { λ s. tt };

    /// Counts bytes. Takes no memory.
    fn put(&mut self, bytes: &[u8]) -> Result<(), PutFail>
        ensures sure { IsOk result }
        ensures count { Counts (Some self.old.count) (Some self.new.count) (length bytes.now) }
    {
        self.count = self.count.saturating_add(bytes.len() as u64);
        Ok(())
    }
}
