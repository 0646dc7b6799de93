//! The outside over std, which tells no content.
//!
//! Each object is a few lines over calls of std that are trusted, and counts the errors that they
//! answer. Where std knows the bytes of a reader or a writer, `StreamSource` and `StreamSink` say what
//! they do to them; of the standard streams and of a disk nothing is known.

ghost use Rattle.std.specs.Prelude.{◌≡◌, ◌≢◌, true, false, None, Ok, Err};
ghost use Rattle.rd_io.specs.Causes.{Caused, PutCaused};
ghost use Rattle.rd_io.specs.Held.{files_told};
ghost use Rattle.rd_io.specs.Outside.{Ends, Reads};
ghost use Rattle.rd_io.specs.Streams.{PutsAll, TakesNext};

use crate::{Failed, FileFail, Files, PutFail, Sink, Source};
use rd_num::copied::copy_list;
use rd_num::list::List;
use std::alloc::Global;
use std::io::{Read, Stderr, Stdin, Stdout, Write};
use std::{fs, rt};

/// The most bytes of a file that one call of std reads.
const BLOCK: usize = 4096;

/// The files of the system.
#[derive(Drop)]
pub struct DiskFiles<R> {
    rt: R,
    lost: Option<List<u8>>,
    faults: u64,
}

impl<R: rt::Files> DiskFiles<R> {
    /// The files that a runtime reaches. Takes no memory.
    pub fn new(rt: R) -> DiskFiles<R>
        ensures { result ≡ record { rt = rt; lost = None; faults = 0 } }
    {
        DiskFiles {
            rt,
            lost: None,
            faults: 0,
        }
    }
}

impl<R: rt::Files> Files for DiskFiles<R> {
    ghost told = { λ f. files_told (λ name. None) f.lost f.faults };

    /// A folder is no file: it can't be read. At most `limit` bytes and one are read.
    fn read(&mut self, alloc: Global, name: &str, limit: u64) -> Result<List<u8>, FileFail> {
        let own = match copy_list(alloc, name.as_bytes()) {
            Ok(own) => own,
            Err(_) => return Err(FileFail::NoMemory),
        };
        match opened(&self.rt, alloc, name, limit) {
            Err(FileFail::Failed) => {
                self.lost = Some(own);
                self.faults = self.faults.saturating_add(1);
                Err(FileFail::Failed)
            }
            other => other,
        }
    }
}

/// The content of a file of the system.
fn opened<R: rt::Files>(rt: &R, alloc: Global, name: &str, limit: u64) -> Result<List<u8>, FileFail>
    ensures { Reads None limit result }
{
    match fs::open(rt, name) {
        Ok(mut file) => whole(alloc, &mut file, limit),
        Err(_) => Err(FileFail::Failed),
    }
}

/// All bytes that a reader has left, where they are at most `limit`.
pub(crate) fn whole<R: Read>(alloc: Global, file: &mut R, limit: u64) -> Result<List<u8>, FileFail>
    ensures limit { Reads None limit result }
    ensures bytes { Reads (R.remaining file.old) limit result }
{
    let mut all = List::new(alloc);
    let mut block = [0u8; BLOCK];
    loop {
        let most = (limit - all.len() as u64).min(BLOCK as u64 - 1) as usize + 1;
        match file.read(&mut block[..most]) {
            Ok(0) => return Ok(all),
            Ok(n) => {
                if all.append(&block[..n]).is_err() {
                    return Err(FileFail::NoMemory);
                }
                if all.len() as u64 > limit {
                    return Err(FileFail::TooLong);
                }
            }
            Err(_) => return Err(FileFail::Failed),
        }
    }
}

/// A source over a reader, which is not asked again once it has ended.
#[derive(Drop)]
pub struct StreamSource<R> {
    reader: R,
    ended: bool,
    faults: u64,
}

/// The standard input.
pub type StdSource = StreamSource<Stdin>;

impl<R: Read> StreamSource<R> {
    /// A source of the bytes that a reader has left. Takes no memory.
    pub fn new(reader: R) -> StreamSource<R>
        ensures { result ≡ record { reader = reader; ended = false; faults = 0 } }
    {
        StreamSource {
            reader,
            ended: false,
            faults: 0,
        }
    }
}

impl<R: Read> Source for StreamSource<R> {
    ghost told = { λ s. record { left = None; ended = s.ended; faults = s.faults } };

    fn take(&mut self) -> Result<Option<u8>, Failed>
        ensures stream { let before = R.remaining self.old.reader in
            self.old.ended ≡ false → TakesNext before (R.remaining self.new.reader) result }
        ensures stopped { self.old.ended ≡ true → (result ≡ Ok None) × (self.new ≡ self.old) }
        ensures end { Ends self.old.ended self.new.ended result }
        ensures cause { Caused self.old.faults self.new.faults result }
    {
        if self.ended {
            return Ok(None);
        }
        match next(&mut self.reader) {
            Ok(Some(byte)) => Ok(Some(byte)),
            Ok(None) => {
                self.ended = true;
                Ok(None)
            }
            Err(_) => {
                self.faults = self.faults.saturating_add(1);
                Err(Failed)
            }
        }
    }
}

/// The next byte of a reader.
fn next<R: Read>(reader: &mut R) -> Result<Option<u8>, Failed>
    ensures { TakesNext (R.remaining reader.old) (R.remaining reader.new) result }
{
    let mut block = [0u8; 1];
    match reader.read(&mut block) {
        Ok(0) => Ok(None),
        Ok(_) => Ok(Some(block[0])),
        Err(_) => Err(Failed),
    }
}

/// A sink over a writer.
#[derive(Drop)]
pub struct StreamSink<W> {
    writer: W,
    faults: u64,
}

/// The standard output.
pub type StdSink = StreamSink<Stdout>;

/// The standard error output.
pub type ErrSink = StreamSink<Stderr>;

impl<W: Write> StreamSink<W> {
    /// A sink that puts bytes to a writer. Takes no memory.
    pub fn new(writer: W) -> StreamSink<W>
        ensures { result ≡ record { writer = writer; faults = 0 } }
    {
        StreamSink { writer, faults: 0 }
    }
}

impl<W: Write> Sink for StreamSink<W> {
    ghost told = { λ s. record { written = None; total = None; faults = s.faults } };

    ghost counted = { λ s. tt };

    /// Takes no memory of its own. A call of std that takes none of a nonempty piece is a fault.
    fn put(&mut self, bytes: &[u8]) -> Result<(), PutFail>
        ensures stream { PutsAll (W.contents self.old.writer)
            (W.contents self.new.writer) bytes.now result }
        ensures memory { result ≢ Err PutFail.NoMemory }
        ensures cause { PutCaused self.old.faults self.new.faults result }
    {
        match put_all(&mut self.writer, bytes) {
            Ok(()) => Ok(()),
            Err(_) => {
                self.faults = self.faults.saturating_add(1);
                Err(PutFail::Failed)
            }
        }
    }
}

/// Writes all bytes, in as many calls as it takes.
fn put_all<W: Write>(writer: &mut W, bytes: &[u8]) -> Result<(), Failed>
    ensures { PutsAll (W.contents writer.old) (W.contents writer.new) bytes.now result }
{
    let mut done = 0;
    while done < bytes.len() {
        match writer.write(&bytes[done..]) {
            Ok(0) => return Err(Failed),
            Ok(n) => done += n,
            Err(_) => return Err(Failed),
        }
    }
    Ok(())
}
