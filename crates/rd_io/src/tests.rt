//! Each object on its plain way and at its faults, and streams that are slow or break.

ghost use Rattle.std.specs.Prelude.{◌≤◌, IfOk};

use crate::memory::{File, MemFiles, MemSink, MemSource};
use crate::real::{DiskFiles, ErrSink, StdSink, StdSource, StreamSink, StreamSource, whole};
use crate::sure::{CountSink, SureFiles, SureSink, SureSource};
use crate::{Failed, FileFail, Files, PutFail, Sink, Source};
use rd_num::copied::copy_list;
use rd_num::list::List;
use rd_num::width::NoMemory;
use std::alloc::Global;
use std::io::{Error, ErrorKind, Read, Write};
use std::{fs, io, process};

/// What a read gives: a content, or why there is none.
type Content = Result<&'static [u8], FileFail>;

/// The file `a` with the content `xyz`.
fn one_file(alloc: Global) -> Result<List<File>, NoMemory> {
    let mut files = List::new(alloc);
    let name = copy_list(alloc, b"a")?;
    let bytes = copy_list(alloc, b"xyz")?;
    files.add(File { name, bytes })?;
    Ok(files)
}

/// The number of one call that fails.
fn one_call(alloc: Global, number: u64) -> Result<List<u64>, NoMemory> {
    let mut fails = List::new(alloc);
    fails.add(number)?;
    Ok(fails)
}

/// Whether reading a file gives this.
fn reads<F: Files>(alloc: Global, files: &mut F, name: &str, limit: u64, want: Content) -> bool {
    match (files.read(alloc, name, limit), want) {
        (Ok(bytes), Ok(content)) => bytes.as_slice() == content,
        (Err(fail), Err(reason)) => fail == reason,
        _ => false,
    }
}

#[test]
fn files_in_memory_read_and_fail(rt: HostRuntime) {
    let alloc = rt.alloc();
    let (Ok(held), Ok(again), Ok(fails)) = (one_file(alloc), one_file(alloc), one_call(alloc, 2))
    else {
        panic!(rt; "no memory");
    };
    let mut files = MemFiles::new(held, fails);
    let calls: [(&str, u64, Content); 4] = [
        ("a", 3, Ok(b"xyz")),
        ("a", 3, Err(FileFail::Failed)),
        ("a", 2, Err(FileFail::TooLong)),
        ("b", 3, Err(FileFail::Failed)),
    ];
    for (name, limit, want) in calls {
        assert!(rt;
            reads(alloc, &mut files, name, limit, want),
            "{name} {limit}"
        );
    }
    let mut files = SureFiles::new(again);
    let calls: [(&str, u64, Content); 3] = [
        ("a", 3, Ok(b"xyz")),
        ("a", 2, Err(FileFail::TooLong)),
        ("b", 0, Ok(b"")),
    ];
    for (name, limit, want) in calls {
        assert!(rt;
            reads(alloc, &mut files, name, limit, want),
            "{name} {limit}"
        );
    }
}

#[test]
fn sources_end_and_stay_ended(rt: HostRuntime) {
    let alloc = rt.alloc();
    let (Ok(bytes), Ok(again), Ok(fails)) = (
        copy_list(alloc, b"ab"),
        copy_list(alloc, b"ab"),
        one_call(alloc, 2),
    ) else {
        panic!(rt; "no memory");
    };
    let mut source = MemSource::new(bytes, fails);
    for want in [
        Ok(Some(b'a')),
        Err(Failed),
        Ok(Some(b'b')),
        Ok(None),
        Ok(None),
    ] {
        assert_eq!(rt; source.take(), want);
    }
    let mut source = SureSource::new(again);
    for want in [Ok(Some(b'a')), Ok(Some(b'b')), Ok(None), Ok(None)] {
        assert_eq!(rt; source.take(), want);
    }
}

#[test]
fn sinks_keep_or_count_what_they_got(rt: HostRuntime) {
    let alloc = rt.alloc();
    let Ok(fails) = one_call(alloc, 1) else {
        panic!(rt; "no memory");
    };
    let mut sink = MemSink::new(alloc, fails);
    let puts: [(&[u8], Result<(), PutFail>); 3] = [
        (b"no", Err(PutFail::Failed)),
        (b"Hi", Ok(())),
        (b"!", Ok(())),
    ];
    for (bytes, want) in puts {
        assert_eq!(rt; sink.put(bytes), want);
    }
    assert!(rt; sink.bytes().as_slice() == b"Hi!".as_slice());
    let mut sure = SureSink::new(alloc);
    let mut count = CountSink::new();
    for bytes in [b"Hi", b"!?"] {
        assert_eq!(rt; sure.put(bytes), Ok(()));
        assert_eq!(rt; count.put(bytes), Ok(()));
    }
    assert!(rt; sure.bytes().as_slice() == b"Hi!?".as_slice());
    assert_eq!(rt; count.count(), 4);
}

/// A file of three blocks in the folder of temporary files, a folder, and devices that are endless or empty.
#[test]
fn disk_files_are_read_whole(rt: HostRuntime) -> io::Result<()> {
    let alloc = rt.alloc();
    let name = format!(in alloc; "/tmp/rd_io_disk_files_{}", process::id(rt.process()))?;
    let mut content = Vec::new(alloc);
    content.resize(12_000, b'x')?;
    fs::write(&rt, name.as_str(), content.as_slice())?;
    let mut files = DiskFiles::new(rt);
    let whole = files.read(alloc, name.as_str(), 12_000);
    let long = files.read(alloc, name.as_str(), 11_999);
    fs::remove_file(&rt, name.as_str())?;
    match whole {
        Ok(bytes) => assert!(rt; bytes.as_slice() == content.as_slice()),
        Err(_) => panic!(rt; "not read"),
    }
    match long {
        Ok(_) => panic!(rt; "read past the limit"),
        Err(fail) => assert_eq!(rt; fail, FileFail::TooLong),
    }
    let gone = files.read(alloc, name.as_str(), 12_000);
    assert!(rt; gone.is_err());
    let calls: [(&str, u64, Content); 4] = [
        ("/", 9, Err(FileFail::Failed)),
        ("", 9, Err(FileFail::Failed)),
        ("/dev/zero", 9_999, Err(FileFail::TooLong)),
        ("/dev/null", 0, Ok(b"")),
    ];
    for (name, limit, want) in calls {
        assert!(rt; reads(alloc, &mut files, name, limit, want), "{name}");
    }
    Ok(())
}

/// A test's standard input is empty.
#[test]
fn standard_input_ends_and_stays_ended(rt: HostRuntime) {
    let mut source = StdSource::new(rt.stdin());
    assert_eq!(rt; source.take(), Ok(None));
    assert_eq!(rt; source.take(), Ok(None));
}

#[test]
fn standard_output_takes_bytes(rt: HostRuntime) {
    let mut out = StdSink::new(rt.stdout());
    assert_eq!(rt; out.put(b"on out\n"), Ok(()));
}

#[test]
fn standard_error_takes_bytes(rt: HostRuntime) {
    let mut err = ErrSink::new(rt.stderr());
    assert_eq!(rt; err.put(b"on err\n"), Ok(()));
}

/// A stream that moves two bytes a call, ends after three calls of `read`, and whose call with this number fails.
#[derive(Drop)]
struct Slow {
    calls: u64,
    fails: u64,
}

impl Slow {
    fn new(fails: u64) -> Slow {
        Slow { calls: 0, fails }
    }

    /// One more call, which moves at most this many bytes.
    fn moves(&mut self, most: usize) -> io::Result<usize>
        ensures { IfOk result (λ n. n ≤ most) }
    {
        self.calls = self.calls.saturating_add(1);
        if self.calls == self.fails {
            return Err(Error::from(ErrorKind::BrokenPipe));
        }
        Ok(most.min(2))
    }
}

impl Write for Slow {
    fn write(&mut self, buf: &[u8]) -> io::Result<usize> {
        self.moves(buf.len())
    }

    fn flush(&mut self) -> io::Result<()> {
        Ok(())
    }
}

impl Read for Slow {
    fn read(&mut self, buf: &mut [u8]) -> io::Result<usize> {
        let n = self.moves(buf.len())?;
        if self.calls > 3 { Ok(0) } else { Ok(n) }
    }
}

#[test]
fn slow_streams_are_moved_whole_or_fail(rt: HostRuntime) {
    let failed = Err(PutFail::Failed);
    for (fails, want) in [(0, Ok(())), (1, failed), (3, failed), (4, Ok(()))] {
        let mut sink = StreamSink::new(Slow::new(fails));
        assert_eq!(rt; sink.put(b"abcde"), want, "failing at {fails}");
    }
    let mut room = [0u8; 3];
    let mut full = StreamSink::new(&mut room[..]);
    assert_eq!(rt; full.put(b"abcde"), failed);
    let mut source = StreamSource::new(Slow::new(2));
    for want in [Ok(Some(0)), Err(Failed), Ok(Some(0)), Ok(None), Ok(None)] {
        assert_eq!(rt; source.take(), want);
    }
    let reads: [(u64, u64, Content); 4] = [
        (0, 6, Ok(&[0; 6])),
        (0, 5, Err(FileFail::TooLong)),
        (2, 6, Err(FileFail::Failed)),
        (4, 6, Err(FileFail::Failed)),
    ];
    for (fails, limit, want) in reads {
        let mut reader = Slow::new(fails);
        let fits = match (whole(rt.alloc(), &mut reader, limit), want) {
            (Ok(bytes), Ok(content)) => bytes.as_slice() == content,
            (Err(fail), Err(reason)) => fail == reason,
            _ => false,
        };
        assert!(rt; fits, "failing at {fails}, limit {limit}");
    }
}
