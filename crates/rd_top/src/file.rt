//! Reading a file of a kind: a module's text, an object, an image or a script.
//!
//! `read_file` is the one place where a file is read and where its faults become answers: 3 where it
//! could not be read, 8 where it is too long, and 4 to 7 where its bytes are refused. What a kind
//! is stands in `specs/Files.antt`, and the four kinds in `kinds`.

ghost use Rattle.std.specs.Prelude.{◌≡◌, ◌≤◌, IfOk, IfErr, OnOk, length};
ghost use Rattle.rd_top.specs.Files.{Kind, IsFileOf, NotTaken, Unread};
ghost use Rattle.rd_top.specs.World.{KeepsFiles};

use crate::answer::Answer;
use rd_io::{FileFail, Files};
use std::alloc::Global;

/// What the bytes of a file are read as.
pub trait FileKind: Sized {
    ghost kind: { Kind Self };

    /// The most bytes of a file. Takes no memory.
    fn limit() -> u64
        ensures { result ≡ kind.limit };

    /// The value that bytes spell, or why there is none.
    fn parse(alloc: Global, bytes: &[u8]) -> Result<Self, Answer>
        requires { length bytes.now ≤ kind.limit }
        ensures spelled { IfOk result (kind.Spells bytes.now) }
        ensures unread { IfErr result (Unread kind bytes.now) };
}

/// The value that a file spells, or the answer that says why there is none.
#[tactic(auto, using(crate::proofs::Told::content_is_short))]
pub fn read_file<V: FileKind, F: Files>(
    alloc: Global,
    name: &str,
    files: &mut F,
) -> Result<V, Answer>
    ensures taken { IfOk result (IsFileOf V.kind ((F.told files.old).held name.now)) }
    ensures refused { IfErr result
        (NotTaken V.kind name.now (F.told files.old) (F.told files.new)) }
    ensures same { OnOk result (F.told files.new ≡ F.told files.old) }
    ensures kept { IfErr result (KeepsFiles (F.told files.old) (F.told files.new)) }
{
    match files.read(alloc, name, V::limit()) {
        Ok(bytes) => V::parse(alloc, bytes.as_slice()),
        Err(FileFail::Failed) => Err(Answer::File),
        Err(FileFail::TooLong) => Err(Answer::Long),
        Err(FileFail::NoMemory) => Err(Answer::Memory),
    }
}
