//! How the program ends: the one place where status numbers stand.
//!
//! An `Answer` says what came of a command, and `status` is its number; its line stands in `lines`.
//! Answers are grouped by status, and what a line names is in the answer. What they are stands in
//! `specs/Answers.antt`; for people, in docs/command-line.md, "Statuses".

ghost use Rattle.std.specs.Prelude.{◌≡◌};
ghost use Rattle.rd_top.specs.Answers.{status_number, refusal_number, outcome_number};

use guard_check::fault::GuardFault;
use ir_core::limit::{Limit, Spot};
use ir_core::memory::Reason;
use ir_core::ty::Name;
use obj_check::fault::ShapeSpot;

/// What came of a command.
#[derive(Drop)]
pub enum Answer {
    /// What the command writes was written.
    Done,
    /// The module is valid, which is all that was asked.
    Valid,
    /// The object is guarded, which is all that was asked.
    Guarded,
    /// The object is well formed, and this rule of guards fails first in it.
    Unguarded(GuardFault),
    /// A run took its steps.
    Ran(Outcome),
    /// The words have no reading.
    Words,
    /// A file could not be read.
    File,
    /// A file is none of its kind.
    Refused(Refusal),
    /// A file is longer than its limit.
    Long,
    /// The output failed.
    Out,
    /// The input failed.
    Input,
    Memory,
}

/// How a run stands after its steps.
#[derive(Clone, Copy)]
pub enum Outcome {
    Ended(u8),
    Trapped(Trap),
    Going,
    Stopped(Stop),
    /// A module came to where its meaning claims nothing.
    Left(Reason),
}

/// What a program may come to by itself.
#[derive(Clone, Copy)]
pub enum Trap {
    Divide,
    Invalid,
    Breakpoint,
    /// A module came to `unreachable` or `llvm.trap`.
    Unreachable,
    /// A module called too deep.
    Depth,
}

/// What no compiled program comes to.
#[derive(Clone, Copy)]
pub enum Stop {
    PageFault,
    NoForm,
    NoFlag,
    BadCall,
}

/// What is wrong with a file.
#[derive(Drop)]
pub enum Refusal {
    Module(ModuleFault),
    Object(ObjectFault),
    /// The first rule of images that fails.
    Image(u8),
    /// The first bad line of a script, counted from 1.
    Script(u32),
}

/// What is wrong with a module's text, or with its module; names begin with their marks.
#[derive(Drop)]
pub enum ModuleFault {
    /// The byte where the first piece begins that is no token.
    Lex(u64),
    /// The byte where the first token begins with which no module's text goes on, or the text's end.
    Grammar(u64),
    /// The same, where that token is a word which is known and not supported.
    Unsupported { place: u64, word: Name },
    /// A name that is defined a second time.
    Doubled(Name),
    /// A name that has no definition of the kind that its place needs.
    Unknown(Name),
    /// A limit that is passed, and the count.
    Limited { which: Limit, count: u64 },
    /// A name from outside of the module that is used wrongly.
    External(Name),
    /// There is no `main` of one of its two types.
    NoMain,
    /// The first place where a rule of types fails.
    BadType(Spot),
}

/// What is wrong with an object.
#[derive(Drop)]
pub enum ObjectFault {
    /// Where the bytes leave the format.
    Form(u64),
    /// The first rule that isn't kept, and where.
    Shape {
        rule: u8,
        spot: ShapeSpot,
        offset: u32,
    },
}

/// The status of a refusal.
fn refusal_status(refusal: &Refusal) -> u8
    ensures { result ≡ refusal_number refusal.now }
{
    match refusal {
        Refusal::Module(_) => 4,
        Refusal::Object(_) => 5,
        Refusal::Image(_) => 6,
        Refusal::Script(_) => 7,
    }
}

/// The status of an outcome.
fn outcome_status(outcome: Outcome) -> u8
    ensures { result ≡ outcome_number outcome }
{
    match outcome {
        Outcome::Ended(_) => 0,
        Outcome::Trapped(_) => 20,
        Outcome::Going => 21,
        Outcome::Stopped(_) => 22,
        Outcome::Left(_) => 23,
    }
}

/// The status of an answer.
pub fn status(answer: &Answer) -> u8
    ensures { result ≡ status_number answer.now }
{
    match answer {
        Answer::Done | Answer::Valid | Answer::Guarded => 0,
        Answer::Unguarded(_) => 24,
        Answer::Ran(outcome) => outcome_status(*outcome),
        Answer::Words => 2,
        Answer::File => 3,
        Answer::Refused(refusal) => refusal_status(refusal),
        Answer::Long => 8,
        Answer::Out => 9,
        Answer::Input => 10,
        Answer::Memory => 11,
    }
}
