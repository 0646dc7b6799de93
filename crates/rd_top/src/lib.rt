//! The top call: words, files, a source and two sinks in, a status out.
//!
//!     read_main check FILE
//!     read_main print FILE
//!     read_main compile FILE --slot-seed N --reg-seed N
//!     read_main build FILE --slot-seed N --reg-seed N --layout-seed N
//!     read_main lay FILE --layout-seed N
//!     read_main run FILE --steps N
//!     read_main show FILE --steps N
//!     read_main eval FILE --steps N
//!     read_main watch FILE --script FILE
//!     read_main certify FILE
//!     read_main gen --number N
//!
//! `rd_clap` reads the command line, `commands` and `certifying` do the work: over `file`, which reads a
//! file of a kind, `put`, which puts a result at once, and `stream`, which puts a run's output as it comes.
//! `answer` has the statuses and `lines` their lines. What a command does to the outside stands in
//! `specs/Commands.antt`, and what the whole program does in `specs/Program.antt`.
#![tactic(auto)]

ghost use Rattle.std.specs.Prelude.{Some, map, string_bytes};
ghost use Rattle.rd_words.specs.Asked.{asked};
ghost use Rattle.rd_top.specs.Commands.{IsWithin, Means};
ghost use Rattle.rd_top.specs.Program.{IsAnswered, IsDone};
ghost use Rattle.rd_top.specs.Telling.{Tells, TellsLine};
ghost use Rattle.rd_top.specs.World.{KeepsCounts, world};

use answer::{Answer, status};
use certifying::certify_file;
use commands::{
    build_file, check_file, compile_file, eval_file, gen_text, lay_file, print_file, run_file,
    show_file, watch_file,
};
use lines::line;
use rd_clap::read_line;
use rd_io::{Files, PutFail, Sink, Source};
use rd_words::Command;
use std::alloc::Global;

pub mod answer;
pub mod certifying;
pub mod commands;
pub mod file;
pub mod kinds;
pub mod law;
pub mod lines;
pub mod machine;
pub mod making;
pub mod meaning;
pub mod put;
pub mod report;
pub mod stream;

/// Does what a command asks for; puts nothing on the sink for messages.
fn work<F: Files, I: Source, O: Sink>(
    alloc: Global,
    command: Command,
    files: &mut F,
    input: &mut I,
    out: &mut O,
) -> Answer
    requires { IsWithin (asked command) }
    ensures means { Means (Some (asked command.entry))
        (world (F.told files.old) (I.told input.old) (O.told out.old))
        (world (F.told files.new) (I.told input.new) (O.told out.new)) result }
    ensures keeps { KeepsCounts (world (F.told files.old) (I.told input.old) (O.told out.old))
        (world (F.told files.new) (I.told input.new) (O.told out.new)) result }
{
    match command {
        Command::Check { file } => check_file(alloc, file, files),
        Command::Certify { file } => certify_file(alloc, file, files),
        Command::Gen { number } => gen_text(alloc, number, out),
        Command::Print { file } => print_file(alloc, file, files, out),
        Command::Compile {
            file,
            slot_seed,
            reg_seed,
        } => compile_file(alloc, file, slot_seed, reg_seed, files, out),
        Command::Build {
            file,
            slot_seed,
            reg_seed,
            layout_seed,
        } => build_file(alloc, file, slot_seed, reg_seed, layout_seed, files, out),
        Command::Lay { file, layout_seed } => lay_file(alloc, file, layout_seed, files, out),
        Command::Run { file, steps } => run_file(alloc, file, steps, files, input, out),
        Command::Show { file, steps } => show_file(alloc, file, steps, files, input, out),
        Command::Eval { file, steps } => eval_file(alloc, file, steps, files, input, out),
        Command::Watch { file, script } => watch_file(alloc, file, script, files, input, out),
    }
}

/// Does what the words ask for.
#[tactic(auto, using(crate::proofs::ByCommand::unread_is_done, crate::proofs::ByCommand::is_within))]
fn answered<F: Files, I: Source, O: Sink>(
    alloc: Global,
    words: &[String],
    files: &mut F,
    input: &mut I,
    out: &mut O,
) -> Answer
    ensures done { IsDone (map string_bytes words.now)
        (world (F.told files.old) (I.told input.old) (O.told out.old))
        (world (F.told files.new) (I.told input.new) (O.told out.new)) result }
    ensures keeps { KeepsCounts (world (F.told files.old) (I.told input.old) (O.told out.old))
        (world (F.told files.new) (I.told input.new) (O.told out.new)) result }
{
    match read_line(alloc, words) {
        Ok(Some(command)) => work(alloc, command, files, input, out),
        Ok(None) => Answer::Words,
        Err(_) => Answer::Memory,
    }
}

/// Puts a line, unless it is empty, and answers the status; a sink that fails doesn't change it.
///
/// Where memory is wanting for the put, the status is 11.
fn say<E: Sink>(line: &[u8], status: u8, err: &mut E) -> u8
    ensures { TellsLine result status line.now (E.told err.old) (E.told err.new) }
{
    if line.is_empty() {
        return status;
    }
    match err.put(line) {
        Ok(()) => status,
        Err(PutFail::Failed) => status,
        Err(PutFail::NoMemory) => 11,
    }
}

/// Puts the line of an answer on the sink for messages, where it has one.
///
/// A sink that fails changes no status. Where memory is wanting for the line, the status is 11.
#[tactic(auto, using(crate::proofs::Told::told_line, crate::proofs::Told::never_put))]
fn finish<E: Sink>(alloc: Global, answer: &Answer, err: &mut E) -> u8
    ensures { Tells result answer.now (E.told err.old) (E.told err.new) }
{
    match line(alloc, answer) {
        Ok(line) => say(line.as_slice(), status(answer), err),
        Err(_) => 11,
    }
}

/// The whole program: does what the words ask for, and answers the status: docs/command-line.md.
///
/// `words` are the command line without the program's name. On statuses 2 to 8 and 24 nothing is written
/// on `out`; on 9 and 11 a prefix is. `err` gets the line of the status.
pub fn top<F: Files, I: Source, O: Sink, E: Sink>(
    alloc: Global,
    words: &[String],
    files: &mut F,
    input: &mut I,
    out: &mut O,
    err: &mut E,
) -> u8
    ensures { IsAnswered (map string_bytes words.now)
        (world (F.told files.old) (I.told input.old) (O.told out.old))
        (world (F.told files.new) (I.told input.new) (O.told out.new))
        (E.told err.old) (E.told err.new) result }
{
    let answer = answered(alloc, words, files, input, out);
    finish(alloc, &answer, err)
}
