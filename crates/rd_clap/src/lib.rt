//! The words of a command line read with `clap`, where they ask for something.
//!
//!     run FILE --steps N
//!     run --steps=N FILE
//!
//! `rd_words` decides whether words ask for anything, so what `clap` takes besides, as `--`, a
//! number with its sign or an option that is given twice, never comes to it. Words that ask for
//! something are parsed by the commands of `program`, and `values` makes one command of what was
//! found: what the words ask for. Why `clap` takes all those words, and finds that, stands in
//! `proofs/`.
#![tactic(auto)]

ghost use Rattle.std.specs.Prelude.{◌≡◌, IfErr, IfOk, map, string_bytes};
ghost use Rattle.clap.specs.Words.{kind_of};
ghost use Rattle.rd_clap.specs.Found.{AreFound};
ghost use Rattle.rd_words.specs.Asked.{all_asked, asked};
ghost use Rattle.rd_words.specs.Words.{IsReading, IsReadingOf, Reading};

use clap::ArgMatches;
use clap::error::ErrorKind;
use program::program;
use rd_num::width::NoMemory;
use rd_words::{Command, read_words};
use std::alloc::Global;
use values::found;

pub mod program;
pub mod values;

/// What `clap` finds in words that ask for a command; an error is want of memory.
fn parsed<'a>(
    alloc: Global,
    words: &'a [String],
    command: Command<'a>,
) -> Result<ArgMatches<'a>, clap::Error>
    requires { IsReading (map string_bytes words.now) (asked command) }
    ensures found { IfOk result (AreFound (asked command.entry)) }
    ensures refused { IfErr result (λ e. kind_of e ≡ ErrorKind.OutOfMemory) }
{
    let commands = program(alloc)?;
    commands.try_get_matches_from(words)
}

/// What the words ask for; `Ok(None)` comes exactly where they ask for nothing.
#[tactic(auto, using(crate::proofs::Matches::asked_is_read, crate::proofs::Matches::asks))]
pub fn read_line<'a>(alloc: Global, words: &'a [String]) -> Result<Option<Command<'a>>, NoMemory>
    ensures read { IfOk result (λ r. IsReadingOf (map string_bytes words.now) (all_asked r)) }
    ensures asked { IfErr result (λ _. (r : Reading) × IsReading (map string_bytes words.now) r) }
{
    match read_words(words) {
        Some(command) => match parsed(alloc, words, command) {
            Ok(matches) => Ok(found(&matches)),
            Err(_) => Err(NoMemory),
        },
        None => Ok(None),
    }
}
