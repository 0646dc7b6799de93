//! The words of a command line as one command with its values, or none.
//!
//!     run FILE --steps N
//!     run --steps=N FILE
//!
//! ask for the same: FILE and the options stand in any order, each once, and a value stands behind its
//! option or in it. `arguments` reads the words one by one, `read_words` what they ask for. What a
//! reading of words is stands in `specs/Words.antt`, over `specs/Arguments.antt`. Takes no memory.
#![tactic(auto)]

ghost use Rattle.std.specs.Prelude.{◌≡◌, ℕ, List as Row, map, string_bytes};
ghost use Rattle.std.specs.Option.{option_copied};
ghost use Rattle.rd_words.specs.Asked.{all_asked};
ghost use Rattle.rd_words.specs.Read.{build_of, by_command, compile_of, file_alone, file_and_number, gen_of, number_given, reading_of, watch_of};
ghost use Rattle.rd_words.specs.Shown.{one_shown};
ghost use Rattle.rd_words.specs.Words.{IsReading, IsReadingOf, Reading};

use arguments::{count, file, value};
use rd_num::numeral::decimal;

pub mod arguments;
#[cfg(test)]
mod tests;

/// A command with its values.
#[derive(Clone, Copy)]
pub enum Command<'a> {
    Compile {
        file: &'a str,
        slot_seed: u64,
        reg_seed: u64,
    },
    Build {
        file: &'a str,
        slot_seed: u64,
        reg_seed: u64,
        layout_seed: u64,
    },
    Lay {
        file: &'a str,
        layout_seed: u64,
    },
    Run {
        file: &'a str,
        steps: u64,
    },
    Show {
        file: &'a str,
        steps: u64,
    },
    Eval {
        file: &'a str,
        steps: u64,
    },
    Watch {
        file: &'a str,
        script: &'a str,
    },
    Check {
        file: &'a str,
    },
    Print {
        file: &'a str,
    },
    Certify {
        file: &'a str,
    },
    /// Writes the text of a module of so many functions.
    Gen {
        number: u64,
    },
}

/// The most functions of a generated module, `main` aside.
const MOST_FUNCTIONS: u64 = 4000;

/// The most digits of a number.
const MOST_DIGITS: usize = 20;

/// The number that an option is given: 1 to 20 decimal digits of at most 2^64 - 1.
fn number(words: &[String], option: &str) -> Option<u64>
    ensures { result ≡ number_given option.now (map string_bytes words.now) }
{
    let word = value(words, option)?;
    decimal(word.as_bytes(), MOST_DIGITS, 1 << 64)
}

/// What `compile` is asked for by the words behind it.
fn compile<'a>(words: &'a [String]) -> Option<Command<'a>>
    ensures { all_asked result ≡ compile_of (map string_bytes words.now) }
{
    if count(words)? != 3 {
        return None;
    }
    let file = file(words)?;
    let slot_seed = number(words, "--slot-seed")?;
    let reg_seed = number(words, "--reg-seed")?;
    Some(Command::Compile {
        file,
        slot_seed,
        reg_seed,
    })
}

/// What `build` is asked for by the words behind it.
fn build<'a>(words: &'a [String]) -> Option<Command<'a>>
    ensures { all_asked result ≡ build_of (map string_bytes words.now) }
{
    if count(words)? != 4 {
        return None;
    }
    let file = file(words)?;
    let slot_seed = number(words, "--slot-seed")?;
    let reg_seed = number(words, "--reg-seed")?;
    let layout_seed = number(words, "--layout-seed")?;
    Some(Command::Build {
        file,
        slot_seed,
        reg_seed,
        layout_seed,
    })
}

/// The file and the one number of a command that has no more.
fn one_number<'a>(words: &'a [String], option: &str) -> Option<(&'a str, u64)>
    ensures { one_shown result ≡ file_and_number option.now (map string_bytes words.now) }
{
    if count(words)? != 2 {
        return None;
    }
    let file = file(words)?;
    let n = number(words, option)?;
    Some((file, n))
}

/// What `watch` is asked for by the words behind it.
fn watch<'a>(words: &'a [String]) -> Option<Command<'a>>
    ensures { all_asked result ≡ watch_of (map string_bytes words.now) }
{
    if count(words)? != 2 {
        return None;
    }
    let file = file(words)?;
    let script = value(words, "--script")?;
    Some(Command::Watch { file, script })
}

/// The file of a command that has nothing else.
fn one_file<'a>(words: &'a [String]) -> Option<&'a str>
    ensures { option_copied result ≡ file_alone (map string_bytes words.now) }
{
    if count(words)? != 1 {
        return None;
    }
    file(words)
}

/// What `gen` is asked for by the words behind it.
fn gen_text<'a>(words: &'a [String]) -> Option<Command<'a>>
    ensures { all_asked result ≡ gen_of (map string_bytes words.now) }
{
    if count(words)? != 1 {
        return None;
    }
    let number = number(words, "--number")?;
    if number >= 1 && number <= MOST_FUNCTIONS {
        Some(Command::Gen { number })
    } else {
        None
    }
}

/// What a command is asked for by the words behind it.
fn of_command<'a>(command: &str, words: &'a [String]) -> Option<Command<'a>>
    ensures { all_asked result ≡ by_command command.now (map string_bytes words.now) }
{
    match command {
        "compile" => compile(words),
        "build" => build(words),
        "lay" => {
            let (file, layout_seed) = one_number(words, "--layout-seed")?;
            Some(Command::Lay { file, layout_seed })
        }
        "run" => {
            let (file, steps) = one_number(words, "--steps")?;
            Some(Command::Run { file, steps })
        }
        "show" => {
            let (file, steps) = one_number(words, "--steps")?;
            Some(Command::Show { file, steps })
        }
        "eval" => {
            let (file, steps) = one_number(words, "--steps")?;
            Some(Command::Eval { file, steps })
        }
        "watch" => watch(words),
        "check" => {
            let file = one_file(words)?;
            Some(Command::Check { file })
        }
        "print" => {
            let file = one_file(words)?;
            Some(Command::Print { file })
        }
        "certify" => {
            let file = one_file(words)?;
            Some(Command::Certify { file })
        }
        "gen" => gen_text(words),
        _ => None,
    }
}

/// What the words ask for, or none.
fn asked_for<'a>(words: &'a [String]) -> Option<Command<'a>>
    ensures { all_asked result ≡ reading_of (map string_bytes words.now) }
{
    match words {
        [command, others @ ..] => of_command(command.as_str(), others),
        [] => None,
    }
}

/// What the words ask for; `None` comes exactly where they ask for nothing. Takes no memory.
#[tactic(auto, using(crate::proofs::Exact::reading_exact))]
pub fn read_words<'a>(words: &'a [String]) -> Option<Command<'a>>
    ensures { IsReadingOf (map string_bytes words.now) (all_asked result) }
{
    asked_for(words)
}

/// A law: words ask for one thing at most.
#[tactic(auto, using(crate::proofs::Exact::one_reading))]
pub fn words_ask_for_one()
    ensures { (words : Row (Row ℕ)) (reading : Reading) (other : Reading) →
        IsReading words reading →
        IsReading words other → reading ≡ other }
{}
