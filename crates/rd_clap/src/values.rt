//! The command that `clap` found in the words, with its values.
//!
//! What is found is read by one name after another, and numbers as `rd_words` reads them. What
//! matches ask for stands in `specs/Found.antt`.

ghost use Rattle.std.specs.Prelude.{◌≡◌};
ghost use Rattle.std.specs.Option.{option_copied};
ghost use Rattle.clap.specs.Words.{first_of, found_of, rows_of, subcommand_rows_of};
ghost use Rattle.rd_clap.specs.Found.{build_in, command_in, compile_in, file_and_number_in, file_in, found_in, gen_in, number_in, watch_in};
ghost use Rattle.rd_words.specs.Asked.{all_asked};
ghost use Rattle.rd_words.specs.Shown.{one_shown};

use clap::ArgMatches;
use rd_num::numeral::decimal;
use rd_words::Command;

/// The most functions of a generated module, `main` aside.
const MOST_FUNCTIONS: u64 = 4000;

/// The most digits of a number.
const MOST_DIGITS: usize = 20;

/// The value of an argument.
fn value<'a>(matches: &ArgMatches<'a>, name: &str) -> Option<&'a str>
    ensures { option_copied result ≡ first_of name.now (rows_of (found_of matches.now)) }
{
    matches.get_str(name)
}

fn file<'a>(matches: &ArgMatches<'a>) -> Option<&'a str>
    ensures { option_copied result ≡ file_in (rows_of (found_of matches.now)) }
{
    value(matches, "FILE")
}

/// The number that an option was given.
fn number<'a>(matches: &ArgMatches<'a>, option: &str) -> Option<u64>
    ensures { result ≡ number_in option.now (rows_of (found_of matches.now)) }
{
    let word = value(matches, option)?;
    decimal(word.as_bytes(), MOST_DIGITS, 1 << 64)
}

fn compile<'a>(matches: &ArgMatches<'a>) -> Option<Command<'a>>
    ensures { all_asked result ≡ compile_in (rows_of (found_of matches.now)) }
{
    let file = file(matches)?;
    let slot_seed = number(matches, "slot-seed")?;
    let reg_seed = number(matches, "reg-seed")?;
    Some(Command::Compile {
        file,
        slot_seed,
        reg_seed,
    })
}

fn build<'a>(matches: &ArgMatches<'a>) -> Option<Command<'a>>
    ensures { all_asked result ≡ build_in (rows_of (found_of matches.now)) }
{
    let file = file(matches)?;
    let slot_seed = number(matches, "slot-seed")?;
    let reg_seed = number(matches, "reg-seed")?;
    let layout_seed = number(matches, "layout-seed")?;
    Some(Command::Build {
        file,
        slot_seed,
        reg_seed,
        layout_seed,
    })
}

/// The file and the one number of a command that has no more.
fn one_number<'a>(matches: &ArgMatches<'a>, option: &str) -> Option<(&'a str, u64)>
    ensures { one_shown result ≡ file_and_number_in option.now (rows_of (found_of matches.now)) }
{
    let file = file(matches)?;
    let n = number(matches, option)?;
    Some((file, n))
}

fn watch<'a>(matches: &ArgMatches<'a>) -> Option<Command<'a>>
    ensures { all_asked result ≡ watch_in (rows_of (found_of matches.now)) }
{
    let file = file(matches)?;
    let script = value(matches, "script")?;
    Some(Command::Watch { file, script })
}

fn gen_text<'a>(matches: &ArgMatches<'a>) -> Option<Command<'a>>
    ensures { all_asked result ≡ gen_in (rows_of (found_of matches.now)) }
{
    let number = number(matches, "number")?;
    if number >= 1 && number <= MOST_FUNCTIONS {
        Some(Command::Gen { number })
    } else {
        None
    }
}

/// The command of a name with the values that were found for it.
fn of_command<'a>(command: &str, matches: &ArgMatches<'a>) -> Option<Command<'a>>
    ensures { all_asked result ≡ command_in command.now (rows_of (found_of matches.now)) }
{
    match command {
        "compile" => compile(matches),
        "build" => build(matches),
        "lay" => {
            let (file, layout_seed) = one_number(matches, "layout-seed")?;
            Some(Command::Lay { file, layout_seed })
        }
        "run" => {
            let (file, steps) = one_number(matches, "steps")?;
            Some(Command::Run { file, steps })
        }
        "show" => {
            let (file, steps) = one_number(matches, "steps")?;
            Some(Command::Show { file, steps })
        }
        "eval" => {
            let (file, steps) = one_number(matches, "steps")?;
            Some(Command::Eval { file, steps })
        }
        "watch" => watch(matches),
        "check" => {
            let file = file(matches)?;
            Some(Command::Check { file })
        }
        "print" => {
            let file = file(matches)?;
            Some(Command::Print { file })
        }
        "certify" => {
            let file = file(matches)?;
            Some(Command::Certify { file })
        }
        "gen" => gen_text(matches),
        _ => None,
    }
}

/// The command that was found.
#[tactic(auto, using(crate::proofs::Matches::finds_command, crate::proofs::Matches::finds_none))]
pub fn found<'a>(matches: &ArgMatches<'a>) -> Option<Command<'a>>
    ensures { all_asked result ≡ found_in (subcommand_rows_of matches.now) }
{
    let (command, values) = matches.subcommand()?;
    of_command(command, values)
}
