//! The commands as `clap` knows them: each with FILE and its options.
//!
//! `gen` has FILE too, though no line that names one comes to it.
//! The first word is the command, and no word asks for help or for a version. What is given twice
//! is taken as it was given last, and nothing is required: which words ask for anything is
//! decided before `clap` reads them. The same for the proofs stands in `specs/Program.antt`.

ghost use Rattle.std.specs.Prelude.{◌≡◌, IfOk, codes, false};
ghost use Rattle.clap.specs.Words.{rule_of};
ghost use Rattle.rd_clap.specs.Program.{IsCommand, bare_app, build_app, compile_app, option_rule, program_app, with_file, with_option};

use clap::{Arg, Command};
use std::alloc::{AllocError, Global};

/// An option, which takes one value. Its name here has no dashes.
fn option<'a>(alloc: Global, name: &'a str) -> Arg<'a>
    ensures rule { rule_of result ≡ option_rule name.now }
    ensures own { result.global ≡ false }
{
    Arg::new(alloc, name).long(name)
}

/// A command with a file and no options.
fn file_command<'a>(alloc: Global, name: &'a str) -> Result<Command<'a>, AllocError>
    ensures { IfOk result (λ c. IsCommand c (with_file name.now)) }
{
    let bare = Command::new(alloc, name);
    let file = Arg::new(alloc, "FILE");
    let command = bare.arg(file)?;
    Ok(command)
}

/// A command with a file and an option.
fn option_command<'a>(
    alloc: Global,
    name: &'a str,
    given: &'a str,
) -> Result<Command<'a>, AllocError>
    ensures { IfOk result (λ c. IsCommand c (with_option name.now given.now)) }
{
    let first = file_command(alloc, name)?;
    let given = option(alloc, given);
    let command = first.arg(given)?;
    Ok(command)
}

fn compile<'a>(alloc: Global) -> Result<Command<'a>, AllocError>
    ensures { IfOk result (λ c. IsCommand c compile_app) }
{
    let first = option_command(alloc, "compile", "slot-seed")?;
    let given = option(alloc, "reg-seed");
    let command = first.arg(given)?;
    Ok(command)
}

fn build<'a>(alloc: Global) -> Result<Command<'a>, AllocError>
    ensures { IfOk result (λ c. IsCommand c build_app) }
{
    let first = option_command(alloc, "build", "slot-seed")?;
    let second = first.arg(option(alloc, "reg-seed"))?;
    let command = second.arg(option(alloc, "layout-seed"))?;
    Ok(command)
}

/// The program, before it has commands.
fn bare<'a>(alloc: Global) -> Command<'a>
    ensures { IsCommand result bare_app }
{
    Command::new(alloc, "read_main")
        .no_binary_name(true)
        .disable_help_flag(true)
        .disable_help_subcommand(true)
        .disable_version_flag(true)
        .args_override_self(true)
        .subcommand_required(true)
}

/// The program with all its commands.
pub fn program<'a>(alloc: Global) -> Result<Command<'a>, AllocError>
    ensures { IfOk result (λ c. IsCommand c program_app) }
{
    let with_compile = bare(alloc).subcommand(compile(alloc)?)?;
    let with_build = with_compile.subcommand(build(alloc)?)?;
    let with_lay = with_build.subcommand(option_command(alloc, "lay", "layout-seed")?)?;
    let with_run = with_lay.subcommand(option_command(alloc, "run", "steps")?)?;
    let with_show = with_run.subcommand(option_command(alloc, "show", "steps")?)?;
    let with_eval = with_show.subcommand(option_command(alloc, "eval", "steps")?)?;
    let with_watch = with_eval.subcommand(option_command(alloc, "watch", "script")?)?;
    let with_check = with_watch.subcommand(file_command(alloc, "check")?)?;
    let with_print = with_check.subcommand(file_command(alloc, "print")?)?;
    let with_certify = with_print.subcommand(file_command(alloc, "certify")?)?;
    let with_gen = with_certify.subcommand(option_command(alloc, "gen", "number")?)?;
    Ok(with_gen)
}
