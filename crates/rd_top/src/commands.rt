//! The commands: each reads its files by their kinds, does its work, and answers.
//!
//! A command puts nothing on the sink for messages. What each does to the outside stands in
//! `specs/Commands.antt`; a further command is one more function here.

ghost use Rattle.rd_words.specs.Words.{IsWorkload};
ghost use Rattle.rd_top.specs.Commands.{Builds, Checks, Compiles, Evaluates, Generates, Lays, Prints, Runs, Shows, Watches};
ghost use Rattle.rd_top.specs.World.{KeepsCounts, KeepsFiles, KeepsOut, world};

use crate::answer::Answer;
use crate::file::read_file;
use crate::making::{generated_bytes, image_bytes, laid_bytes, object_bytes, printed_bytes};
use crate::put::put_whole;
use crate::report::{put_report, reported, seen_after};
use crate::stream::stream;
use ir_core::valid::Valid;
use obj_core::checked::Checked;
use rd_io::{Files, Sink, Source};
use std::alloc::Global;
use watch_script::script::Script;
use x86_core::image::Image;

/// `check`: says whether the module in a file is valid.
pub fn check_file<F: Files>(alloc: Global, file: &str, files: &mut F) -> Answer
    ensures means { Checks file.now (F.told files.old) (F.told files.new) result }
    ensures files { KeepsFiles (F.told files.old) (F.told files.new) result }
{
    let read: Result<Valid, Answer> = read_file(alloc, file, files);
    match read {
        Ok(_valid) => Answer::Valid,
        Err(answer) => answer,
    }
}

/// `print`: writes the canonical text of the module in a file.
pub fn print_file<F: Files, O: Sink>(
    alloc: Global,
    file: &str,
    files: &mut F,
    out: &mut O,
) -> Answer
    ensures means { Prints file.now (F.told files.old) (F.told files.new)
        (O.told out.old) (O.told out.new) result }
    ensures files { KeepsFiles (F.told files.old) (F.told files.new) result }
    ensures out { KeepsOut (O.told out.old) (O.told out.new) result }
{
    let valid: Valid = match read_file(alloc, file, files) {
        Ok(valid) => valid,
        Err(answer) => return answer,
    };
    match printed_bytes(alloc, &valid) {
        Ok(bytes) => put_whole(&bytes, out),
        Err(_) => Answer::Memory,
    }
}

/// `gen`: writes the text of a module of so many functions.
pub fn gen_text<O: Sink>(alloc: Global, number: u64, out: &mut O) -> Answer
    requires { IsWorkload number }
    ensures means { Generates number (O.told out.old) (O.told out.new) result }
    ensures out { KeepsOut (O.told out.old) (O.told out.new) result }
{
    match generated_bytes(alloc, number) {
        Ok(bytes) => put_whole(&bytes, out),
        Err(_) => Answer::Memory,
    }
}

/// `compile`: writes the object of the module in a file.
pub fn compile_file<F: Files, O: Sink>(
    alloc: Global,
    file: &str,
    slot_seed: u64,
    reg_seed: u64,
    files: &mut F,
    out: &mut O,
) -> Answer
    ensures means { Compiles file.now slot_seed reg_seed (F.told files.old) (F.told files.new)
        (O.told out.old) (O.told out.new) result }
    ensures files { KeepsFiles (F.told files.old) (F.told files.new) result }
    ensures out { KeepsOut (O.told out.old) (O.told out.new) result }
{
    let valid: Valid = match read_file(alloc, file, files) {
        Ok(valid) => valid,
        Err(answer) => return answer,
    };
    match object_bytes(alloc, &valid, slot_seed, reg_seed) {
        Ok(bytes) => put_whole(&bytes, out),
        Err(_) => Answer::Memory,
    }
}

/// `build`: writes the image of the module in a file.
pub fn build_file<F: Files, O: Sink>(
    alloc: Global,
    file: &str,
    slot_seed: u64,
    reg_seed: u64,
    layout_seed: u64,
    files: &mut F,
    out: &mut O,
) -> Answer
    ensures means { Builds file.now slot_seed reg_seed layout_seed
        (F.told files.old) (F.told files.new) (O.told out.old) (O.told out.new) result }
    ensures files { KeepsFiles (F.told files.old) (F.told files.new) result }
    ensures out { KeepsOut (O.told out.old) (O.told out.new) result }
{
    let valid: Valid = match read_file(alloc, file, files) {
        Ok(valid) => valid,
        Err(answer) => return answer,
    };
    match image_bytes(alloc, &valid, slot_seed, reg_seed, layout_seed) {
        Ok(bytes) => put_whole(&bytes, out),
        Err(_) => Answer::Memory,
    }
}

/// `lay`: writes the image of the object in a file.
pub fn lay_file<F: Files, O: Sink>(
    alloc: Global,
    file: &str,
    layout_seed: u64,
    files: &mut F,
    out: &mut O,
) -> Answer
    ensures means { Lays file.now layout_seed (F.told files.old) (F.told files.new)
        (O.told out.old) (O.told out.new) result }
    ensures files { KeepsFiles (F.told files.old) (F.told files.new) result }
    ensures out { KeepsOut (O.told out.old) (O.told out.new) result }
{
    let object: Checked = match read_file(alloc, file, files) {
        Ok(object) => object,
        Err(answer) => return answer,
    };
    match laid_bytes(alloc, &object, layout_seed) {
        Ok(bytes) => put_whole(&bytes, out),
        Err(_) => Answer::Memory,
    }
}

/// `run`: runs the image in a file for at most so many instructions.
pub fn run_file<F: Files, I: Source, O: Sink>(
    alloc: Global,
    file: &str,
    steps: u64,
    files: &mut F,
    input: &mut I,
    out: &mut O,
) -> Answer
    ensures means { Runs file.now steps
        (world (F.told files.old) (I.told input.old) (O.told out.old))
        (world (F.told files.new) (I.told input.new) (O.told out.new)) result }
    ensures keeps { KeepsCounts (world (F.told files.old) (I.told input.old) (O.told out.old))
        (world (F.told files.new) (I.told input.new) (O.told out.new)) result }
{
    let image: Image = match read_file(alloc, file, files) {
        Ok(image) => image,
        Err(answer) => return answer,
    };
    stream(alloc, &image, steps, input, out)
}

/// `show`: writes what is seen of the image in a file after at most so many instructions.
pub fn show_file<F: Files, I: Source, O: Sink>(
    alloc: Global,
    file: &str,
    steps: u64,
    files: &mut F,
    input: &mut I,
    out: &mut O,
) -> Answer
    ensures means { Shows file.now steps
        (world (F.told files.old) (I.told input.old) (O.told out.old))
        (world (F.told files.new) (I.told input.new) (O.told out.new)) result }
    ensures keeps { KeepsCounts (world (F.told files.old) (I.told input.old) (O.told out.old))
        (world (F.told files.new) (I.told input.new) (O.told out.new)) result }
{
    let image: Image = match read_file(alloc, file, files) {
        Ok(image) => image,
        Err(answer) => return answer,
    };
    put_report(seen_after(alloc, &image, steps, input), out)
}

/// `eval`: takes the module in a file for at most so many steps of its meaning.
pub fn eval_file<F: Files, I: Source, O: Sink>(
    alloc: Global,
    file: &str,
    steps: u64,
    files: &mut F,
    input: &mut I,
    out: &mut O,
) -> Answer
    ensures means { Evaluates file.now steps
        (world (F.told files.old) (I.told input.old) (O.told out.old))
        (world (F.told files.new) (I.told input.new) (O.told out.new)) result }
    ensures keeps { KeepsCounts (world (F.told files.old) (I.told input.old) (O.told out.old))
        (world (F.told files.new) (I.told input.new) (O.told out.new)) result }
{
    let module: Valid = match read_file(alloc, file, files) {
        Ok(module) => module,
        Err(answer) => return answer,
    };
    stream(alloc, &module, steps, input, out)
}

/// `watch`: writes the report on the events of the script in one file of the image in another.
pub fn watch_file<F: Files, I: Source, O: Sink>(
    alloc: Global,
    file: &str,
    script: &str,
    files: &mut F,
    input: &mut I,
    out: &mut O,
) -> Answer
    ensures means { Watches file.now script.now
        (world (F.told files.old) (I.told input.old) (O.told out.old))
        (world (F.told files.new) (I.told input.new) (O.told out.new)) result }
    ensures keeps { KeepsCounts (world (F.told files.old) (I.told input.old) (O.told out.old))
        (world (F.told files.new) (I.told input.new) (O.told out.new)) result }
{
    let image: Image = match read_file(alloc, file, files) {
        Ok(image) => image,
        Err(answer) => return answer,
    };
    let script: Script = match read_file(alloc, script, files) {
        Ok(script) => script,
        Err(answer) => return answer,
    };
    put_report(reported(alloc, &image, &script, input), out)
}
