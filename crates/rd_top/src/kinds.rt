//! The kinds of files, each with its limit, its reader and its refusals.
//!
//! A kind's definition stands in `specs/Kinds.antt`. A further kind is one more `impl` here.

ghost use Rattle.std.specs.Prelude.{◌≡◌, ◌≤◌, IfOk, IfErr, length};
ghost use Rattle.ir_core.specs.Built.{IsBuilt};
ghost use Rattle.ir_print.specs.ReadsBack.{ReadsBack};
ghost use Rattle.rd_top.specs.Kinds.{SpellsValid, answer_to, module_text, object_file, image_file, script_file};
ghost use Rattle.rd_top.specs.Files.{Unread};
ghost use Rattle.rd_top.specs.declared.answer.Answer.TheVariants.{Refused};
ghost use Rattle.rd_top.specs.declared.answer.Refusal.TheVariants.{Module as OfModule};

use crate::answer::{Answer, ModuleFault, ObjectFault, Refusal};
use crate::file::FileKind;
use elf_file::ImageFault;
use ir_check::{CheckFault, check as check_module};
use ir_core::module::Module;
use ir_core::valid::Valid;
use ir_lex::{LexFault, lex};
use ir_parse::parse::{ParseFault, parse};
use obj_check::check;
use obj_check::fault::ShapeFault;
use obj_core::checked::Checked;
use obj_file::fault::FormFault;
use rd_num::bytes::bytes_known;
use std::alloc::Global;
use watch_script::parse::{ScriptFault, parse_script};
use watch_script::script::Script;
use x86_core::image::Image;

/// The most bytes of a module's text: 8 MiB.
const TEXT_LIMIT: u64 = 8388608;

/// The most bytes of an object's or an image's file: 256 MiB.
const BINARY_LIMIT: u64 = 268435456;

/// The most bytes of a script's file: 1 MiB.
const SCRIPT_LIMIT: u64 = 1048576;

/// An answer that names what is wrong with a module's text.
fn refused(fault: ModuleFault) -> Answer
    ensures { result ≡ Refused (OfModule fault) }
{
    Answer::Refused(Refusal::Module(fault))
}

/// The module that a text spells.
fn module_of(alloc: Global, text: &[u8]) -> Result<Module, Answer>
    requires { length text.now ≤ 8388608 }
    ensures text { IfOk result (ReadsBack text.now) }
    ensures built { IfOk result IsBuilt }
    ensures refused { IfErr result (Unread module_text text.now) }
{
    bytes_known(text);
    let tokens = match lex(alloc, text) {
        Ok(tokens) => tokens,
        Err(LexFault::At { place }) => return Err(refused(ModuleFault::Lex(place))),
        Err(LexFault::NoMemory) => return Err(Answer::Memory),
    };
    match parse(alloc, &tokens, text.len() as u64) {
        Ok(module) => Ok(module),
        Err(ParseFault::Grammar { place }) => Err(refused(ModuleFault::Grammar(place))),
        Err(ParseFault::Unsupported { place, word }) => {
            Err(refused(ModuleFault::Unsupported { place, word }))
        }
        Err(ParseFault::NoMemory) => Err(Answer::Memory),
    }
}

/// The answer that names the first refusal of a module.
fn invalid(fault: CheckFault) -> Answer
    ensures { result ≡ answer_to fault }
{
    match fault {
        CheckFault::Doubled { name } => refused(ModuleFault::Doubled(name)),
        CheckFault::Unknown { name } => refused(ModuleFault::Unknown(name)),
        CheckFault::Limit { which, count } => refused(ModuleFault::Limited { which, count }),
        CheckFault::External { name } => refused(ModuleFault::External(name)),
        CheckFault::NoMain => refused(ModuleFault::NoMain),
        CheckFault::BadType { spot } => refused(ModuleFault::BadType(spot)),
        CheckFault::NoMemory => Answer::Memory,
    }
}

/// The valid module that a text spells.
#[tactic(auto, using(crate::proofs::Invalid::refused_so))]
fn valid_of(alloc: Global, text: &[u8]) -> Result<Valid, Answer>
    requires { length text.now ≤ 8388608 }
    ensures valid { IfOk result (SpellsValid text.now) }
    ensures refused { IfErr result (Unread module_text text.now) }
{
    let whole = module_of(alloc, text)?;
    match check_module(alloc, whole) {
        Ok(valid) => Ok(valid),
        Err((_whole, fault)) => Err(invalid(fault)),
    }
}

impl FileKind for Valid {
    ghost kind = { module_text };

    fn limit() -> u64 {
        TEXT_LIMIT
    }

    fn parse(alloc: Global, bytes: &[u8]) -> Result<Valid, Answer> {
        valid_of(alloc, bytes)
    }
}

impl FileKind for Checked {
    ghost kind = { object_file };

    fn limit() -> u64 {
        BINARY_LIMIT
    }

    fn parse(alloc: Global, bytes: &[u8]) -> Result<Checked, Answer> {
        let object = match obj_file::read::read(alloc, bytes) {
            Ok(object) => object,
            Err(FormFault::At { place }) => {
                return Err(Answer::Refused(Refusal::Object(ObjectFault::Form(place))));
            }
            Err(FormFault::NoMemory) => return Err(Answer::Memory),
        };
        match check(alloc, object) {
            Ok(checked) => Ok(checked),
            Err(refused) => match refused.fault {
                ShapeFault::Rule { rule, spot, offset } => {
                    let fault = ObjectFault::Shape { rule, spot, offset };
                    Err(Answer::Refused(Refusal::Object(fault)))
                }
                ShapeFault::NoMemory => Err(Answer::Memory),
            },
        }
    }
}

impl FileKind for Image {
    ghost kind = { image_file };

    fn limit() -> u64 {
        BINARY_LIMIT
    }

    fn parse(alloc: Global, bytes: &[u8]) -> Result<Image, Answer> {
        match elf_file::read::read(alloc, bytes) {
            Ok(image) => Ok(image),
            Err(ImageFault::Rule { rule }) => Err(Answer::Refused(Refusal::Image(rule))),
            Err(ImageFault::NoMemory) => Err(Answer::Memory),
        }
    }
}

impl FileKind for Script {
    ghost kind = { script_file };

    fn limit() -> u64 {
        SCRIPT_LIMIT
    }

    fn parse(alloc: Global, bytes: &[u8]) -> Result<Script, Answer> {
        match parse_script(alloc, bytes) {
            Ok(script) => Ok(script),
            Err(ScriptFault::Line { line }) => Err(Answer::Refused(Refusal::Script(line))),
            Err(ScriptFault::NoMemory) => Err(Answer::Memory),
        }
    }
}
