//! The line of each answer, for people: the one place where lines stand.
//!
//! A line is a word or two, names and decimal numbers with one space between, and a line feed. What
//! they are stands in `specs/Answers.antt`; for people, in docs/command-line.md, "Statuses".

ghost use Rattle.std.specs.Prelude.{◌≡◌, ◌≢◌, ◌∷◌, ◌++◌, [], IfOk, OnOk, OnErr, decimal};
ghost use Rattle.rd_top.specs.Answers.{left_text, line_of, outcome_text, refusal_text, module_fault_text, unsupported_text, named_text, limit_word, type_text, shape_text, spot_word, spot_number};
ghost use Rattle.rd_top.specs.Answers.{guard_spot_number, guard_spot_word, guard_text};

use crate::answer::{Answer, ModuleFault, ObjectFault, Outcome, Refusal, Stop, Trap};
use guard_check::fault::{GuardFault, GuardSpot};
use ir_core::limit::{Limit, Spot};
use ir_core::memory::Reason;
use ir_core::ty::Name;
use itoa::Buffer;
use obj_check::fault::ShapeSpot;
use rd_num::copied::copy_list;
use rd_num::list::List;
use rd_num::width::NoMemory;
use std::alloc::Global;

/// Appends a decimal number.
fn put_number(line: &mut List<u8>, n: u64) -> Result<(), NoMemory>
    ensures { OnOk result (line.new ≡ line.old ++ decimal n) }
{
    let mut buffer = Buffer::new();
    line.append(buffer.format(n).as_bytes())
}

/// A word, a space, a decimal number and a line feed.
fn numbered(alloc: Global, word: &[u8], n: u64) -> Result<List<u8>, NoMemory>
    ensures { IfOk result (λ l. l ≡ word.now ++ decimal n ++ 10 ∷ []) }
{
    let mut line = copy_list(alloc, word)?;
    put_number(&mut line, n)?;
    line.append(b"\n")?;
    Ok(line)
}

/// The word of a spot.
fn spot_word_of(spot: ShapeSpot) -> &'static [u8]
    ensures { result.now ≡ spot_word spot }
{
    match spot {
        ShapeSpot::Whole => b" whole ",
        ShapeSpot::Function(_) => b" function ",
        ShapeSpot::Slot(_) => b" slot ",
    }
}

/// The number of a spot's function or slot.
fn spot_number_of(spot: ShapeSpot) -> u32
    ensures { result ≡ spot_number spot }
{
    match spot {
        ShapeSpot::Whole => 0,
        ShapeSpot::Function(n) => n,
        ShapeSpot::Slot(k) => k,
    }
}

/// The line of an object that isn't well formed.
fn shape_line(alloc: Global, rule: u8, spot: ShapeSpot, offset: u32) -> Result<List<u8>, NoMemory>
    ensures { IfOk result (λ l. l ≡ shape_text rule spot offset) }
{
    let mut line = copy_list(alloc, b"shape ")?;
    put_number(&mut line, u64::from(rule))?;
    line.append(spot_word_of(spot))?;
    put_number(&mut line, u64::from(spot_number_of(spot)))?;
    line.append(b" ")?;
    put_number(&mut line, u64::from(offset))?;
    line.append(b"\n")?;
    Ok(line)
}

/// The word of a function or a slot.
fn guard_spot_word_of(spot: GuardSpot) -> &'static [u8]
    ensures { result.now ≡ guard_spot_word spot }
{
    match spot {
        GuardSpot::Function(_) => b" function ",
        GuardSpot::Slot(_) => b" slot ",
    }
}

/// The number of a function or a slot.
fn guard_spot_number_of(spot: GuardSpot) -> u32
    ensures { result ≡ guard_spot_number spot }
{
    match spot {
        GuardSpot::Function(n) => n,
        GuardSpot::Slot(k) => k,
    }
}

/// The line of an object that isn't guarded.
fn guard_line(alloc: Global, rule: u8, spot: GuardSpot, offset: u32) -> Result<List<u8>, NoMemory>
    ensures { IfOk result (λ l. l ≡ guard_text rule spot offset) }
{
    let mut line = copy_list(alloc, b"guard ")?;
    put_number(&mut line, u64::from(rule))?;
    line.append(guard_spot_word_of(spot))?;
    put_number(&mut line, u64::from(guard_spot_number_of(spot)))?;
    line.append(b" ")?;
    put_number(&mut line, u64::from(offset))?;
    line.append(b"\n")?;
    Ok(line)
}

/// The line of a word that isn't supported.
fn unsupported_line(alloc: Global, place: u64, word: &Name) -> Result<List<u8>, NoMemory>
    ensures { IfOk result (λ l. l ≡ unsupported_text place word.now) }
{
    let mut line = copy_list(alloc, b"unsupported ")?;
    put_number(&mut line, place)?;
    line.append(b" ")?;
    line.append(word.as_slice())?;
    line.append(b"\n")?;
    Ok(line)
}

/// A word and a name.
fn named(alloc: Global, word: &[u8], name: &Name) -> Result<List<u8>, NoMemory>
    ensures { IfOk result (λ l. l ≡ named_text word.now name.now) }
{
    let mut line = copy_list(alloc, word)?;
    line.append(name.as_slice())?;
    line.append(b"\n")?;
    Ok(line)
}

/// The words in front of a limit's count.
fn limit_word_of(which: Limit) -> &'static [u8]
    ensures { result.now ≡ limit_word which }
{
    match which {
        Limit::Nesting => b"limit nesting ",
        Limit::Size => b"limit size ",
        Limit::Functions => b"limit functions ",
        Limit::Instructions => b"limit instructions ",
        Limit::Total => b"limit total ",
        Limit::Parameters => b"limit parameters ",
        Limit::Frame => b"limit frame ",
        Limit::Bytes => b"limit bytes ",
        Limit::Code => b"limit code ",
    }
}

/// The line of a place where a rule of types fails.
fn type_line(alloc: Global, spot: Spot) -> Result<List<u8>, NoMemory>
    ensures { IfOk result (λ l. l ≡ type_text spot) }
{
    match spot {
        Spot::Global(g) => numbered(alloc, b"type global ", u64::from(g)),
        Spot::Extern(e) => numbered(alloc, b"type extern ", u64::from(e)),
        Spot::Function(f) => numbered(alloc, b"type function ", u64::from(f)),
        Spot::Inst(f, b, i) => {
            let mut line = copy_list(alloc, b"type inst ")?;
            put_number(&mut line, u64::from(f))?;
            line.append(b" ")?;
            put_number(&mut line, u64::from(b))?;
            line.append(b" ")?;
            put_number(&mut line, u64::from(i))?;
            line.append(b"\n")?;
            Ok(line)
        }
    }
}

/// The line of a module's text.
fn module_line(alloc: Global, fault: &ModuleFault) -> Result<List<u8>, NoMemory>
    ensures { IfOk result (λ l. l ≡ module_fault_text fault.now) }
{
    match fault {
        ModuleFault::Lex(place) => numbered(alloc, b"lex ", *place),
        ModuleFault::Grammar(place) => numbered(alloc, b"grammar ", *place),
        ModuleFault::Unsupported { place, word } => unsupported_line(alloc, *place, word),
        ModuleFault::Doubled(name) => named(alloc, b"doubled ", name),
        ModuleFault::Unknown(name) => named(alloc, b"unknown ", name),
        ModuleFault::Limited { which, count } => numbered(alloc, limit_word_of(*which), *count),
        ModuleFault::External(name) => named(alloc, b"external ", name),
        ModuleFault::NoMain => copy_list(alloc, b"no main\n"),
        ModuleFault::BadType(spot) => type_line(alloc, *spot),
    }
}

/// The line of a reason for which a meaning claims nothing.
fn left_line(alloc: Global, reason: Reason) -> Result<List<u8>, NoMemory>
    ensures { IfOk result (λ l. l ≡ left_text reason) }
{
    match reason {
        Reason::Bounds => copy_list(alloc, b"left bounds\n"),
        Reason::Dead => copy_list(alloc, b"left dead\n"),
        Reason::Constant => copy_list(alloc, b"left constant\n"),
        Reason::Unset => copy_list(alloc, b"left unset\n"),
        Reason::Mixed => copy_list(alloc, b"left mixed\n"),
        Reason::Order => copy_list(alloc, b"left order\n"),
        Reason::Equal => copy_list(alloc, b"left equal\n"),
        Reason::Callee => copy_list(alloc, b"left callee\n"),
        Reason::Overlap => copy_list(alloc, b"left overlap\n"),
        Reason::Gep => copy_list(alloc, b"left gep\n"),
    }
}

/// The line of an outcome.
fn outcome_line(alloc: Global, outcome: Outcome) -> Result<List<u8>, NoMemory>
    ensures { IfOk result (λ l. l ≡ outcome_text outcome) }
{
    match outcome {
        Outcome::Ended(status) => numbered(alloc, b"ended ", u64::from(status)),
        Outcome::Trapped(Trap::Divide) => copy_list(alloc, b"trapped divide\n"),
        Outcome::Trapped(Trap::Invalid) => copy_list(alloc, b"trapped invalid\n"),
        Outcome::Trapped(Trap::Breakpoint) => copy_list(alloc, b"trapped breakpoint\n"),
        Outcome::Trapped(Trap::Unreachable) => copy_list(alloc, b"trapped trap\n"),
        Outcome::Trapped(Trap::Depth) => copy_list(alloc, b"trapped depth\n"),
        Outcome::Going => copy_list(alloc, b"going\n"),
        Outcome::Stopped(Stop::PageFault) => copy_list(alloc, b"stopped pagefault\n"),
        Outcome::Stopped(Stop::NoForm) => copy_list(alloc, b"stopped noform\n"),
        Outcome::Stopped(Stop::NoFlag) => copy_list(alloc, b"stopped noflag\n"),
        Outcome::Stopped(Stop::BadCall) => copy_list(alloc, b"stopped badcall\n"),
        Outcome::Left(reason) => left_line(alloc, reason),
    }
}

/// The line of a refusal.
fn refusal_line(alloc: Global, refusal: &Refusal) -> Result<List<u8>, NoMemory>
    ensures { IfOk result (λ l. l ≡ refusal_text refusal.now) }
{
    match refusal {
        Refusal::Module(fault) => module_line(alloc, fault),
        Refusal::Object(ObjectFault::Form(place)) => numbered(alloc, b"form ", *place),
        Refusal::Object(ObjectFault::Shape { rule, spot, offset }) => {
            shape_line(alloc, *rule, *spot, *offset)
        }
        Refusal::Image(rule) => numbered(alloc, b"image ", u64::from(*rule)),
        Refusal::Script(line) => numbered(alloc, b"script ", u64::from(*line)),
    }
}

/// The line of an answer; empty where there is nothing to say, and that takes no memory.
pub fn line(alloc: Global, answer: &Answer) -> Result<List<u8>, NoMemory>
    ensures line { IfOk result (λ l. l ≡ line_of answer.now) }
    ensures some { OnErr result (line_of answer.now ≢ []) }
{
    match answer {
        Answer::Done => Ok(List::new(alloc)),
        Answer::Valid => copy_list(alloc, b"valid\n"),
        Answer::Guarded => copy_list(alloc, b"guarded\n"),
        Answer::Unguarded(GuardFault::Rule { rule, spot, offset }) => {
            guard_line(alloc, *rule, *spot, *offset)
        }
        Answer::Ran(outcome) => outcome_line(alloc, *outcome),
        Answer::Words => copy_list(alloc, b"words\n"),
        Answer::File => copy_list(alloc, b"file\n"),
        Answer::Refused(refusal) => refusal_line(alloc, refusal),
        Answer::Long => copy_list(alloc, b"long\n"),
        Answer::Out => copy_list(alloc, b"out\n"),
        Answer::Input => copy_list(alloc, b"input\n"),
        Answer::Memory => copy_list(alloc, b"memory\n"),
    }
}
