//! Texts on a run whose output nobody gets: made first, and then put at once.
//!
//! `seen_after` makes what `show` writes, and `reported` what `watch` writes. What a text on a run is
//! stands in `specs/Reports.antt`.

ghost use Rattle.std.specs.Prelude.{◌≡◌, ◌≢◌, ℕ, List as Row};
ghost use Rattle.rd_io.specs.Told.{SourceTold};
ghost use Rattle.watch_script.specs.Events.{last_after};
ghost use Rattle.watch_script.specs.Watching.{InputCharged};
ghost use Rattle.rd_top.specs.Courses.{Course};
ghost use Rattle.rd_top.specs.Machines.{machine_course, watched_course, report_on, shown_after};
ghost use Rattle.rd_top.specs.Reports.{Reported, Reports};
ghost use Rattle.rd_top.specs.World.{KeepsOut};

use crate::answer::Answer;
use crate::put::put_whole;
use rd_io::sure::CountSink;
use rd_io::{RunFault, Sink, Source};
use rd_num::list::List;
use std::alloc::Global;
use watch_script::report_text::report_text;
use watch_script::script::Script;
use watch_script::show::show_text;
use watch_script::watch::watch;
use x86_core::image::Image;
use xom_machine::machine::Machine;

/// Runs an image over the input, with nowhere to print to, and makes the text of what is seen then.
pub fn seen_after<I: Source>(
    alloc: Global,
    image: &Image,
    steps: u64,
    input: &mut I,
) -> Result<List<u8>, RunFault>
    ensures reported { Reported (machine_course image.now) steps (shown_after image.now steps)
        (I.told input.old) (I.told input.new) result }
    ensures charged { InputCharged (I.told input.old).faults (I.told input.new).faults result }
{
    let mut machine = match Machine::start(alloc, image) {
        Ok(machine) => machine,
        Err(_) => return Err(RunFault::NoMemory),
    };
    let mut sink = CountSink::new();
    match machine.run(input, &mut sink, steps) {
        Ok(_) => {}
        Err(fault) => return Err(fault),
    }
    match show_text(alloc, &machine) {
        Ok(text) => Ok(text),
        Err(_) => Err(RunFault::NoMemory),
    }
}

/// Makes the reads and writes of a script, and the text of their report.
pub fn reported<I: Source>(
    alloc: Global,
    image: &Image,
    script: &Script,
    input: &mut I,
) -> Result<List<u8>, RunFault>
    ensures reported { Reported (watched_course image.now script.now.events)
        (last_after 0 script.now.events) (report_on image.now script.now.events)
        (I.told input.old) (I.told input.new) result }
    ensures charged { InputCharged (I.told input.old).faults (I.told input.new).faults result }
{
    let report = match watch(alloc, image, script, input) {
        Ok(report) => report,
        Err(fault) => return Err(fault),
    };
    match report_text(alloc, &report) {
        Ok(text) => Ok(text),
        Err(_) => Err(RunFault::NoMemory),
    }
}

/// Puts the text on a run, or answers why there is none.
pub fn put_report<O: Sink>(text: Result<List<u8>, RunFault>, out: &mut O) -> Answer
    ensures reports { (course : Course) (n : ℕ) (text_on : Row ℕ → Row ℕ)
        (input input2 : SourceTold) →
        Reported course n text_on input input2 text →
        Reports course n text_on input input2 (O.told out.old) (O.told out.new) result }
    ensures input { (before : ℕ) (now : ℕ) → InputCharged before now text →
        result ≢ Answer.Input → now ≡ before }
    ensures out { KeepsOut (O.told out.old) (O.told out.new) result }
{
    match text {
        Ok(text) => put_whole(&text, out),
        Err(RunFault::Input) => Answer::Input,
        Err(RunFault::Output) => Answer::Out,
        Err(RunFault::NoMemory) => Answer::Memory,
    }
}
