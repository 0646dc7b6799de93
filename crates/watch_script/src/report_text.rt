//! The text of a report: a line for each event, and one for the end.

ghost use Rattle.std.specs.Prelude.{◌≡◌, ◌++◌, IfOk, OnOk, length};
ghost use Rattle.xom_machine.specs.Standing.{ending_of};
ghost use Rattle.watch_script.specs.Events.{last_after};
ghost use Rattle.watch_script.specs.Report.{reply_text, reply_line, reply_lines, end_line, told_text};

use crate::digits::{put_number, put_word};
use crate::event::Event;
use crate::reply::Reply;
use crate::report::Report;
use crate::state::put_ending;
use hex::encode;
use rd_num::list::List;
use rd_num::width::NoMemory;
use std::alloc::Global;
use x86_core::image::MachOutcome;

/// Appends the bytes of a reply as digits, or what a write or a refused event is told.
fn put_reply(alloc: Global, text: &mut List<u8>, reply: &Reply) -> Result<(), NoMemory>
    ensures { OnOk result (text.new ≡ text.old ++ reply_text reply.now) }
{
    match reply {
        Reply::Bytes(bytes) => match encode(alloc, bytes.as_slice()) {
            Ok(digits) => text.append(digits.as_str().as_bytes()),
            Err(_) => Err(NoMemory),
        },
        Reply::Written => text.append(b"written"),
        Reply::Refused => text.append(b"refused"),
    }
}

/// Appends the line of an event and its reply.
#[tactic(auto, unfolding(crate::specs::Report::reply_line))]
fn put_line(
    alloc: Global,
    text: &mut List<u8>,
    event: &Event,
    reply: &Reply,
) -> Result<(), NoMemory>
    ensures { OnOk result (text.new ≡ text.old ++ reply_line event.now reply.now) }
{
    put_number(text, event.after())?;
    text.append(b" ")?;
    put_word(text, event.at())?;
    text.append(b" ")?;
    put_reply(alloc, text, reply)?;
    text.append(b"\n")
}

/// Appends the last line.
#[tactic(auto, unfolding(crate::specs::Report::end_line))]
fn put_end(
    text: &mut List<u8>,
    steps: u64,
    outcome: MachOutcome,
    printed: u64,
) -> Result<(), NoMemory>
    ensures { OnOk result (text.new ≡ text.old ++ end_line steps (ending_of outcome) printed) }
{
    text.append(b"end ")?;
    put_number(text, steps)?;
    text.append(b" ")?;
    put_ending(text, outcome)?;
    text.append(b" out ")?;
    put_number(text, printed)?;
    text.append(b"\n")
}

/// Appends the lines of all events and their replies, and answers when the last one came, or 0.
fn put_lines(
    alloc: Global,
    text: &mut List<u8>,
    events: &[Event],
    replies: &[Reply],
) -> Result<u64, NoMemory>
    requires { length replies.now ≡ length events.now }
    ensures lines { OnOk result (text.new ≡ text.old ++ reply_lines events.now replies.now) }
    ensures last { IfOk result (λ n. n ≡ last_after 0 events.now) }
{
    let mut last = 0;
    for i in 0..events.len() {
        let event = &events[i];
        put_line(alloc, text, event, &replies[i])?;
        last = event.after();
    }
    Ok(last)
}

/// The text of a report: docs/command-line.md, "Reports".
///
/// Each byte of a reply is looked at once.
#[tactic(auto, using(crate::proofs::Suits::suited_length))]
pub fn report_text(alloc: Global, report: &Report) -> Result<List<u8>, NoMemory>
    ensures { IfOk result (λ text. text ≡ told_text report.now) }
{
    let mut text = List::new(alloc);
    let last = put_lines(
        alloc,
        &mut text,
        report.events.as_slice(),
        report.replies.as_slice(),
    )?;
    put_end(&mut text, last, report.outcome, report.printed)?;
    Ok(text)
}
