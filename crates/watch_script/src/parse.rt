//! Scripts from bytes.

ghost use Rattle.std.specs.Prelude.{◌≡◌, ℕ, List as Row, MatchResult};
ghost use Rattle.watch_script.specs.declared.event.Event.{Event as Happening};
ghost use Rattle.watch_script.specs.Faults.{FaultOf};
ghost use Rattle.watch_script.specs.Script.{ScriptOf, IsFirstBad};

use crate::event::Event;
use crate::line::next_event;
use crate::script::Script;
use rd_num::list::List;
use std::alloc::Global;

/// Why bytes are no script.
#[derive(Clone, Copy, PartialEq, Debug)]
pub enum ScriptFault {
    /// The first bad line, counted from 1.
    Line { line: u32 },
    NoMemory,
}

/// The script that bytes spell: docs/command-line.md, "Scripts".
///
/// `Line` comes exactly where they spell none. A line without its line feed is bad, and so is any
/// line after 4,096.
pub fn parse_script(alloc: Global, bytes: &[u8]) -> Result<Script, ScriptFault>
    ensures { MatchResult result (λ script. ScriptOf bytes.now script.events)
        (λ fault. FaultOf bytes.now fault) }
{
    let mut events: List<Event> = List::new(alloc);
    let mut least = 0;
    let mut rest = bytes;
    for count in 0..4096u32 {
        if rest.is_empty() {
            return Ok(Script::new(events));
        }
        match next_event(alloc, rest, least) {
            Ok(Some((event, behind))) => {
                least = event.after();
                match events.add(event) {
                    Ok(()) => {}
                    Err(_) => return Err(ScriptFault::NoMemory),
                }
                rest = behind;
            }
            Ok(None) => return Err(ScriptFault::Line { line: count + 1 }),
            Err(_) => return Err(ScriptFault::NoMemory),
        }
    }
    if rest.is_empty() {
        Ok(Script::new(events))
    } else {
        Err(ScriptFault::Line { line: 4097 })
    }
}

/// A law: bytes are one script at most, no script where a line is the first bad one, and have one such line at most.
pub fn scripts_are_told_apart()
    ensures one { (bytes : Row ℕ) (events others : Row Happening) → ScriptOf bytes events →
        ScriptOf bytes others → events ≡ others }
    ensures none { (bytes : Row ℕ) (line : ℕ) (events : Row Happening) → IsFirstBad bytes line →
        ScriptOf bytes events → ⊥ }
    ensures line { (bytes : Row ℕ) (line : ℕ) (other : ℕ) → IsFirstBad bytes line →
        IsFirstBad bytes other → line ≡ other }
{}
