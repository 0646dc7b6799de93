//! What an observer sees of a machine: as a text, and by the events of a script with their replies.
//!
//! `show` has the text of registers, flags, outcome and readable memory, `state` and `memory` its lines.
//! `parse` reads a script, `line` a line of it and `fields` its parts; `event` and `script` have the types.
//! `watch` makes the reads and writes in one run, each with its `reply`, and `report_text` writes the
//! `report` on them. `digits` has numbers and bytes as digits. Texts stand in `specs/ShowText.antt` and
//! `specs/Report.antt`, what events do in `specs/Acts.antt`, scripts in
//! `specs/Script.antt`, over what `x86_core`, `specs/Observation.antt`, says is seen;
//! docs/command-line.md shows them. Addresses, words and bytes are in lower-case hexadecimal, lengths are
//! decimal and count bytes.
#![tactic(auto)]

mod digits;
pub mod event;
mod fields;
mod line;
mod memory;
pub mod parse;
pub mod reply;
pub mod report;
pub mod report_text;
pub mod script;
pub mod show;
mod state;
pub mod watch;
