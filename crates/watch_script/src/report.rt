//! What an observer's reads and writes gave.

ghost use Rattle.std.specs.Prelude.{◌≡◌, true};
ghost use Rattle.watch_script.specs.Suiting.{are_suited};

use crate::event::Event;
use crate::reply::Reply;
use rd_num::list::List;
use x86_core::image::MachOutcome;

/// The replies to the events of a script, one for each in their order, and how the machine stands
/// after the last one. No read has the reply `Written`, and no write the reply `Bytes`.
#[derive(Drop)]
pub struct Report {
    pub events: List<Event>,
    pub replies: List<Reply>,
    pub outcome: MachOutcome,
    /// How many bytes were printed, as far as 2^64 - 1.
    pub printed: u64,
    ghost answered: { are_suited events replies ≡ true },
}
