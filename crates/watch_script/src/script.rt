//! The reads and writes of an observer, in the order in which they are made.

ghost use Rattle.std.specs.Prelude.{◌≡◌, true};
ghost use Rattle.watch_script.specs.Events.{is_script};

use crate::event::Event;
use rd_num::list::List;

/// At most 4,096 events, of which none comes before an earlier one, and each reads or writes
/// 1 to 4,096 bytes.
#[derive(Drop)]
pub struct Script {
    events: List<Event>,
    ghost kept: { is_script events ≡ true },
}

impl Script {
    /// The script of these events. Takes no memory.
    pub(crate) fn new(events: List<Event>) -> Script
        requires { is_script events ≡ true }
        ensures { result.events ≡ events }
    {
        Script { events }
    }

    /// All events, in order. Takes no memory.
    pub fn events(&self) -> &[Event]
        ensures events { result.now ≡ self.now.events }
        ensures kept { is_script result.now ≡ true }
    {
        self.events.as_slice()
    }
}
