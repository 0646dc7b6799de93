//! What an observer's events are answered.

use rd_num::list::List;

/// What a read or a write is answered.
#[derive(Drop)]
pub enum Reply {
    /// The bytes of the range that a read asked for.
    Bytes(List<u8>),
    /// The bytes were written.
    Written,
    /// No one segment that may be read, or written, holds the range.
    Refused,
}
