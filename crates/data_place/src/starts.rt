//! Where globals begin, by the extents of their types.
//!
//! Constants lie in one part of memory and the others in another one. In both each global begins at
//! the next multiple of 16 behind the one before it. Lengths and addresses count bytes.

ghost use Rattle.std.specs.Prelude.{◌≡◌, ◌+◌, ◌≤◌, true, false, map, IfOk};
ghost use Rattle.std.specs.List.{sum_by};
ghost use Rattle.ir_core.specs.declared.limit.TheConstants.{MAX_BYTES};
ghost use Rattle.ir_core.specs.Counts.{spaced as with_gap};
ghost use Rattle.data_place.specs.Starts.{room_of, space_of, room_in, start_behind, starts_from};

use ir_context::context::Context;
use ir_core::module::GlobalVar;
use rd_num::list::List;
use rd_num::width::NoMemory;
use std::alloc::Global;
use x86_core::image::{RO_START, RW_START};

/// What a global takes.
#[derive(Drop)]
struct Room {
    constant: bool,
    size: u64,
}

impl Room {
    /// The room of a global. Takes no memory.
    fn of(context: &Context, g: &GlobalVar) -> Room
        ensures { result ≡ room_of context.now g.now }
    {
        Room {
            constant: g.constant,
            size: context.extent(&g.ty).size,
        }
    }
}

/// How many bytes are taken of the part of the constants, and of that of the others.
#[derive(Drop)]
struct Ends {
    ro: u64,
    rw: u64,
}

impl Ends {
    /// Where a global begins behind these. Takes no memory.
    fn start(&self, constant: bool) -> u64
        requires { self.now.ro + self.now.rw ≤ MAX_BYTES }
        ensures { result ≡ start_behind self.now.ro self.now.rw constant }
    {
        if constant {
            RO_START + self.ro
        } else {
            RW_START + self.rw
        }
    }

    /// With the room of a global, and the gap behind it. Takes no memory.
    fn behind(&self, room: Room) -> Ends
        requires { self.now.ro + self.now.rw + with_gap room.size ≤ MAX_BYTES }
        ensures ro { result.ro ≡ self.now.ro + room_in true room }
        ensures rw { result.rw ≡ self.now.rw + room_in false room }
        ensures both { result.ro + result.rw ≡ self.now.ro + self.now.rw + with_gap room.size }
    {
        let size = spaced(room.size);
        if room.constant {
            Ends {
                ro: self.ro + size,
                rw: self.rw,
            }
        } else {
            Ends {
                ro: self.ro,
                rw: self.rw + size,
            }
        }
    }
}

/// Bytes with the gap behind them up to the next multiple of 16. Takes no memory.
fn spaced(size: u64) -> u64
    requires { with_gap size ≤ MAX_BYTES }
    ensures { result ≡ with_gap size }
{
    (size + 15) / 16 * 16
}

/// Where the globals of a module begin.
pub(crate) fn addresses(
    alloc: Global,
    context: &Context,
    globals: &[GlobalVar],
) -> Result<List<u64>, NoMemory>
    requires { sum_by (space_of context.now) globals.now ≤ MAX_BYTES }
    ensures { IfOk result (λ all. all ≡
        starts_from 0 0 (map (room_of context.now) globals.now)) }
{
    let mut all = List::new(alloc);
    let mut ends = Ends { ro: 0, rw: 0 };
    for g in globals {
        let room = Room::of(context, g);
        all.add(ends.start(room.constant))?;
        ends = ends.behind(room);
    }
    Ok(all)
}
