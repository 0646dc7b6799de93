//! Addresses of slots, which are public.
//!
//! A slot stands at 0x10000000 plus 16 times its position, and no layout seed is in that. So data may
//! hold a `SlotAddr`, and its number may be asked for. Where slots stand in an object's order is
//! `specs/Slots.antt`; addresses of code are `Hidden`, in `code`, and have no such call.

ghost use Rattle.std.specs.Prelude.{◌≡◌, ◌+◌, ◌*◌, ◌<◌, ◌^◌};
ghost use Rattle.obj_core.specs.Slots.{slot_base};

/// The address of the slot at position 0.
pub const SLOT_BASE: u32 = 0x1000_0000;

/// The address of a slot, by its position.
#[derive(Clone, Copy)]
pub struct SlotAddr {
    position: u32,
}

impl SlotAddr {
    /// The address of the slot at a position. Takes no memory.
    pub fn at(position: u32) -> SlotAddr
        requires { position < 2 ^ 20 }
        ensures { result ≡ record { position = position } }
    {
        SlotAddr { position }
    }

    /// The address as a number. Takes no memory.
    pub fn number(&self) -> u64
        ensures { result ≡ slot_base + 16 * self.now.position }
    {
        u64::from(SLOT_BASE) + 16 * u64::from(self.position)
    }
}
