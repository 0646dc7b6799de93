//! Words of values, and bytes of cells, once globals and functions have addresses.

ghost use Rattle.std.specs.Prelude.{◌≡◌, get_or, map};
ghost use Rattle.low_core.specs.Contents.{word_of, byte_of, cell_byte};
ghost use Rattle.data_place.specs.Placed.{slot_word, addresses_in};

use ir_core::memory::{Cell, Value};
use obj_core::address::SlotAddr;

/// The addresses of globals and the pointers to functions, by their numbers.
#[derive(Drop)]
pub(crate) struct Words<'a> {
    pub(crate) globals: &'a [u64],
    pub(crate) pointers: &'a [SlotAddr],
}

impl<'a> Words<'a> {
    /// The address of a global.
    fn global(&self, number: u64) -> u64
        ensures { result ≡ get_or self.now.globals.now number 0 }
    {
        match self.globals.get(number as usize) {
            Some(at) => *at,
            None => 0,
        }
    }

    /// The pointer to a function.
    fn pointer(&self, number: u32) -> u64
        ensures { result ≡ get_or (map slot_word self.now.pointers.now) number 0 }
    {
        match self.pointers.get(number as usize) {
            Some(at) => at.number(),
            None => 0,
        }
    }

    /// The word of a value. Addresses count modulo 2^64.
    fn word(&self, v: Value) -> u64
        ensures { result ≡ word_of (addresses_in self.now.globals.now self.now.pointers.now) v }
    {
        match v {
            Value::Num(_, n) => n,
            Value::Null => 0,
            Value::At(object, offset) => self.global(object).wrapping_add(offset),
            Value::Fun(number) => self.pointer(number),
        }
    }

    /// The byte of a cell of a global. Takes no memory.
    pub(crate) fn byte(&self, c: Cell) -> u8
        ensures { result ≡ cell_byte (addresses_in self.now.globals.now self.now.pointers.now) c }
    {
        match c {
            Cell::Byte(n) => n,
            Cell::Piece(v, k) => byte_at(self.word(v), k),
            Cell::Unset => 0,
        }
    }
}

/// A byte of a word, by its number from the lowest one on.
fn byte_at(word: u64, k: u8) -> u8
    ensures { result ≡ byte_of k word }
{
    if k == 0 {
        (word % 256) as u8
    } else {
        byte_at(word / 256, k - 1)
    }
}
