//! Values as cells, and cells as values.
//!
//! A number is its bytes, the lowest first; null is eight zero bytes, and every other pointer is
//! eight pieces. What a row of cells reads as stands in `specs/Memory` of `ir_core`. Nothing here
//! takes memory.

ghost use Rattle.std.specs.Prelude.{◌≡◌, ◌≤◌, ◌<◌, ◌+◌, ◌*◌, ◌%◌, ◌^◌, ◌&&◌, length, take, map, nat_eq, option_map, IfSome, if◌then◌else◌, Ok, Err};
ghost use Rattle.rd_num.specs.Number.{bits, le_bytes, le_number};
ghost use Rattle.ir_core.specs.declared.memory.Value.TheVariants.{Null as NullValue};
ghost use Rattle.ir_core.specs.declared.memory.Cell.TheVariants.{Byte as ByteCell};
ghost use Rattle.ir_core.specs.declared.memory.Reason.TheVariants.{Mixed as MixedReason};
ghost use Rattle.ir_core.specs.Stops.{Left as LeftStop};
ghost use Rattle.ir_core.specs.Shapes.{bytes_of};
ghost use Rattle.ir_core.specs.Memory.{same_value as same_values, pointer_cells as pieces_of, cells_of, any_unset, numbers, same_cells as same_rows, number_read, pointer_read, kind_size};
ghost use Rattle.ir_core.specs.Answers.{answered};
ghost use Rattle.ir_memory.specs.Reads.{same_cell as same_two, with_low_byte, row_read};

use ir_core::kind::Kind;
use ir_core::memory::{Cell, Reason, Value};
use ir_core::stop::Stop;
use rd_num::width::{Width, wrap};

/// What a value is stored as: the first `count` of these cells.
#[derive(Clone, Copy)]
pub struct Stored {
    pub cells: [Cell; 8],
    pub count: usize,
}

/// Bytes of a number of a width.
pub fn width_bytes(w: Width) -> usize
    ensures { result ≡ bytes_of w }
{
    match w {
        Width::W1 | Width::W8 => 1,
        Width::W16 => 2,
        Width::W32 => 4,
        Width::W64 => 8,
    }
}

/// Bytes of a value of a kind.
pub fn kind_bytes(kind: Kind) -> usize
    ensures value { result ≡ kind_size kind }
    ensures small { result ≤ 8 }
{
    match kind {
        Kind::NoValue => 0,
        Kind::Number(w) => width_bytes(w),
        Kind::Pointer => 8,
    }
}

/// The lowest byte of a number.
fn low_byte(n: u64) -> Cell
    ensures { result ≡ ByteCell (n % 256) }
{
    Cell::Byte((n % 256) as u8)
}

/// The eight bytes of a number.
fn number_cells(n: u64) -> [Cell; 8]
    ensures { result ≡ map ByteCell (le_bytes 8 n) }
{
    let n1 = n / 256;
    let n2 = n1 / 256;
    let n3 = n2 / 256;
    let n4 = n3 / 256;
    let n5 = n4 / 256;
    let n6 = n5 / 256;
    let n7 = n6 / 256;
    [
        low_byte(n),
        low_byte(n1),
        low_byte(n2),
        low_byte(n3),
        low_byte(n4),
        low_byte(n5),
        low_byte(n6),
        low_byte(n7),
    ]
}

/// The eight pieces of a place or a function.
fn pointer_cells(v: Value) -> [Cell; 8]
    ensures { result ≡ pieces_of v }
{
    [
        Cell::Piece(v, 0),
        Cell::Piece(v, 1),
        Cell::Piece(v, 2),
        Cell::Piece(v, 3),
        Cell::Piece(v, 4),
        Cell::Piece(v, 5),
        Cell::Piece(v, 6),
        Cell::Piece(v, 7),
    ]
}

/// The eight zero bytes of null.
fn null_cells() -> [Cell; 8]
    ensures { result ≡ cells_of NullValue }
{
    [Cell::Byte(0); 8]
}

/// What a value is stored as.
#[tactic(auto, using(crate::proofs::CellLaws::low_cells))]
pub fn stored_as(v: Value) -> Stored
    ensures cells { take result.count result.cells ≡ cells_of v }
    ensures count { result.count ≡ length (cells_of v) }
    ensures small { result.count ≤ 8 }
{
    match v {
        Value::Num(w, n) => Stored {
            cells: number_cells(n),
            count: width_bytes(w),
        },
        Value::Null => Stored {
            cells: null_cells(),
            count: 8,
        },
        Value::At(_, _) | Value::Fun(_) => Stored {
            cells: pointer_cells(v),
            count: 8,
        },
    }
}

/// Whether one of the cells is unset.
fn has_unset(cells: &[Cell]) -> bool
    ensures { result ≡ any_unset cells.now }
{
    for c in cells {
        if let Cell::Unset = *c {
            return true;
        }
    }
    false
}

/// A number whose lowest byte is a cell, where that is a number.
fn with_low(low: Cell, above: u64) -> Option<u64>
    requires { above < 256 ^ 7 }
    ensures value { result ≡ with_low_byte low above }
    ensures small { IfSome result (λ n. n < 256 * (above + 1)) }
{
    match low {
        Cell::Byte(b) => Some(u64::from(b) + 256 * above),
        Cell::Unset => None,
        Cell::Piece(_, _) => None,
    }
}

/// The number that cells spell, where all of them are numbers.
fn number_in(cells: &[Cell]) -> Option<u64>
    requires { length cells.now ≤ 8 }
    ensures value { result ≡ option_map le_number (numbers cells.now) }
    ensures small { IfSome result (λ n. n < 256 ^ length cells.now) }
{
    match cells {
        [] => Some(0),
        [low, rest @ ..] => {
            let above = number_in(rest)?;
            with_low(*low, above)
        }
    }
}

fn bit_count(w: Width) -> u32
    ensures { result ≡ bits w }
{
    match w {
        Width::W1 => 1,
        Width::W8 => 8,
        Width::W16 => 16,
        Width::W32 => 32,
        Width::W64 => 64,
    }
}

/// Whether two values are the same.
fn same_value(u: Value, v: Value) -> bool
    ensures { result ≡ same_values u v }
{
    match u {
        Value::Num(w, m) => match v {
            Value::Num(x, n) => bit_count(w) == bit_count(x) && m == n,
            Value::Null | Value::At(_, _) | Value::Fun(_) => false,
        },
        Value::Null => match v {
            Value::Null => true,
            Value::Num(_, _) | Value::At(_, _) | Value::Fun(_) => false,
        },
        Value::At(o, d) => match v {
            Value::At(p, e) => o == p && d == e,
            Value::Num(_, _) | Value::Null | Value::Fun(_) => false,
        },
        Value::Fun(f) => match v {
            Value::Fun(g) => f == g,
            Value::Num(_, _) | Value::Null | Value::At(_, _) => false,
        },
    }
}

/// Whether two cells are the same, neither of them unset.
fn same_cell(c: Cell, d: Cell) -> bool
    ensures { result ≡ same_two c d }
{
    match c {
        Cell::Unset => false,
        Cell::Byte(m) => match d {
            Cell::Byte(n) => m == n,
            Cell::Unset | Cell::Piece(_, _) => false,
        },
        Cell::Piece(u, j) => match d {
            Cell::Piece(v, k) => same_value(u, v) && j == k,
            Cell::Unset | Cell::Byte(_) => false,
        },
    }
}

/// Whether two rows of cells are the same, none of them unset.
#[tactic(auto, using(crate::proofs::CellLaws::one_more_same))]
fn same_cells(cs: &[Cell], ds: &[Cell]) -> bool
    ensures { result ≡ same_rows cs.now ds.now }
{
    match cs {
        [] => ds.is_empty(),
        [c, cs @ ..] => match ds {
            [] => false,
            [d, ds @ ..] => same_cell(*c, *d) && same_cells(cs, ds),
        },
    }
}

/// Null, where cells are eight zero bytes.
fn null_in(cells: &[Cell]) -> Result<Value, Stop>
    ensures { answered result ≡ (if same_rows cells.now (cells_of NullValue) then Ok NullValue
        else Err (LeftStop MixedReason)) }
{
    if same_cells(cells, &null_cells()) {
        Ok(Value::Null)
    } else {
        Err(Stop::Left(Reason::Mixed))
    }
}

/// A place or a function, where cells are its eight pieces in order.
fn pieces_in(v: Value, cells: &[Cell]) -> Result<Value, Stop>
    ensures { answered result ≡ (if same_rows cells.now (pieces_of v) then Ok v
        else Err (LeftStop MixedReason)) }
{
    if same_cells(cells, &pointer_cells(v)) {
        Ok(v)
    } else {
        Err(Stop::Left(Reason::Mixed))
    }
}

/// The pointer that cells hold.
fn pointer_in(cells: &[Cell]) -> Result<Value, Stop>
    ensures { answered result ≡ pointer_read cells.now }
{
    match cells {
        [] => null_in(cells),
        [first, ..] => match *first {
            Cell::Piece(v, _) => pieces_in(v, cells),
            Cell::Byte(_) => null_in(cells),
            Cell::Unset => null_in(cells),
        },
    }
}

/// The number of a width that cells hold; of an `i1` it is the low bit of its byte.
#[tactic(auto, using(crate::proofs::CellLaws::read_number))]
fn width_in(w: Width, cells: &[Cell]) -> Result<Value, Stop>
    requires { length cells.now ≤ 8 }
    ensures { answered result ≡ number_read w (numbers cells.now) }
{
    match number_in(cells) {
        Some(n) => Ok(Value::Num(w, wrap(w, n))),
        None => Err(Stop::Left(Reason::Mixed)),
    }
}

/// The value of a kind that a row of cells holds, none of which may be unset.
pub fn read(kind: Kind, cells: &[Cell]) -> Result<Value, Stop>
    requires { length cells.now ≤ 8 }
    ensures { answered result ≡ row_read kind cells.now }
{
    if has_unset(cells) {
        return Err(Stop::Left(Reason::Unset));
    }
    match kind {
        Kind::NoValue => Err(Stop::Malformed),
        Kind::Number(w) => width_in(w, cells),
        Kind::Pointer => pointer_in(cells),
    }
}
