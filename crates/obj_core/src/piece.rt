//! The pieces of an object, in which its functions are cut.
//!
//! A piece goes from the start of a function or a cut to the next cut or the end. Pieces are numbered
//! by the functions' numbers, and in a function by offset (`specs/Pieces.antt`). Offsets count bytes
//! from the function's start. Where a piece stands is `row`'s and `code`'s.

ghost use Rattle.std.specs.Prelude.{◌≡◌, ◌++◌, ◌≤◌, ℕ, length, IfOk, OnOk};
ghost use Rattle.std.specs.List.{sum_by};
ghost use Rattle.obj_core.specs.declared.object.Func.{Func};
ghost use Rattle.obj_core.specs.Pieces.{pieces_from, pieces_of as pieces_in_function};
ghost use Rattle.obj_core.specs.WellFormed.{most_code, most_functions};

use crate::object::Func;
use rd_num::list::List;
use rd_num::width::NoMemory;
use std::alloc::Global;

/// The bytes of a function from one offset up to another.
#[derive(Clone, Copy)]
pub struct Piece {
    pub function: u32,
    pub from: u32,
    pub to: u32,
}

/// The pieces of functions, in their order. Time and memory are linear in functions and cuts.
pub fn pieces_of(alloc: Global, functions: &[Func]) -> Result<List<Piece>, NoMemory>
    requires few { length functions.now ≤ most_functions }
    requires small { sum_by (λ (f : Func). length f.bytes) functions.now ≤ most_code }
    ensures { IfOk result (λ all. all ≡ pieces_from 0 functions.now) }
{
    let mut all = List::new(alloc);
    for i in 0..functions.len() {
        put_pieces(&mut all, i as u32, &functions[i])?;
    }
    Ok(all)
}

/// Puts the pieces of a function at the end.
fn put_pieces(all: &mut List<Piece>, function: u32, cut: &Func) -> Result<(), NoMemory>
    requires { length cut.now.bytes ≤ most_code }
    ensures { OnOk result (all.new ≡ all.old ++ pieces_in_function function cut.now) }
{
    let mut from = 0;
    for to in cut.cuts.as_slice() {
        all.add(Piece {
            function,
            from,
            to: *to,
        })?;
        from = *to;
    }
    all.add(Piece {
        function,
        from,
        to: cut.bytes.len() as u32,
    })
}
