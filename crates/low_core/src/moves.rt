//! The parts of programs without phis.
//!
//! What stands outside of functions is that of the module at the base, and so are the functions' names,
//! types and parameters; its blocks aren't used.

use ir_core::instruction::{Op, Term};
use ir_core::module::Module;
use ir_core::operand::Operand;
use ir_core::ty::{Name, Ty};
use rd_num::list::List;

/// What a move does: an instruction that is neither a phi nor a `freeze`, or a copy of a value.
#[derive(Drop)]
pub enum MoveOp {
    Keep(Op),
    Copy(Ty, Operand),
}

/// A move, and the variable that it assigns.
#[derive(Drop)]
pub struct Move {
    pub to: Option<Name>,
    pub op: MoveOp,
}

/// Moves one after another, and where they lead.
#[derive(Drop)]
pub struct Chunk {
    pub label: Name,
    pub moves: List<Move>,
    pub end: Term,
}

/// What a function does. A call of it begins in its first chunk.
#[derive(Drop)]
pub struct Body {
    pub chunks: List<Chunk>,
}

/// A program without phis: a body for each function of its base.
#[derive(Drop)]
pub struct Low<'a> {
    pub base: &'a Module,
    pub bodies: List<Body>,
}

/// A program without phis whose chunks end in no `switch`.
#[derive(Drop)]
pub struct Lean<'a> {
    pub base: &'a Module,
    pub bodies: List<Body>,
}
