//! A module and its parts, each list in the order of the text.

use crate::init::Init;
use crate::instruction::{Inst, Term};
use crate::names::Named;
use crate::ty::{Name, NamedTy, Ty};
use rd_num::list::List;

/// A row of instructions with one way in and one end.
#[derive(Drop)]
pub struct Block {
    pub label: Name,
    pub insts: List<Inst>,
    pub end: Term,
}

/// A parameter of a function.
#[derive(Drop)]
pub struct Param {
    pub ty: Ty,
    pub name: Name,
}

/// A defined function. A call of it begins in its first block.
#[derive(Drop)]
pub struct Function {
    pub name: Name,
    pub ret: Ty,
    pub params: List<Param>,
    pub blocks: List<Block>,
}

/// A declared function, which stands outside of the module.
#[derive(Drop)]
pub struct Extern {
    pub name: Name,
    pub ret: Ty,
    pub params: List<Ty>,
}

/// A global variable or constant.
#[derive(Drop)]
pub struct GlobalVar {
    pub name: Name,
    pub constant: bool,
    pub ty: Ty,
    pub init: Init,
}

/// A module.
#[derive(Drop)]
pub struct Module {
    pub types: List<NamedTy>,
    pub globals: List<GlobalVar>,
    pub externs: List<Extern>,
    pub functions: List<Function>,
}

impl Named for Block {
    ghost name_of = { λ x. x.label };

    fn name(&self) -> &Name {
        &self.label
    }
}

impl Named for Param {
    ghost name_of = { λ x. x.name };

    fn name(&self) -> &Name {
        &self.name
    }
}

impl Named for Function {
    ghost name_of = { λ x. x.name };

    fn name(&self) -> &Name {
        &self.name
    }
}

impl Named for Extern {
    ghost name_of = { λ x. x.name };

    fn name(&self) -> &Name {
        &self.name
    }
}

impl Named for GlobalVar {
    ghost name_of = { λ x. x.name };

    fn name(&self) -> &Name {
        &self.name
    }
}
