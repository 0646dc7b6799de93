//! What the names of a module stand for, and the sizes of its types.

ghost use Rattle.std.specs.Prelude.{◌≡◌, ◌<◌, ◌^◌, [], length, IfOk};
ghost use Rattle.ir_core.specs.Definitions.{repeated, type_names, variable_names, function_names};
ghost use Rattle.ir_context.specs.Extents.{extent_of};
ghost use Rattle.ir_core.specs.Operands.{global_number, function_number};
ghost use Rattle.ir_core.specs.Names.{same_name, first_where};
ghost use Rattle.std.specs.Option.{option_copied};

use crate::extents::Extents;
use ir_core::module::Module;
use ir_core::names::{NameSet, names_of};
use ir_core::size::Extent;
use ir_core::ty::{Name, NamedTy, Ty};
use rd_num::width::NoMemory;
use std::alloc::Global;
use std::marker::Model;

/// A module, whose functions can be numbered in 32 bits, with the numbers of its names.
#[derive(Drop)]
pub struct Context<'a> {
    whole: &'a Module,
    variables: NameSet<'a>,
    functions: NameSet<'a>,
    pub(crate) extents: Extents<'a>,
}

impl<'a> Model for Context<'a> {
    ghost use Rattle.std.specs.Prelude.{◌≡◌, ◌<◌, ◌^◌, length};
    ghost use Rattle.std.specs.Coded.{codes};
    ghost use Rattle.ir_core.specs.contracts.ty.Ty as ty;
    ghost use Rattle.ir_core.specs.contracts.init.Init as init;
    ghost use Rattle.ir_core.specs.declared.module.Module.{Module as WholeModule};
    ghost use Rattle.ir_core.specs.Definitions.{variable_names, function_names};

    ghost Value = { WholeModule };

    ghost coded = { Prim.hlevel (codes, ty.the_row.coded, init.the_row.coded) };

    ghost view = { λ c. c.whole.now };

    ghost invariant = { λ c. (c.extents ≡ c.whole.now.types)
        × (c.variables ≡ variable_names c.whole.now)
        × (c.functions ≡ function_names c.whole.now)
        × (length c.whole.now.functions < 2 ^ 32) };
}

/// A number that fits 32 bits.
fn small_number(k: usize) -> u32
    requires { k < 2 ^ 32 }
    ensures { result ≡ k }
{
    k as u32
}

impl<'a> Context<'a> {
    /// A module no type, global or function of which is defined twice.
    pub fn new(alloc: Global, whole: &'a Module) -> Result<Context<'a>, NoMemory>
        requires types { repeated [] (type_names whole.now) ≡ [] }
        requires globals { repeated [] (variable_names whole.now) ≡ [] }
        requires functions { repeated [] (function_names whole.now) ≡ [] }
        requires few { length whole.now.functions < 2 ^ 32 }
        ensures { IfOk result (λ c. c ≡ whole.now) }
    {
        let variables = names_of(alloc, whole.globals.as_slice())?;
        let functions = names_of(alloc, whole.functions.as_slice())?;
        let extents = Extents::new(alloc, whole)?;
        Ok(Context {
            whole,
            variables,
            functions,
            extents,
        })
    }

    /// The extent of a type. Takes no memory.
    pub fn extent(&self, ty: &Ty) -> Extent
        ensures { result ≡ extent_of self.now.types ty.now }
    {
        self.extents.extent(ty)
    }

    /// The number of a global. Takes no memory.
    pub fn global(&self, name: &Name) -> Option<usize>
        ensures { result ≡ global_number self.now name.now }
    {
        self.variables.number(name)
    }

    /// The number of a defined function. Takes no memory.
    pub fn function(&self, name: &Name) -> Option<u32>
        ensures { result ≡ function_number self.now name.now }
    {
        match self.functions.number(name) {
            Some(k) => Some(small_number(k)),
            None => None,
        }
    }
    /// The named type of a name. Takes no memory.
    pub fn named_type(&self, name: &Name) -> Option<&'a NamedTy>
        ensures { option_copied result ≡ first_where
            (λ t. same_name t.name name.now) self.now.types }
    {
        self.extents.named(name)
    }
}
