//! What the names of a module stand for: symbol tables, which lend the module.
//!
//! Types, globals, declarations and functions are numbered by sets of their names, so that a lookup
//! takes constant time. A module goes in of which no name is defined twice.

ghost use Rattle.std.specs.Prelude.{◌≡◌, [], map, IfOk, is_some};
ghost use Rattle.std.specs.Option.{option_copied};
ghost use Rattle.ir_core.specs.Definitions.{doubled, variable_names, type_names as names_of_types, extern_names as names_of_externs, function_names as names_of_functions};
ghost use Rattle.ir_core.specs.Names.{same_name, first_where};
ghost use Rattle.ir_core.specs.Operands.{global_number, function_number};

use crate::module::{Extern, Function, Module};
use crate::names::{NameSet, Named, names_of};
use crate::ty::{Name, NamedTy};
use rd_num::list::List;
use rd_num::width::NoMemory;
use std::alloc::Global;
use std::marker::Model;

/// The tables of a module.
#[derive(Drop)]
pub struct Tables<'a> {
    whole: &'a Module,
    types: NameSet<'a>,
    variables: NameSet<'a>,
    externs: NameSet<'a>,
    functions: NameSet<'a>,
}

impl<'a> Model for Tables<'a> {
    ghost use Rattle.std.specs.Prelude.{◌≡◌};
    ghost use Rattle.std.specs.Coded.{codes};
    ghost use Rattle.ir_core.specs.contracts.ty.Ty as ty;
    ghost use Rattle.ir_core.specs.contracts.init.Init as init;
    ghost use Rattle.ir_core.specs.declared.module.Module.{Module as WholeModule};
    ghost use Rattle.ir_core.specs.Definitions.{type_names, variable_names, extern_names, function_names};

    ghost Value = { WholeModule };

    ghost coded = { Prim.hlevel (codes, ty.the_row.coded, init.the_row.coded) };

    ghost view = { λ t. t.whole.now };

    ghost invariant = { λ t. (t.types ≡ type_names t.whole.now)
        × (t.variables ≡ variable_names t.whole.now)
        × (t.externs ≡ extern_names t.whole.now)
        × (t.functions ≡ function_names t.whole.now) };
}

/// The item of a name. Takes no memory.
fn item_of<'a, T: Named>(names: &NameSet, items: &'a List<T>, name: &Name) -> Option<&'a T>
    requires { names.now ≡ map T.name_of items.now }
    ensures { option_copied result ≡ first_where
        (λ x. same_name (T.name_of x) name.now) items.now }
{
    match names.number(name) {
        Some(k) => items.get(k),
        None => None,
    }
}

impl<'a> Tables<'a> {
    /// The tables of a module.
    pub fn new(alloc: Global, whole: &'a Module) -> Result<Tables<'a>, NoMemory>
        requires { doubled whole.now ≡ [] }
        ensures { IfOk result (λ t. t ≡ whole.now) }
    {
        let types = names_of(alloc, whole.types.as_slice())?;
        let variables = names_of(alloc, whole.globals.as_slice())?;
        let externs = names_of(alloc, whole.externs.as_slice())?;
        let functions = names_of(alloc, whole.functions.as_slice())?;
        Ok(Tables {
            whole,
            types,
            variables,
            externs,
            functions,
        })
    }

    /// The module. Takes no memory.
    pub fn whole(&self) -> &'a Module
        ensures { result.now ≡ self.now }
    {
        self.whole
    }

    /// The names of types. Takes no memory.
    pub fn type_names(&self) -> &NameSet<'a>
        ensures { result.now ≡ names_of_types self.now }
    {
        &self.types
    }

    /// The names of globals. Takes no memory.
    pub fn global_names(&self) -> &NameSet<'a>
        ensures { result.now ≡ variable_names self.now }
    {
        &self.variables
    }

    /// The names of declarations. Takes no memory.
    pub fn extern_names(&self) -> &NameSet<'a>
        ensures { result.now ≡ names_of_externs self.now }
    {
        &self.externs
    }

    /// The names of defined functions. Takes no memory.
    pub fn function_names(&self) -> &NameSet<'a>
        ensures { result.now ≡ names_of_functions self.now }
    {
        &self.functions
    }

    /// The named type of a name. Takes no memory.
    pub fn named_type(&self, name: &Name) -> Option<&'a NamedTy>
        ensures { option_copied result ≡ first_where
            (λ t. same_name t.name name.now) self.now.types }
    {
        item_of(&self.types, &self.whole.types, name)
    }

    /// Whether a name is that of a global. Takes no memory.
    pub fn has_global(&self, name: &Name) -> bool
        ensures { result ≡ is_some (global_number self.now name.now) }
    {
        self.variables.number(name).is_some()
    }

    /// Whether a name is that of a defined function. Takes no memory.
    pub fn has_function(&self, name: &Name) -> bool
        ensures { result ≡ is_some (function_number self.now name.now) }
    {
        self.functions.number(name).is_some()
    }

    /// The declaration of a name. Takes no memory.
    pub fn external(&self, name: &Name) -> Option<&'a Extern>
        ensures { option_copied result ≡ first_where
            (λ e. same_name e.name name.now) self.now.externs }
    {
        item_of(&self.externs, &self.whole.externs, name)
    }

    /// The defined function of a name. Takes no memory.
    pub fn function(&self, name: &Name) -> Option<&'a Function>
        ensures { option_copied result ≡ first_where
            (λ f. same_name f.name name.now) self.now.functions }
    {
        item_of(&self.functions, &self.whole.functions, name)
    }
}
