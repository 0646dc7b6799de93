//! The canonical text of a module: one spelling for each part, one space between words, one line each.
//!
//!     define i32 @main() {
//!     0:
//!       ret i32 7
//!     }
//!
//! `print` gives exactly the text of `specs/Canonical.antt`, whose parts stand in the other files of
//! `specs/`; each file of `src/` appends the texts of one of them. Time and size are linear in the module.
#![tactic(auto)]

ghost use Rattle.std.specs.Prelude.{◌≡◌, IfOk, OnOk, ◌++◌, flat_map};
ghost use Rattle.ir_print.specs.ReadsBack.{ReadsBack};
ghost use Rattle.ir_print.specs.Canonical.{canonical_text, named_type_text, global_line, extern_text, function_text};

use ir_core::module::Module;
use ir_core::valid::Valid;
use rd_num::list::List;
use rd_num::width::NoMemory;
use std::alloc::Global;

mod function;
mod global;
mod initialiser;
mod instruction;
pub mod law;
mod names;
mod terminator;
mod types;
mod values;

/// The canonical text of a valid module, which reads back to that module. Only memory can be wanting.
#[tactic(auto, using(crate::proofs::Whole::valid_reads_back))]
pub fn print(alloc: Global, valid: &Valid) -> Result<List<u8>, NoMemory>
    ensures text { IfOk result (λ text. text ≡ canonical_text valid.now.kept) }
    ensures back { IfOk result (λ text. ReadsBack text valid.now.kept) }
{
    module_text(alloc, valid.module())
}

/// The canonical text of a module. Only memory can be wanting.
pub fn module_text(alloc: Global, module: &Module) -> Result<List<u8>, NoMemory>
    ensures { IfOk result (λ text. text ≡ canonical_text «module».now) }
{
    let mut text = List::new(alloc);
    put_types(&mut text, module)?;
    put_globals(&mut text, module)?;
    put_externs(&mut text, module)?;
    put_functions(&mut text, module)?;
    Ok(text)
}

fn put_types(text: &mut List<u8>, module: &Module) -> Result<(), NoMemory>
    ensures { OnOk result (text.new ≡ text.old ++ flat_map named_type_text «module».now.types) }
{
    for named in module.types.as_slice() {
        global::put_named_type(text, named)?;
    }
    Ok(())
}

fn put_globals(text: &mut List<u8>, module: &Module) -> Result<(), NoMemory>
    ensures { OnOk result (text.new ≡ text.old ++ flat_map global_line «module».now.globals) }
{
    for variable in module.globals.as_slice() {
        global::put_global(text, variable)?;
    }
    Ok(())
}

fn put_externs(text: &mut List<u8>, module: &Module) -> Result<(), NoMemory>
    ensures { OnOk result (text.new ≡ text.old ++ flat_map extern_text «module».now.externs) }
{
    for declared in module.externs.as_slice() {
        function::put_extern(text, declared)?;
    }
    Ok(())
}

fn put_functions(text: &mut List<u8>, module: &Module) -> Result<(), NoMemory>
    ensures { OnOk result (text.new ≡ text.old ++ flat_map function_text «module».now.functions) }
{
    for function in module.functions.as_slice() {
        function::put_function(text, function)?;
    }
    Ok(())
}
