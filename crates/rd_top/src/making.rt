//! What `print`, `compile`, `build`, `lay` and `gen` make: each stage takes what the one before it gives.
//!
//!     number -> module's text
//!     module -> print
//!     module -> compile -> object -> write
//!     module -> compile -> object -> lay -> image -> write
//!
//! Texts and files are no matter here: modules and checked objects come in, and bytes go out. What
//! the bytes are stands in `specs/Making.antt`.

ghost use Rattle.std.specs.Prelude.{IfOk};
ghost use Rattle.rd_words.specs.Words.{IsWorkload};
ghost use Rattle.rd_top.specs.Making.{IsGenerated, IsImageFor, IsLaid, IsObjectFor, IsPrinted};

use ir_core::valid::Valid;
use ir_print::print;
use obj_core::checked::Checked;
use obj_lay::lay;
use rd_compile::compile::compile;
use rd_gen::module;
use rd_num::list::List;
use rd_num::width::NoMemory;
use std::alloc::Global;

/// The canonical text of a valid module.
pub fn printed_bytes(alloc: Global, valid: &Valid) -> Result<List<u8>, NoMemory>
    ensures { IfOk result (IsPrinted valid.now.kept) }
{
    let bytes = print(alloc, valid)?;
    Ok(bytes)
}

/// The text of a module of so many functions.
pub fn generated_bytes(alloc: Global, number: u64) -> Result<List<u8>, NoMemory>
    requires { IsWorkload number }
    ensures { IfOk result (IsGenerated number) }
{
    let bytes = module(alloc, number as u32)?;
    Ok(bytes)
}

/// The bytes of a module's object.
pub fn object_bytes(
    alloc: Global,
    valid: &Valid,
    slot_seed: u64,
    reg_seed: u64,
) -> Result<List<u8>, NoMemory>
    ensures { IfOk result (IsObjectFor valid.now.kept slot_seed reg_seed) }
{
    let checked = compile(alloc, valid, slot_seed, reg_seed)?;
    let bytes = obj_file::write::write(alloc, checked.object())?;
    Ok(bytes)
}

/// The bytes of the image of a module's object.
pub fn image_bytes(
    alloc: Global,
    valid: &Valid,
    slot_seed: u64,
    reg_seed: u64,
    layout_seed: u64,
) -> Result<List<u8>, NoMemory>
    ensures { IfOk result (IsImageFor valid.now.kept slot_seed reg_seed layout_seed) }
{
    let checked = compile(alloc, valid, slot_seed, reg_seed)?;
    let bytes = laid_bytes(alloc, &checked, layout_seed)?;
    Ok(bytes)
}

/// The bytes of the image of an object.
pub fn laid_bytes(alloc: Global, object: &Checked, layout_seed: u64) -> Result<List<u8>, NoMemory>
    ensures { IfOk result (IsLaid object.now.object layout_seed) }
{
    let image = lay(alloc, object, layout_seed)?;
    let bytes = elf_file::write::write(alloc, &image)?;
    Ok(bytes)
}
