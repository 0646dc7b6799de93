//! Declarations, and functions with their blocks.

ghost use Rattle.std.specs.Prelude.{◌≡◌, ◌++◌, OnOk, flat_map};
ghost use Rattle.ir_print.specs.Names.{after_commas, with_commas};
ghost use Rattle.ir_print.specs.Types.{type_text};
ghost use Rattle.ir_print.specs.Instructions.{inst_text};
ghost use Rattle.ir_print.specs.Canonical.{extern_text, parameter_text, block_text, function_text};

use crate::instruction::put_inst;
use crate::names::{put_global_name, put_label, put_local};
use crate::terminator::put_end;
use crate::types::put_type;
use ir_core::instruction::Inst;
use ir_core::module::{Block, Extern, Function, Param};
use ir_core::ty::Ty;
use rd_num::list::List;
use rd_num::width::NoMemory;

#[tactic(auto, unfolding(crate::specs::Names::after_commas))]
fn put_more_types(text: &mut List<u8>, types: &[Ty]) -> Result<(), NoMemory>
    ensures { OnOk result (text.new ≡ text.old ++ after_commas type_text types.now) }
{
    for ty in types {
        text.append(b", ")?;
        put_type(text, ty)?;
    }
    Ok(())
}

fn put_types(text: &mut List<u8>, types: &[Ty]) -> Result<(), NoMemory>
    ensures { OnOk result (text.new ≡ text.old ++ with_commas type_text types.now) }
{
    match types {
        [] => Ok(()),
        [first, others @ ..] => {
            put_type(text, first)?;
            put_more_types(text, others)
        }
    }
}

/// Appends the line of a declaration.
#[tactic(auto, unfolding(crate::specs::Canonical::extern_text))]
pub fn put_extern(text: &mut List<u8>, declared: &Extern) -> Result<(), NoMemory>
    ensures { OnOk result (text.new ≡ text.old ++ extern_text declared.now) }
{
    text.append(b"declare ")?;
    put_type(text, &declared.ret)?;
    text.append(b" ")?;
    put_global_name(text, declared.name.as_slice())?;
    text.append(b"(")?;
    put_types(text, declared.params.as_slice())?;
    text.append(b")\n")
}

fn put_parameter(text: &mut List<u8>, parameter: &Param) -> Result<(), NoMemory>
    ensures { OnOk result (text.new ≡ text.old ++ parameter_text parameter.now) }
{
    put_type(text, &parameter.ty)?;
    text.append(b" ")?;
    put_local(text, parameter.name.as_slice())
}

#[tactic(auto, unfolding(crate::specs::Names::after_commas))]
fn put_more_parameters(text: &mut List<u8>, parameters: &[Param]) -> Result<(), NoMemory>
    ensures { OnOk result (text.new ≡ text.old ++ after_commas parameter_text parameters.now) }
{
    for parameter in parameters {
        text.append(b", ")?;
        put_parameter(text, parameter)?;
    }
    Ok(())
}

fn put_parameters(text: &mut List<u8>, parameters: &[Param]) -> Result<(), NoMemory>
    ensures { OnOk result (text.new ≡ text.old ++ with_commas parameter_text parameters.now) }
{
    match parameters {
        [] => Ok(()),
        [first, others @ ..] => {
            put_parameter(text, first)?;
            put_more_parameters(text, others)
        }
    }
}

fn put_insts(text: &mut List<u8>, insts: &[Inst]) -> Result<(), NoMemory>
    ensures { OnOk result (text.new ≡ text.old ++ flat_map inst_text insts.now) }
{
    for inst in insts {
        put_inst(text, inst)?;
    }
    Ok(())
}

// Appends a block's label and its lines.
#[tactic(auto, unfolding(crate::specs::Canonical::block_text))]
fn put_block(text: &mut List<u8>, block: &Block) -> Result<(), NoMemory>
    ensures { OnOk result (text.new ≡ text.old ++ block_text block.now) }
{
    put_label(text, block.label.as_slice())?;
    text.append(b"\n")?;
    put_insts(text, block.insts.as_slice())?;
    put_end(text, &block.end)
}

fn put_blocks(text: &mut List<u8>, blocks: &[Block]) -> Result<(), NoMemory>
    ensures { OnOk result (text.new ≡ text.old ++ flat_map block_text blocks.now) }
{
    for block in blocks {
        put_block(text, block)?;
    }
    Ok(())
}

/// Appends a function.
#[tactic(auto, unfolding(crate::specs::Canonical::function_text))]
pub fn put_function(text: &mut List<u8>, function: &Function) -> Result<(), NoMemory>
    ensures { OnOk result (text.new ≡ text.old ++ function_text function.now) }
{
    text.append(b"define ")?;
    put_type(text, &function.ret)?;
    text.append(b" ")?;
    put_global_name(text, function.name.as_slice())?;
    text.append(b"(")?;
    put_parameters(text, function.params.as_slice())?;
    text.append(b") {\n")?;
    put_blocks(text, function.blocks.as_slice())?;
    text.append(b"}\n")
}
