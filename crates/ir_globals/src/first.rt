//! The objects of all globals of a module.

ghost use Rattle.std.specs.Prelude.{◌≡◌, IfOk};
ghost use Rattle.ir_globals.specs.Told.{told_object, told_objects};

use crate::cells::put_init;
use ir_context::context::Context;
use ir_core::module::{GlobalVar, Module};
use ir_memory::memory::Memory;
use ir_memory::object::Object;
use rd_num::width::NoMemory;
use std::alloc::Global;

/// The object of a global.
fn first_object(alloc: Global, context: &Context, g: &GlobalVar) -> Result<Object, NoMemory>
    ensures { IfOk result (λ x. x ≡ told_object context.now g.now) }
{
    let mut cells = Vec::new(alloc);
    put_init(alloc, context, &mut cells, &g.init, &g.ty)?;
    Ok(Object::new(g.constant, cells))
}

/// The memory with which a run of a module begins, in time linear in its text and its bytes.
pub fn first_memory(alloc: Global, context: &Context, whole: &Module) -> Result<Memory, NoMemory>
    requires { context.now ≡ whole.now }
    ensures { IfOk result (λ memory. memory ≡ told_objects whole.now) }
{
    let mut memory = Memory::new(alloc);
    for g in whole.globals.as_slice() {
        let object = first_object(alloc, context, g)?;
        memory.add(object)?;
    }
    Ok(memory)
}
