//! Where the data of a module lies, and the bytes that it has when a run begins.
//!
//! A valid module and the pointers to its functions in, a placing out: an address for each global,
//! and the bytes of two parts. Constants lie from 0x20000000 on and other globals from 0x30000000,
//! in the module's order, each at the next multiple of 16:
//!
//!     @a = constant i8 1
//!     @b = global ptr @a
//!
//! becomes 01 and fifteen zeros in one part, and the eight bytes of 0x20000000 and eight zeros in
//! the other. A global has the bytes of its cells at first (`ir_globals`), and a pointer is the eight
//! bytes of its address. What a placing holds stands in `specs/Placed`; what `low_core` asks of a
//! plan of addresses, as far as data goes, in `specs/Fits`.
#![tactic(auto)]

ghost use Rattle.std.specs.Prelude.{◌≡◌, ◌+◌, ◌%◌, ◌≤◌, length, IfOk};
ghost use Rattle.ir_core.specs.declared.limit.TheConstants.{MAX_BYTES};
ghost use Rattle.ir_core.specs.Refusals.{IsValid};
ghost use Rattle.data_place.specs.Placed.{HoldsData};

pub mod law;
mod parts;
mod starts;
mod words;

use crate::parts::part;
use crate::starts::addresses;
use crate::words::Words;
use ir_context::context::Context;
use ir_core::module::Module;
use ir_core::valid::Valid;
use obj_core::address::SlotAddr;
use obj_core::plan::Placing;
use rd_num::list::List;
use rd_num::width::NoMemory;
use std::alloc::Global;

/// The data of a valid module, whose functions have these pointers by their numbers.
///
/// Time and memory are linear in the text of the module and in the bytes of its globals.
#[tactic(auto, using(ir_globals::proofs::ValidLaws::valid_distinct, ir_globals::proofs::ValidLaws::valid_types, ir_globals::proofs::ValidLaws::valid_globals, ir_globals::proofs::ValidLaws::valid_functions, ir_globals::proofs::ValidLaws::valid_few))]
pub fn place(alloc: Global, valid: &Valid, pointers: &List<SlotAddr>) -> Result<Placing, NoMemory>
    ensures holds { IfOk result (λ p. HoldsData valid.now.kept pointers.now p) }
    ensures few { IfOk result (λ p. length p.ro + length p.rw ≤ MAX_BYTES) }
    ensures whole { IfOk result (λ p. (length p.ro % 16 ≡ 0) × (length p.rw % 16 ≡ 0)) }
{
    let whole = valid.module();
    let context = Context::new(alloc, whole)?;
    placing(alloc, &context, whole, pointers.as_slice())
}

/// The data of a module that is known to be valid, with what its names stand for.
fn placing(
    alloc: Global,
    context: &Context,
    whole: &Module,
    pointers: &[SlotAddr],
) -> Result<Placing, NoMemory>
    requires known { ∥ IsValid whole.now ∥₁ }
    requires same { context.now ≡ whole.now }
    ensures { IfOk result (λ p. HoldsData whole.now pointers.now p) }
{
    let globals = addresses(alloc, context, whole.globals.as_slice())?;
    let words = Words {
        globals: globals.as_slice(),
        pointers,
    };
    let ro = part(alloc, context, &words, true, whole.globals.as_slice())?;
    let rw = part(alloc, context, &words, false, whole.globals.as_slice())?;
    Ok(Placing { globals, ro, rw })
}
