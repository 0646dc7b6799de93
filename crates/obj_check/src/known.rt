//! What the types of an object's numbers say of them, made known to proofs.
//!
//! A contract sees a byte or a `u32` of a list as a number without a bound. These functions read each
//! number of an object and do nothing with it; their contracts say that it is in the range of its
//! type. Nothing is asked of the object, and no memory is taken.

ghost use Rattle.obj_core.specs.Object.{Each, IsByte, IsCodeAt, IsField, IsLink, IsSlot};
ghost use Rattle.obj_check.specs.Ranges.{AreFuncNumbers, AreNumbers};

use obj_core::object::{CodeAt, Func, Link, Object, Slot};
use rd_num::list::List;

/// Makes it known to a proof that each number of an object is in the range of its type.
pub fn numbers_known(o: &Object)
    ensures { AreNumbers o.now }
{
    let _slot_seed = o.slot_seed;
    let _reg_seed = o.reg_seed;
    functions_known(o.functions.as_slice());
    slots_known(o.slots.as_slice());
    bytes_known(&o.ro);
    bytes_known(&o.rw);
}

/// The same of functions.
fn functions_known(functions: &[Func])
    ensures { Each AreFuncNumbers functions.now }
{
    for function in functions {
        function_known(function);
    }
}

/// The same of one function.
fn function_known(function: &Func)
    ensures { AreFuncNumbers function.now }
{
    bytes_known(&function.bytes);
    links_known(function.links.as_slice());
    cuts_known(function.cuts.as_slice());
}

/// The same of bytes.
fn bytes_known(bytes: &List<u8>)
    ensures { Each IsByte bytes.now }
{
    bytes.known();
}

/// The same of links.
fn links_known(links: &[Link])
    ensures { Each IsLink links.now }
{
    for link in links {
        link_known(link);
    }
}

/// The same of one link.
fn link_known(link: &Link)
    ensures { IsLink link.now }
{
    let _at = link.at;
    let _slot = link.slot;
}

/// The same of cuts.
fn cuts_known(cuts: &[u32])
    ensures { Each IsField cuts.now }
{
    for cut in cuts {
        cut_known(cut);
    }
}

/// The same of one cut.
fn cut_known(cut: &u32)
    ensures { IsField cut.now }
{
    let _cut = *cut;
}

/// The same of slots.
fn slots_known(slots: &[Slot])
    ensures { Each IsSlot slots.now }
{
    for slot in slots {
        slot_known(slot);
    }
}

/// The same of one slot.
fn slot_known(slot: &Slot)
    ensures { IsSlot slot.now }
{
    match slot {
        Slot::Entry { target } | Slot::Jump { target } => {
            let _target = *target;
        }
        Slot::Call { target, back } => {
            let _target = *target;
            place_known(back);
        }
        Slot::Indirect { back } | Slot::System { back } => place_known(back),
    }
}

/// The same of a place in code.
fn place_known(place: &CodeAt)
    ensures { IsCodeAt place.now }
{
    let _function = place.function;
    let _offset = place.offset;
}
