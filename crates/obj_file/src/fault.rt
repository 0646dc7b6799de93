//! Why bytes aren't read as an object.
//!
//! There is one fault of bytes, and it names a place; which part of the format is left there can be read
//! off docs/object-format.md. Which objects are well formed is no matter of the format.

ghost use Rattle.std.specs.Prelude.{◌≡◌};

use rd_num::width::NoMemory;

/// The bytes leave the format at `place`, or memory is wanting.
///
/// `place` counts bytes from the start of the file. It is the length of the longest prefix that
/// begins the spelling of some object in either format; in a file that is only too short it is the file's length.
#[derive(Clone, Copy, PartialEq, Eq, Debug)]
pub enum FormFault {
    At { place: u64 },
    NoMemory,
}

impl From<NoMemory> for FormFault {
    ghost use Rattle.obj_file.specs.declared.fault.FormFault.TheVariants as fault;

    ghost from_gives = { λ _ e. e ≡ fault.NoMemory };

    fn from(_: NoMemory) -> FormFault {
        FormFault::NoMemory
    }
}
