//! Whether a condition holds, by the flags that it names.

ghost use Rattle.std.specs.Prelude.{◌≡◌};
ghost use Rattle.x86_core.specs.Arithmetic.{known, holds};

use crate::flags::{Flag, Flags};
use crate::instr::Cond;

// Whether a flag is set, where that is known.
fn is_set(f: Flag) -> Option<bool>
    ensures { result ≡ known f }
{
    match f {
        Flag::Zero => Some(false),
        Flag::One => Some(true),
        Flag::Unknown => None,
    }
}

/// Whether a condition holds; `None` exactly where a flag that it names isn't known. Takes no memory.
pub fn test(c: Cond, f: &Flags) -> Option<bool>
    ensures { result ≡ holds c f.now }
{
    match c {
        Cond::O => is_set(f.o),
        Cond::No => Some(!is_set(f.o)?),
        Cond::B => is_set(f.c),
        Cond::Ae => Some(!is_set(f.c)?),
        Cond::E => is_set(f.z),
        Cond::Ne => Some(!is_set(f.z)?),
        Cond::Be => below_or_equal(f),
        Cond::A => Some(!below_or_equal(f)?),
        Cond::S => is_set(f.s),
        Cond::Ns => Some(!is_set(f.s)?),
        Cond::L => less(f),
        Cond::Ge => Some(!less(f)?),
        Cond::Le => less_or_equal(f),
        Cond::G => Some(!less_or_equal(f)?),
    }
}

fn below_or_equal(f: &Flags) -> Option<bool>
    ensures { result ≡ holds Cond.Be f.now }
{
    match (is_set(f.c), is_set(f.z)) {
        (Some(c), Some(z)) => Some(c || z),
        _ => None,
    }
}

fn less(f: &Flags) -> Option<bool>
    ensures { result ≡ holds Cond.L f.now }
{
    match (is_set(f.s), is_set(f.o)) {
        (Some(s), Some(o)) => Some(s != o),
        _ => None,
    }
}

fn less_or_equal(f: &Flags) -> Option<bool>
    ensures { result ≡ holds Cond.Le f.now }
{
    match (is_set(f.z), less(f)) {
        (Some(z), Some(l)) => Some(z || l),
        _ => None,
    }
}
