//! Names with the mark that a text puts in front of them: `%` or `@`.
//!
//! A marked name is lent, and contracts see it as its bytes, the mark first. The owned bytes are
//! made once, for an answer.

ghost use Rattle.std.specs.Prelude.{◌≡◌, IfOk, option_map};
ghost use Rattle.std.specs.Option.{option_copied};
ghost use Rattle.ir_core.specs.Definitions.{local_mark, global_mark};
ghost use Rattle.ir_names.specs.Marks.{mark_byte};

use ir_core::ty::Name;
use rd_num::list::List;
use rd_num::width::NoMemory;
use std::alloc::Global;
use std::marker::Model;

/// What a text puts in front of a name: `%` for types, labels and locals, `@` for all others.
#[derive(Clone, Copy)]
pub enum Mark {
    Local,
    Global,
}

impl Mark {
    /// Its byte. Takes no memory.
    fn byte(self) -> u8
        ensures { result ≡ mark_byte self }
    {
        match self {
            Mark::Local => b'%',
            Mark::Global => b'@',
        }
    }
}

/// A lent name with its mark.
#[derive(Drop)]
pub struct Marked<'a> {
    mark: Mark,
    name: &'a Name,
}

impl<'a> Model for Marked<'a> {
    ghost use Rattle.std.specs.Prelude.{ℕ, List as Row, ◌∷◌};
    ghost use Rattle.ir_names.specs.Marks.{mark_byte};

    ghost Value = { Row ℕ };

    ghost view = { λ w. mark_byte w.mark ∷ w.name.now };
}

impl<'a> Marked<'a> {
    /// A type, a label or a local. Takes no memory.
    pub fn local(name: &'a Name) -> Marked<'a>
        ensures { result ≡ local_mark name.now }
    {
        Marked {
            mark: Mark::Local,
            name,
        }
    }

    /// A global or a function. Takes no memory.
    pub fn global(name: &'a Name) -> Marked<'a>
        ensures { result ≡ global_mark name.now }
    {
        Marked {
            mark: Mark::Global,
            name,
        }
    }

    /// The bytes of the mark and the name.
    fn text(&self, alloc: Global) -> Result<Name, NoMemory>
        ensures { IfOk result (λ text. text ≡ self.now) }
    {
        let mut text = List::new(alloc);
        text.add(self.mark.byte())?;
        text.append(self.name.as_slice())?;
        Ok(text)
    }
}

/// A type, a label or a local, if there is one. Takes no memory.
pub fn as_local<'a>(name: Option<&'a Name>) -> Option<Marked<'a>>
    ensures { result ≡ option_map local_mark (option_copied name.entry) }
{
    match name {
        Some(name) => Some(Marked::local(name)),
        None => None,
    }
}

/// The bytes of a marked name, if there is one.
pub fn owned(alloc: Global, marked: Option<Marked>) -> Result<Option<Name>, NoMemory>
    ensures { IfOk result (λ text. text ≡ marked.entry) }
{
    match marked {
        Some(marked) => {
            let text = marked.text(alloc)?;
            Ok(Some(text))
        }
        None => Ok(None),
    }
}
