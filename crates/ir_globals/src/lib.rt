//! The memory with which a run of a module begins: an object for each global.
//!
//! `cells` has what initialisers hold, byte by byte, `first` the objects of all globals. What both
//! are stands in `specs/Told`, over sizes as far as 64 bits tell them. That this is what a run of a
//! valid module begins with, the laws of `law` say: the types of such a module and its frames are
//! within the limits (`specs/Small`), and its globals have as many bytes as their types.
#![tactic(auto)]

pub mod cells;
pub mod first;
pub mod law;
