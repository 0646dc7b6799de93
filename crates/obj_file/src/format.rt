//! The two formats of a file, which its fifth byte tells apart.
//!
//! A file of format 1 has functions without cuts, and one of format 2 has each function's cuts behind its
//! links. All else is the same in both. `write` makes format 2.

/// A format by its number.
#[derive(Clone, Copy)]
pub enum Format {
    One,
    Two,
}
