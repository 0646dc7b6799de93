//! The four flags that the instructions read and write.

/// What is known of a flag: some instructions leave flags that no program may rely on.
#[derive(Clone, Copy, PartialEq, Eq)]
pub enum Flag {
    Zero,
    One,
    Unknown,
}

/// Carry, zero, sign and overflow.
#[derive(Clone, Copy, PartialEq, Eq)]
pub struct Flags {
    pub c: Flag,
    pub z: Flag,
    pub s: Flag,
    pub o: Flag,
}
