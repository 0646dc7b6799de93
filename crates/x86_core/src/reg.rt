//! The sixteen general registers and their words.

ghost use Rattle.std.specs.Prelude.{◌≡◌, ◌<◌, ◌^◌, slice_index, slice_set, replicate, length, All};
ghost use Rattle.x86_core.specs.Registers.{number_of};

use std::marker::Model;

/// A general register, in the order of the numbers that encodings have for them.
#[derive(Clone, Copy, PartialEq, Eq)]
pub enum Reg {
    Rax,
    Rcx,
    Rdx,
    Rbx,
    Rsp,
    Rbp,
    Rsi,
    Rdi,
    R8,
    R9,
    R10,
    R11,
    R12,
    R13,
    R14,
    R15,
}

/// A register's number, 0 to 15. Takes no memory.
pub fn number(r: Reg) -> u8
    ensures value { result ≡ number_of r }
    ensures small { result < 16 }
{
    match r {
        Reg::Rax => 0,
        Reg::Rcx => 1,
        Reg::Rdx => 2,
        Reg::Rbx => 3,
        Reg::Rsp => 4,
        Reg::Rbp => 5,
        Reg::Rsi => 6,
        Reg::Rdi => 7,
        Reg::R8 => 8,
        Reg::R9 => 9,
        Reg::R10 => 10,
        Reg::R11 => 11,
        Reg::R12 => 12,
        Reg::R13 => 13,
        Reg::R14 => 14,
        Reg::R15 => 15,
    }
}

/// The words of the sixteen registers; contracts see the list of them, by the registers' numbers.
#[derive(Drop)]
pub struct Regs {
    words: [u64; 16],
}

impl Model for Regs {
    ghost use Rattle.std.specs.Prelude.{ℕ, List};

    ghost Value = { List ℕ };

    ghost view = { λ r. r.words };
}

impl Regs {
    /// Sixteen zeros. Takes no memory.
    pub fn new() -> Regs
        ensures { result ≡ replicate 16 0 }
    {
        Regs { words: [0; 16] }
    }

    /// A register's word. Takes no memory.
    pub fn get(&self, r: Reg) -> u64
        ensures { result ≡ slice_index self.now (number_of r) }
    {
        self.words[number(r) as usize]
    }

    /// Gives a register a word. Takes no memory.
    pub fn set(&mut self, r: Reg, n: u64)
        ensures { self.new ≡ slice_set self.old (number_of r) n }
    {
        self.words[number(r) as usize] = n;
    }

    /// The same words. Takes no memory.
    pub fn copy(&self) -> Regs
        ensures { result ≡ self.now }
    {
        Regs { words: self.words }
    }

    /// Makes it known to a proof that there are sixteen words of 64 bits.
    pub fn known(&self)
        ensures count { length self.now ≡ 16 }
        ensures words { All (λ n. n < 2 ^ 64) self.now }
    {
        words_known(&self.words);
    }
}

// Each item of a slice of words is a word.
fn words_known(words: &[u64])
    ensures { All (λ n. n < 2 ^ 64) words.now }
{}
