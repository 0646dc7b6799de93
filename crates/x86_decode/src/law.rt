//! The laws of encodings and of their decoding, each as the contract of a function that does
//! nothing.
//!
//! `IsInstr` says that the numbers of an instruction are in the range of their types, which they
//! are in each value of `Instr`; `Begins` that the bytes begin with an instruction's encoding,
//! `IsCut` that they are a proper prefix of one. All are definitions of `x86_core`.

ghost use Rattle.std.specs.Prelude.{ℕ, List, [], ◌≡◌, ◌≤◌, ◌<◌, ◌^◌, ◌++◌, ◌↔◌, length, All};
ghost use Rattle.x86_core.specs.declared.instr.Instr.{Instr as Instruction};
ghost use Rattle.x86_core.specs.Encoding.{encoding, IsInstr, Begins, IsCut};
ghost use Rattle.x86_core.specs.Decoding.{decode};

use x86_core::instr::Decoded;

/// An encoding has 1 to 10 bytes.
pub fn encodings_are_short()
    ensures { (i : Instruction) → (1 ≤ length (encoding i)) × (length (encoding i) ≤ 10) }
{}

/// Whatever stands behind an encoding, its instruction is the answer, with its length.
pub fn encodings_decode()
    ensures { (i : Instruction) (rest : List ℕ) → IsInstr i →
        decode (encoding i ++ rest) ≡ Decoded.One i (length (encoding i)) }
{}

/// No encoding is a proper prefix of another: where one begins another, nothing is left over.
pub fn no_encoding_begins_another()
    ensures { (i j : Instruction) (rest : List ℕ) → IsInstr i → IsInstr j →
        encoding j ≡ encoding i ++ rest → (i ≡ j) × (rest ≡ []) }
{}

/// Two instructions with one encoding are one instruction.
pub fn encodings_differ()
    ensures { (i j : Instruction) → IsInstr i → IsInstr j → encoding i ≡ encoding j → i ≡ j }
{}

/// An answer of one instruction begins the bytes, and its length is that of its encoding.
pub fn answers_begin_the_bytes()
    ensures { (bytes : List ℕ) (i : Instruction) (n : ℕ) → All (λ b. b < 256) bytes →
        decode bytes ≡ Decoded.One i n → Begins bytes i × (n ≡ length (encoding i)) }
{}

/// An answer is short exactly at a proper prefix of an encoding.
pub fn short_is_a_proper_prefix()
    ensures { (bytes : List ℕ) → All (λ b. b < 256) bytes →
        ((decode bytes ≡ Decoded.Short) ↔ IsCut bytes) }
{}

/// There is no answer exactly where no encoding begins the bytes and they are a prefix of none.
pub fn unknown_is_neither()
    ensures { (bytes : List ℕ) → All (λ b. b < 256) bytes →
        ((decode bytes ≡ Decoded.Unknown) ↔ (((i : Instruction) → Begins bytes i → ⊥)
        × (IsCut bytes → ⊥))) }
{}
