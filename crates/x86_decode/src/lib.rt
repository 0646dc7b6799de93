//! The instruction that bytes begin with.
//!
//! `decode_one` reads a prefix, an opcode and operands, each by a dispatch on bytes. `prefix` has
//! the tests that rows make of a prefix, `operand` the operands, `row` the rows by their opcodes.
//! Which instruction it is says `encoding` of `x86_core`; the laws that make it the only one stand
//! in `law`.
#![tactic(auto)]

ghost use Rattle.std.specs.Prelude.{ℕ, ◌≡◌, length};
ghost use Rattle.x86_core.specs.declared.instr.Instr.{Instr as Instruction};
ghost use Rattle.x86_core.specs.Encoding.{encoding, Begins, IsCut};
ghost use Rattle.x86_core.specs.Decoding.{decode};

pub mod law;
mod operand;
mod prefix;
mod row;

use rd_num::bytes::bytes_known;
use row::{after_rex, after_word, opcode};
use x86_core::instr::{Decoded, Prefix};

/// The instruction that bytes begin with, and its length, 1 to 10. Takes no memory.
///
/// `One` comes exactly where an encoding begins the bytes, `Short` exactly where they are a proper
/// prefix of one, `Unknown` exactly where neither holds.
pub fn decode_one(bytes: &[u8]) -> Decoded
    ensures decoding { result ≡ decode bytes.now }
    ensures one { (i : Instruction) → Begins bytes.now i →
        result ≡ Decoded.One i (length (encoding i)) }
    ensures begins { (i : Instruction) (n : ℕ) → result ≡ Decoded.One i n → Begins bytes.now i
        × (n ≡ length (encoding i)) }
    ensures short { IsCut bytes.now → result ≡ Decoded.Short }
    ensures cut { result ≡ Decoded.Short → IsCut bytes.now }
    ensures unknown { ((i : Instruction) → Begins bytes.now i → ⊥) → (IsCut bytes.now → ⊥) →
        result ≡ Decoded.Unknown }
    ensures neither { result ≡ Decoded.Unknown → ((i : Instruction) → Begins bytes.now i → ⊥)
        × (IsCut bytes.now → ⊥) }
{
    bytes_known(bytes);
    first_instruction(bytes)
}

#[tactic(auto, unfolding(x86_core::specs::Decoding::decode))]
fn first_instruction(bytes: &[u8]) -> Decoded
    ensures { result ≡ decode bytes.now }
{
    match bytes {
        [] => Decoded::Short,
        [0x66, rest @ ..] => after_word(rest),
        [b, rest @ ..] => {
            if prefix::is_rex_byte(*b) {
                after_rex(prefix::rex_bits(*b), rest)
            } else {
                opcode(Prefix::Plain, *b, rest)
            }
        }
    }
}
