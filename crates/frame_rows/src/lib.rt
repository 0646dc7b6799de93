//! The rows of instructions that operations on numbered registers become, and what they do.
//!
//! A register of the program lives in one of five processor registers or in a word of the frame
//! (`spot`). `op` puts the row of an operation behind others; calls have none. `specs/Code` says
//! which rows these are, over any homes; `specs/Ties` what homes and memory hold between
//! operations; `specs/Steps` what a row comes to. That each row comes to what its operation does is
//! `op_law` in `proofs/Operations`; how long rows are is told in `law`. No object, slot or place
//! occurs here.
//!
//!     v2 = add i8 v0, v1
//!
//! where v0 lives in rbx, v1 in the frame's second word and v2 in r12, becomes `mov rax, rbx`,
//! `mov rcx, [rsp + 8]`, `add eax, ecx`, `movzx eax, al`, `mov r12, rax`.
#![tactic(auto)]

pub mod law;
pub mod op;
pub mod piece;
pub mod spot;
