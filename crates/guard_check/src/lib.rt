//! Guarded objects: each word is tested before a run goes there, so no run strays.
//!
//! `specs/Guard.antt` is the test, ten instructions; `specs/Form.antt` says where it must stand and what
//! may not lead into it; `law` says what follows for every run, under writes by somebody who looks on.
//! `check` takes exactly the guarded objects.
#![tactic(auto)]

pub mod check;
pub mod fault;
mod guard;
pub mod guarded;
mod inside;
mod instr_at;
pub mod law;
