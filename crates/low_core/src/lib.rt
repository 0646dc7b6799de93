//! Modules on their way to machine code: without phis, without switches, and then in registers.
//!
//! `moves` has the parts of the first two. A chunk is a block whose instructions are moves: what a
//! module does, or a copy. Variables are assigned, and may be assigned again. What such a program means
//! is the meaning of the module that it stands for, `specs/Plain`; what its passes promise each other is
//! `specs/Shaped` and `specs/Weights`.
//!
//! `sel` has programs of numbered registers over flat memory, which is told in `specs/Flat`. What they
//! mean is in `specs/SelStep` and `specs/SelRun`, by a plan of addresses (`specs/Plan`); what passes
//! promise each other in `specs/SelShaped` and `specs/SelWeights`; where a register's word is still
//! needed in `specs/Liveness`; and what ties their memory to that of modules in `specs/Bridge`.
#![tactic(auto)]

pub mod copies;
pub mod law;
pub mod moves;
pub mod sel;
