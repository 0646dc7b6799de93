//! Accesses to objects, and what each of them is over flat memory: laws, without code.
//!
//! `low_core` has in its `specs/Bridge` what ties a memory of objects to flat memory. Each law says
//! that an access which objects allow is allowed over flat memory, gives the same and keeps the tie.
//! Nothing above opens the tie. `specs/Accesses` has the words of the laws.
#![tactic(auto)]

pub mod law;
