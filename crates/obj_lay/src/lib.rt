//! The image of an object, with its code in an order and at gaps that a seed draws, and hidden.
//!
//! `lay` gives exactly the layout of `obj_core`'s `specs/Layout.antt`, and nothing that its run shows
//! tells one seed from another (`specs/Hidden.antt`). `code` writes the pieces of functions, `slots` the
//! trampolines to them, `image` puts these and the data together; `law` speaks of any image that holds
//! an object. Proofs stand in layers: `proofs/lockstep` runs an object beside an image that holds it,
//! `proofs/hidden` shows that a layout does. Addresses count bytes.
#![tactic(auto)]

mod code;
mod image;
mod instr_at;
pub mod law;
mod slots;

pub use image::lay;
