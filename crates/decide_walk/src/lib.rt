//! Gathers decisions: what is done at one expression on a walk over a program.
#![tactic(auto)]

mod calls;
mod candidates;
mod gathered;
mod tree;

pub use calls::call_parts;
pub use candidates::enter;
pub use gathered::{Gathered, Mark, answer, mark_of, nothing, settle};
