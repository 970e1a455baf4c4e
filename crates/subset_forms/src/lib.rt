//! The forms that the profile leaves out, and what a node has to know of the nodes around it.
#![tactic(auto)]

mod context;
mod form;
mod outside;

pub use context::{Region, Role, Standing};
pub use form::Form;
pub use outside::{Outside, first_of};
