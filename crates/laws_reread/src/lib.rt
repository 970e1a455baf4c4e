//! Printed texts that are read again: laws, and the call that has them as a clause.
#![tactic(auto)]

pub mod among;
pub mod headed;
pub mod laws;
pub mod separate;
mod text;

pub use text::reread;
