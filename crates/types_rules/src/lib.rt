//! Names and types: which units have a typing, and what their typed programs are.
#![tactic(auto)]

pub mod laws;
pub mod worked;
