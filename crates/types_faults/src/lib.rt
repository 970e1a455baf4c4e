//! Faults of names and types, and which of several answers.
#![tactic(auto)]

mod fault;
pub mod laws;
mod least;

pub use fault::{Fault, FaultKind};
pub use least::{after, after_two, fault_where, lesser, or_fault, three_or_fault, two_or_fault};
