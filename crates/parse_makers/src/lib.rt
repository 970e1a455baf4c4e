//! Statements with `if` on the heap, with the place that their parts give them.
//! The parser alone stands on this crate.
#![tactic(auto)]

pub mod statements;
