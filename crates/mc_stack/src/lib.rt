//! Rows of values that grow and shrink at their end and take all memory when they are made.
#![tactic(auto)]

mod stack;

pub use stack::Stack;
