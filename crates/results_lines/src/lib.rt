//! What each call of the tests did, as lines of a text.
#![tactic(auto)]

mod blocks;
mod calls;
mod lines;
mod source;
mod statement;
mod stops;
mod tests;
mod words;

pub use lines::results_lines;
