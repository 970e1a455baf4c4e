//! The cells that a program's objects take while it runs.
#![tactic(auto)]

mod cell;
mod cells;

pub use cells::Cells;
