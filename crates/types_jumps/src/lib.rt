//! What is found at a label of a `switch` (C17 6.8.1) and at a jump statement (C17 6.8.6).
#![tactic(auto)]

mod jumps;
mod labels;
mod returns;

pub use jumps::{break_statement, continue_statement, return_nothing};
pub use labels::{case_label, default_label};
pub use returns::return_statement;
