//! The lines that say which vectors the missing obligations of a program need.
#![tactic(auto)]

mod conditions;
mod laws;
mod lines;
mod needed;
mod parts;
mod remarks;
mod report;
mod wanted;

pub use laws::each_has_one_head;
pub use lines::needs_lines;
pub use report::NeedsReport;
