//! The counts of a program's obligations by function.
#![tactic(auto)]

mod asking;
mod counts;
mod functions;
mod kind;
mod kind_line;
mod laws;
mod lines;
mod measured;
mod padding;
mod row;
mod status;
mod table;

pub use asking::{asked, push_needs_sums};
pub use laws::{full_is_all_met, functions_are_all, stands_in_one};
pub use lines::function_lines;
pub use measured::Measured;
pub use status::functions_status;
