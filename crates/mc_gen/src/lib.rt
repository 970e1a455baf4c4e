//! The generated source of many functions, and its tests.
#![tactic(auto)]

mod functions;
mod generated;
mod test_lines;
mod worked;

pub use generated::generate;
pub use worked::{source_of_one, tests_of_one};
