//! That what is told of tests, call by call, is what their plain runs did, as laws.
#![tactic(auto)]

mod laws;

pub use laws::{counts_are_loads, test_lines_are_reports, traces_are_plain};
