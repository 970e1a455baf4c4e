//! Runs the tests of an instrumented program by workers: the hits of each test in a cover, and what
//! is told of it.
#![tactic(auto)]

mod done;
mod job;
mod laws;
mod results;
mod states;
mod watching;
mod workers;

pub use laws::{bits_stand, closed_is_recorded, events_stand, results_are_plain};
pub use states::test_states;
pub use watching::watch_tests;
pub use workers::run_tests;
