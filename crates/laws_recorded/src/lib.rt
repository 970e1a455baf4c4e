//! Laws on what is recorded of tests: it says of their events what the plain runs say. There is no
//! code in it, but laws.
#![tactic(auto)]

mod laws;

pub use laws::{events_are_kept, paths_are_kept, runs_are_recorded, verdicts_are_kept};
