//! Which vectors of a decision would show an outcome or a condition that is not shown.
#![tactic(auto)]

mod among;
mod answer;
mod decision;
mod due;
mod each;
mod ids;
mod laws;
mod listing;
mod marks;
mod outcome;
mod pairing;
mod wanting;

pub use answer::needs;
pub use laws::{condition_has_pair, outcome_has_vector};
pub use needed_paths::{Need, Needs, Wanted};
