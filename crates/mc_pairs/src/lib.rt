//! The chosen pair of evaluations of a decision, and the paths in which a condition has influence.
#![tactic(auto)]

mod influence;

pub use influence::has_influence_as;
