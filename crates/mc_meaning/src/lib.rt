//! What a run of a program is: the plain run, as definitions.
#![tactic(auto)]

mod laws;
mod result;

pub use laws::{answers_are_vectors, constants_agree, evaluations_are_of_decisions};
pub use mc_typed::{Ending, TestState};
pub use result::TestResult;
