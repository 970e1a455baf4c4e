//! Unique-cause independence of conditions.
#![tactic(auto)]

mod candidates;
mod compare;
mod laws;
mod unique;
pub mod worked;

pub use laws::{pair_evaluated, pair_of_answers, pair_of_masks, pair_of_prefix, pair_turns};
pub use unique::unique_pair;
