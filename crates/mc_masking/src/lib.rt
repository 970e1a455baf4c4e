//! Masking independence of conditions.
#![tactic(auto)]

mod laws;
mod least;
mod masking;
mod reach;
pub mod worked;

pub use laws::{
    chosen_least, chosen_least_alone, pair_evaluated, pair_of_influence, pair_of_influence_alone,
    pair_of_masks, pair_of_masks_alone, pair_turns,
};
pub use masking::masking_pair;
pub use reach::influence;
