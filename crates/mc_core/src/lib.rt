//! The matrix of bits and tests, and the interleaving core of its workers.
#![tactic(auto)]

mod laws;
mod matrix;
mod merged;
mod schedule;
mod shape;

pub use laws::words_follow_from_pairs;
pub use matrix::Matrix;
pub use merged::{MergeFault, merge};
pub use schedule::{CoreState, CoreWorker, run_schedule};
pub use shape::{Shape, words};
