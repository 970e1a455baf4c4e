//! Decisions as trees of conditions, their truth, and the vectors of their evaluation.
#![tactic(auto)]

mod answers;
mod evaluation;
mod influence;
mod laws;
mod tree;
mod vector;

pub use answers::Answers;
pub use evaluation::walk;
pub use influence::influence_on;
pub use laws::{
    completion_has_outcome, completion_has_vector, flip_stays, influence_evaluated,
    influence_turns, operand_takes_either, vector_has_completion,
};
pub use tree::{CondTree, conditions, conditions_in, is_short, truth};
pub use vector::Vector;
