//! Steps of running tests: how many workers run them, and whether what a test did is what is
//! expected of it.
#![tactic(auto)]

mod comparison;
mod expected;
mod output;
mod state;
mod workers;

pub use comparison::Comparison;
pub use expected::{is_output, is_value};
pub use output::part;
pub use state::state_where;
pub use workers::workers_for;
