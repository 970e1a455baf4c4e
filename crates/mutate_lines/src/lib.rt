//! Which tests kill which mutants, as lines of a text.
#![tactic(auto)]

mod change;
mod laws;
mod lines;
mod search;
mod sums;

pub use change::ChangeLine;
pub use laws::{all_are_told, killers_are_one};
pub use lines::mutant_lines;
pub use search::killers;
pub use sums::survived;
