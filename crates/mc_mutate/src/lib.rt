//! Mutants of decisions: programs that differ from a program in one node or one condition of a
//! decision.
#![tactic(auto)]

mod changes;
mod copies;
mod kills;
mod laws;
mod numbers;
mod search;

pub use changes::{Change, MutantKind};
pub use copies::mutant;
pub use kills::run_mutants;
pub use laws::{changes_are_of_roots, counts_are_small, mutants_are_sound, worked_mutants};
pub use numbers::{change, count_mutants};
