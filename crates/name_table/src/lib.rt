//! Names with what they mean, the last entry of a name first.
#![tactic(auto)]

mod latest;
mod table;

pub use latest::hash;
pub use table::Table;
