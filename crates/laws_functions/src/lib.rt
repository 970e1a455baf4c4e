//! Laws that tie the counts by function to the report. There is no code in it, but laws.
#![tactic(auto)]

mod laws;

pub use laws::{functions_are_reports, status_is_reports};
