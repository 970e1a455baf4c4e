//! What is told of the bits that a run hits.
#![tactic(auto)]

mod laws;
mod list_probe;
mod probe;

pub use laws::the_first_are_kept;
pub use list_probe::ListProbe;
pub use probe::Probe;
