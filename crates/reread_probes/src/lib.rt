//! The shapes of an instrumented text in its tree: the probes, each at what it stands at.
#![tactic(auto)]

mod counted;
mod declarations;
mod expressions;
mod fault;
pub mod laws;
mod probe;
mod spot;
mod statements;
mod units;
mod walk;

pub use fault::PlaceFault;
pub use units::placed;
