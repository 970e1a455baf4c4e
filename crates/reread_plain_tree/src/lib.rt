//! The tree of an instrumented text without the brackets of its probes.
#![tactic(auto)]

mod copies;
pub mod laws;

pub use copies::unprobed;
