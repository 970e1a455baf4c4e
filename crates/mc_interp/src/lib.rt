//! The interpreter of instrumented programs.
#![tactic(auto)]

mod asked;
mod call_done;
mod calls;
mod effects;
mod entries;
mod expressions;
mod flow;
mod frame;
mod initializers;
mod labels;
mod machine;
mod parts;
mod performed;
mod prepared;
mod starts;
mod statements;
mod steps;
mod store;
mod tests;
mod values;

pub use call_done::CallDone;
pub use hit_sink::{ListProbe, Probe};
pub use machine::Machine;
