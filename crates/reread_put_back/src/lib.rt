//! Puts the probes of a text into the program that the text has without them.
#![tactic(auto)]

mod effects;
mod events;
mod expressions;
mod fault;
mod functions;
mod initializers;
mod judging;
mod laws;
mod pen;
mod program;
mod rounds;
mod statements;
mod sums;
mod walk;

pub use fault::BackFault;
pub use laws::{
    faults_round_no_place, first_faults, function_with_probes, probes_round_conversions,
    sums_of_paths,
};
pub use program::put_back;
