//! Prints instrumented programs as C: the tokens of the source with what the probes insert.
#![tactic(auto)]

mod effects;
mod expressions;
mod functions;
mod gap;
mod initializers;
mod insertions;
mod laws;
mod pen;
mod pieces;
mod printing;
mod statements;
mod words;

pub use laws::worked_text;
pub use printing::print;
