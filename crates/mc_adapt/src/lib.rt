//! A preprocessed text with extensions becomes a source of the language, or all that is outside it
//! is named.
#![tactic(auto)]

mod adapted;
mod adapting;
mod fault;
mod floating;
pub mod laws;
mod mark;
mod marking;
mod rules;
mod sort;
mod sorting;
mod state;
mod steps;
mod table;
mod text;
mod void;
mod words;

pub use adapted::Adapted;
pub use adapting::adapt;
pub use fault::Fault;
pub use mark::Reason;
