//! The tree of a list of tokens.
#![tactic(auto)]

mod fault;
mod items;
mod statements;
mod whole;

pub use fault::ParseFault;
pub use whole::{parse, parse_within};
