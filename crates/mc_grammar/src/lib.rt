//! The grammar of the C subset, as a relation between lists of tokens and trees. It computes
//! nothing; what the parser's readers are made of stands beside it, in `specs/steps`.
#![tactic(auto)]

pub mod laws;
pub mod precedence;
pub mod refusals;
pub mod text;
pub mod words;
pub mod worked;
