//! What the parser's descent computes, on lists of tokens: exactly what the grammar's relation
//! says.
#![tactic(auto)]

pub mod laws;
