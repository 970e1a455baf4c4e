//! The parts of the parser below statements: what reads expressions, specifiers, declarators,
//! initializers and declarations from the tokens that are left. Each function equals its reader of
//! laws_grammar, which gives exactly what the grammar reads. The crates of the parser alone stand on
//! this one.
#![tactic(auto)]

mod accept;
pub mod allowed;
pub mod declarations;
mod grammar;
mod initializers;
pub mod knot;
mod known;
pub mod read;
