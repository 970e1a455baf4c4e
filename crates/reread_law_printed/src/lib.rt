//! Laws of the printed text of a program with probes: its parts, their order and places, and that
//! its bytes are read again as the tokens that were printed. There is no code in it, but
//! definitions and laws.
#![tactic(auto)]

pub mod laws;
pub mod worked;
