//! The rows of the table in the order of a text, and laws on them: where they may stand, whose
//! brackets they are, and that each probe is found at what it stands at. There is no code in it,
//! but definitions and laws.
#![tactic(auto)]

pub mod laws;
pub mod worked;
