//! Laws of places: the typed program of a text and its probes do not depend on where its tokens
//! stand. There is no code in it, but definitions and laws.
#![tactic(auto)]

pub mod laws;
pub mod worked;
