//! Laws of the trees of a text: at other places, with brackets put into it and taken out again, and
//! that its places are apart. There is no code in it, but definitions and laws.
#![tactic(auto)]

pub mod laws;
pub mod worked;
