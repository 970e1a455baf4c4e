//! The lines on what stays outside the language once `adapt` has done what it can: a line each,
//! with the place in the source.
#![tactic(auto)]

mod lines;

pub use lines::refusal_text;
