//! Soundness of names and types: what a unit without faults gives is a sound typed program.
#![tactic(auto)]

pub mod laws;
