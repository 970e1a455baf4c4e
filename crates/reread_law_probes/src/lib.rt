//! Laws of the probes of a text that are put back into its program: each stands where it stood, and
//! they are counted. There is no code in it, but definitions and laws.
#![tactic(auto)]

pub mod laws;
