//! Tests of `mc_list`.
#![tactic(auto)]

pub mod laws;
#[cfg(test)]
mod rows;
