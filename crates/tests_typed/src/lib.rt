//! Tests of typed programs.
#![tactic(auto)]

#[cfg(test)]
mod trees;
