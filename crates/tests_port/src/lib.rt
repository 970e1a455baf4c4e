//! Tests of `mc_port`.
#![tactic(auto)]

#[cfg(test)]
mod outside;
