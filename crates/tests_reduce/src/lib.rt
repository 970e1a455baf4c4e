//! Tests of `mc_reduce`.
#![tactic(auto)]

#[cfg(test)]
mod make;
#[cfg(test)]
mod rows;
