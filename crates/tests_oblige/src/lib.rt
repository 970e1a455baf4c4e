//! Tests of `mc_oblige`.
#![tactic(auto)]

#[cfg(test)]
mod make;
#[cfg(test)]
mod rows;
