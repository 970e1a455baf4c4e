//! Tests of `mc_value`: worked values.
#![tactic(auto)]

#[cfg(test)]
mod arithmetic;
