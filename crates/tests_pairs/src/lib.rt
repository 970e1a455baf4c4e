//! Tests of `mc_cond`, `mc_paths`, `mc_pairs`, `mc_unique` and `mc_masking`.
#![tactic(auto)]

#[cfg(test)]
mod brute_force;
#[cfg(test)]
mod every;
#[cfg(test)]
mod independence;
#[cfg(test)]
mod numbers;
#[cfg(test)]
mod trees;
#[cfg(test)]
mod vectors;
