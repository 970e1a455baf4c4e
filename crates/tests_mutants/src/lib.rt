//! Tests of `mutate` on programs with as many mutants as there may be, and one more. They stand
//! apart, since they take ten minutes in a build with checks.
#![tactic(auto)]

#[cfg(test)]
mod most;
#[cfg(test)]
mod run;
