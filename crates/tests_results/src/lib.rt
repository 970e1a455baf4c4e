//! Tests of what is told of tests, call by call, from a source on.
#![tactic(auto)]

#[cfg(test)]
mod fail;
#[cfg(test)]
mod reading;
#[cfg(test)]
mod rows;
#[cfg(test)]
mod runs;
