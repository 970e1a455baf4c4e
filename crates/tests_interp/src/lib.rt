//! Tests of runs, from a source on.
#![tactic(auto)]

#[cfg(test)]
mod deep;
#[cfg(test)]
mod endings;
#[cfg(test)]
mod fail;
#[cfg(test)]
mod hits;
#[cfg(test)]
mod operators;
#[cfg(test)]
mod reading;
#[cfg(test)]
mod row;
#[cfg(test)]
mod runs;
#[cfg(test)]
mod worked;
