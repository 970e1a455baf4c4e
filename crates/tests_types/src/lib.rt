//! Tests of names and types, from a source on.
#![tactic(auto)]

#[cfg(test)]
mod faults;
#[cfg(test)]
mod reading;
#[cfg(test)]
mod sizes;
