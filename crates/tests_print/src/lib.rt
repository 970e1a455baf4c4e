//! Tests of the printed text, from a source on.
#![tactic(auto)]

#[cfg(test)]
mod fail;
#[cfg(test)]
mod faults;
#[cfg(test)]
mod programs;
#[cfg(test)]
mod reading;
#[cfg(test)]
mod texts;
