//! Tests of instrumented texts that are read again: the tree that they stand for, or what is wrong.
#![tactic(auto)]

#[cfg(test)]
mod again;
#[cfg(test)]
mod answer;
#[cfg(test)]
mod fail;
#[cfg(test)]
mod faults;
#[cfg(test)]
mod texts;
