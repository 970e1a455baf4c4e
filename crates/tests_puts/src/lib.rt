//! Tests of each fault of the outside, over all commands: every put of every form fails in turn, at
//! once and after a few bytes, every load fails, and so does what is put on the errors' sink.
#![tactic(auto)]

#[cfg(test)]
mod files;
#[cfg(test)]
mod inputs;
#[cfg(test)]
mod loads;
#[cfg(test)]
mod noting;
#[cfg(test)]
mod pieces;
#[cfg(test)]
mod puts;
#[cfg(test)]
mod refusals;
#[cfg(test)]
mod run;
