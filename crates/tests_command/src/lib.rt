//! Tests of `mc_command`: worked lines, as laws of the definition and read by the program.
#![tactic(auto)]

#[cfg(test)]
mod laws;
#[cfg(test)]
mod lines;
#[cfg(test)]
mod refusals;
#[cfg(test)]
mod show;
