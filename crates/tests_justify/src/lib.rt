//! Tests of the justification file.
#![tactic(auto)]

#[cfg(test)]
mod files;
#[cfg(test)]
mod limits;
#[cfg(test)]
mod outcome;
#[cfg(test)]
mod targets;
