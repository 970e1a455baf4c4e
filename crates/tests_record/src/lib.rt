//! Tests of `mc_record`.
#![tactic(auto)]

#[cfg(test)]
mod edits;
#[cfg(test)]
mod limits;
#[cfg(test)]
mod merges;
#[cfg(test)]
mod outcome;
#[cfg(test)]
mod sinks;
#[cfg(test)]
mod text;
#[cfg(test)]
mod wholes;
