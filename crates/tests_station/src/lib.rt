//! Tests of the top call and of the crates that only it stands on: what no clause says. Runs
//! succeed with ample memory, and the definitions are the ones meant.
#![tactic(auto)]

#[cfg(test)]
mod closers;
#[cfg(test)]
mod endings;
#[cfg(test)]
mod files;
#[cfg(test)]
mod forms;
#[cfg(test)]
mod full;
#[cfg(test)]
mod generated;
#[cfg(test)]
mod justifications;
#[cfg(test)]
mod justified;
#[cfg(test)]
mod meeting;
#[cfg(test)]
mod outcomes;
#[cfg(test)]
mod printed;
#[cfg(test)]
mod row;
#[cfg(test)]
mod rows;
#[cfg(test)]
mod run;
#[cfg(test)]
mod sources;
#[cfg(test)]
mod text;
#[cfg(test)]
mod truth_tables;
#[cfg(test)]
mod watched;
#[cfg(test)]
mod worked;
#[cfg(test)]
mod workers;
