//! Tests of the commands that keep records, join and report on them, that choose among tests, try
//! them on mutants, list a source and say what is needed, and of the large program: what no clause
//! says. Runs succeed with ample memory, and the definitions are the ones meant. Of `needs` the
//! lines were worked out by hand from the definitions, over truth tables.
#![tactic(auto)]

#[cfg(test)]
mod analyses;
#[cfg(test)]
mod asked;
#[cfg(test)]
mod closed;
#[cfg(test)]
mod compared;
#[cfg(test)]
mod counted;
#[cfg(test)]
mod faults;
#[cfg(test)]
mod full;
#[cfg(test)]
mod generated;
#[cfg(test)]
mod large;
#[cfg(test)]
mod listed;
#[cfg(test)]
mod merges;
#[cfg(test)]
mod mutated;
#[cfg(test)]
mod needed;
#[cfg(test)]
mod needed_decisions;
#[cfg(test)]
mod needed_files;
#[cfg(test)]
mod needed_remarks;
#[cfg(test)]
mod records;
#[cfg(test)]
mod reduced;
#[cfg(test)]
mod run;
#[cfg(test)]
mod summaries;
#[cfg(test)]
mod text;
