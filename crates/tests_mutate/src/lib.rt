//! Tests of the mutants of a program, from a source on.
#![tactic(auto)]

#[cfg(test)]
mod expressions;
#[cfg(test)]
mod killed;
#[cfg(test)]
mod kills;
#[cfg(test)]
mod mutants;
#[cfg(test)]
mod reading;
#[cfg(test)]
mod rows;
#[cfg(test)]
mod show;
#[cfg(test)]
mod statements;
#[cfg(test)]
mod table;
