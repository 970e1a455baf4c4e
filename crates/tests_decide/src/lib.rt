//! Tests of the decisions of a program: sources, from their text on, and laws of worked texts.
#![tactic(auto)]

#[cfg(test)]
mod laws;
#[cfg(test)]
mod reading;
#[cfg(test)]
mod rows;
#[cfg(test)]
mod show;
#[cfg(test)]
mod table;
