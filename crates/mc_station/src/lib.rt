//! The top call: the words of a command line, a store and two sinks in, a status out.
#![tactic(auto)]

mod accepted;
mod basis;
mod commands;
mod digest;
mod judge;
pub mod laws;
mod listed;
mod means;
mod opened;
mod output;
mod printable;
mod ran;
mod records;
mod reply;
mod run;
mod source;
mod stage;
pub mod statuses;
mod tested;
mod told;
mod top;
mod words;
mod writable;

pub use top::station;
