//! The tests file: which plans of a program its bytes stand for, or its first fault.
#![tactic(auto)]

mod draft;
mod fault;
mod functions;
mod line;
mod read;
mod tests;
pub mod worked;

pub use fault::TestFault;
pub use read::read_tests;
