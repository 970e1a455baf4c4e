//! What the tests of an instrumented program did, call by call: they are run by workers, and of
//! each it is kept what its calls gave and where its run stopped.
#![tactic(auto)]

mod gathered;
mod runs;
mod task;
mod told;
mod workers;

pub use workers::trace_tests;
