//! What is told of tests.

use mc_meaning::TestResult;
use mc_typed::{Name, TestState};

/// What is told of tests: their names, their states and, where they were run and not read from a
/// record, their results.
#[derive(Drop)]
pub struct Tested {
    pub names: Vec<Name>,
    pub states: Vec<TestState>,
    pub results: Option<Vec<TestResult>>,
}
