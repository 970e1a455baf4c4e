//! What is told of the run of a test.
use mc_typed::{Ending, TestState};

/// How the run of a test ended, the value of each call that returned (none for a void function),
/// the numbers of the output, and the state.
#[derive(Drop)]
pub struct TestResult {
    pub ending: Ending,
    pub values: Vec<Option<i128>>,
    pub output: Vec<i32>,
    pub state: TestState,
}
