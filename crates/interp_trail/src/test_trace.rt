//! What is told of the run of a test, call by call.
ghost use Rattle.std.specs.Prelude.{◌≡◌, map, IfOk};
ghost use Rattle.interp_trail.specs.Seen.{trace_of};

use crate::returned_call::ReturnedCall;
use crate::stop::Stop;
use mc_typed::{Ending, TestState};
use std::alloc::{AllocError, Global};

/// How the run of a test ended, the calls that returned, in order, the output, the state, and where
/// the run stopped, if it ended before each call returned.
#[derive(Drop)]
pub struct TestTrace {
    pub ending: Ending,
    pub done: Vec<ReturnedCall>,
    pub output: Vec<i32>,
    pub state: TestState,
    pub stop: Option<Stop>,
}

/// The state of each test.
pub fn test_states(alloc: Global, traces: &[TestTrace]) -> Result<Vec<TestState>, AllocError>
    ensures { IfOk result (λ states. states.items ≡ map (λ t. t.state) (map trace_of traces.now)) }
{
    let mut states = Vec::new(alloc);
    let mut left = traces;
    while let [trace, later @ ..] = left {
        states.push(trace.state)?;
        left = later;
    }
    Ok(states)
}
