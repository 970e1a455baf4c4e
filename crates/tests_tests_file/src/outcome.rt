//! What comes of a tests file.
use mc_tests::{TestFault, read_tests};
use mc_typed::Program;
use std::alloc::Global;

/// How many tests the file has, or its fault.
pub(crate) fn outcome(
    alloc: Global,
    program: &Program<'_>,
    file: &[u8],
) -> (usize, Option<TestFault>) {
    match read_tests(alloc, file, program, 1) {
        Ok(plans) => {
            let tests = plans.len();
            drop(plans);
            (tests, None)
        }
        Err(fault) => (0, Some(fault)),
    }
}
