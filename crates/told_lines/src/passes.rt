//! How many tests passed.
ghost use Rattle.std.specs.Prelude.{◌≡◌, IfOk};
ghost use Rattle.told_lines.specs.Passes.{passed, passed_text};

use mc_typed::TestState;
use std::alloc::{AllocError, Global};

/// Whether a test passed. Takes no memory.
pub fn passed(state: TestState) -> bool
    ensures { result ≡ passed state }
{
    match state {
        TestState::Pass => true,
        TestState::Fail | TestState::Ended(_) => false,
    }
}

/// The line of this number of tests, of which this number passed.
pub fn passed_text(alloc: Global, tests: usize, passed: usize) -> Result<Vec<u8>, AllocError>
    ensures { IfOk result (λ line. line.items ≡ passed_text tests passed) }
{
    let line = format!(in alloc; "tests {tests} passed {passed}\n")?;
    Ok(line.into_bytes())
}
