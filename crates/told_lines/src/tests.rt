//! The front of the line of a test.
ghost use Rattle.std.specs.Prelude.{◌≡◌, IfOk};
ghost use Rattle.told_lines.specs.Tests.{test_text};

use mc_typed::{Name, TestState};
use report_words::state_word;
use std::alloc::{AllocError, Global};

/// The name of a test and its state, without the line's end.
pub fn test_text(alloc: Global, name: &Name, state: TestState) -> Result<Vec<u8>, AllocError>
    ensures { IfOk result (λ line. line.items ≡ test_text name.now state) }
{
    let mut line = Vec::new(alloc);
    line.extend_from_slice(b"test ")?;
    line.extend_from_slice(name.bytes())?;
    line.extend_from_slice(b" ")?;
    line.extend_from_slice(state_word(state).as_bytes())?;
    Ok(line)
}
