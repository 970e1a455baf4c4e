//! What the lines on tests of a report and of their calls have in common: how values and numbers
//! are written, the front of a test's line, and the line that counts tests.
#![tactic(auto)]

mod passes;
mod tests;
mod values;

pub use passes::{passed, passed_text};
pub use tests::test_text;
pub use values::{push_number, push_output, push_value};
