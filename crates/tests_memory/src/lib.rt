//! What the tests of whole calls share: words, files and sinks in memory, and the error of a test
//! that cannot go on. No clause says what they give: the tests do.
#![tactic(auto)]

mod fail;
mod files;
mod sinks;
mod words;

pub use fail::Fail;
pub use files::push_file;
pub use sinks::{failing_sink, sink_of};
pub use words::words_of;
