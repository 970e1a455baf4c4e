//! What is shown of a source: a part of it on one line, without comments.
#![tactic(auto)]

mod blanks;
mod comments;
mod excerpt;

pub use excerpt::{bytes_at, one_line};
