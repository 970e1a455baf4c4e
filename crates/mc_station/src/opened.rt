//! Shared words that are opened.

use mc_cover::{Cover, Pass};

/// The shared words of a run, and the pass of the one that opened them.
#[derive(Drop)]
pub struct Opened {
    pub cover: Cover,
    pub pass: Pass,
}
