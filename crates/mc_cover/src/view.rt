//! What a pass knows.

use mc_core::Shape;
use std::collections::LinkedList;

/// Whose pass it is.
pub enum Role {
    /// It came from `open`: it forks, joins and closes.
    Opener,
    /// It came from `fork`: it claims and hits.
    Worker,
    /// It was joined.
    Spent,
}

/// What a pass knows. No value of it is made: it stands in contracts alone.
pub struct View {
    pub role: Role,
    /// The shape of the cover.
    pub shape: Shape,
    /// The tests that it claimed, in that order.
    pub claims: LinkedList<u32>,
    /// How often it drew a number that is not a test.
    pub over: u32,
    /// The bits that it hit, each with its test.
    pub hits: LinkedList<(u32, u32)>,
    /// What it loaded: the index of a coverage word, and the value found there.
    pub seen: LinkedList<(u32, u64)>,
    /// How many passes it forked.
    pub forks: u32,
    /// How many of them it joined.
    pub joined: u32,
}
