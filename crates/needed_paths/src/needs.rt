//! What all obligations need.

use crate::need::Need;
use crate::wanted::Wanted;

/// What the missing obligations of a program need.
#[derive(Drop)]
pub struct Needs {
    /// For each obligation in order what it needs, by what tests evaluate: of those that are asked
    /// about, outcomes and conditions need something.
    pub each: Vec<Option<Need>>,
    /// The vectors that all of them together need, in the order in which they were put on the list.
    pub wanted: Vec<Wanted>,
}
