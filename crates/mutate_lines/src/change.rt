//! What is told of the change that makes a mutant.

use mc_lex::Place;

/// What a line tells of the change that makes a mutant.
#[derive(Clone, Copy)]
pub struct ChangeLine {
    /// Where what is changed begins.
    pub place: Place,
    /// The word for the kind of change.
    pub kind: &'static str,
}
