//! What `adapt` gives.

use crate::fault::Fault;

/// What a text becomes.
#[derive(Debug, Drop)]
pub enum Adapted<'a> {
    /// The text without what has no meaning in the language.
    Text(Vec<u8>),
    /// All that is outside the language, in the order of the text.
    Refused(Vec<Fault<'a>>),
}
