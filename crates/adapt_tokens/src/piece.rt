//! Pieces of a text.

use crate::kind::Kind;

/// A piece of a text: its bytes are the part of the text that starts at byte `start`.
#[derive(Clone, Copy, Debug)]
pub struct Piece<'a> {
    pub kind: Kind,
    pub text: &'a [u8],
    pub start: u32,
}
