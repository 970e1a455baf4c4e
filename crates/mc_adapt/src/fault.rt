//! What is outside the language.

use crate::mark::Reason;

/// A piece that is outside the language: the byte at which it starts, why, and its bytes. At the
/// end of the text it has none.
#[derive(Clone, Copy, Debug)]
pub struct Fault<'a> {
    pub at: u32,
    pub reason: Reason,
    pub text: &'a [u8],
}
