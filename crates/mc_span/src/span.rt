//! Places in a source.

/// A part of a source, by byte offsets: `start` is its first byte, `end` is one after its last.
#[derive(Clone, Copy, Debug, PartialEq, Eq)]
pub struct Span {
    pub start: u32,
    pub end: u32,
}
