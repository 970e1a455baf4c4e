//! Names and their places.
use mc_span::Span;

/// A name as it is written, and where (C17 6.4.2).
#[derive(Clone, Copy, Debug)]
pub struct Identifier<'a> {
    pub text: &'a [u8],
    pub span: Span,
}
