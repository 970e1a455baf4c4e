//! Parameters of functions.
use crate::declarations::array_length::ArrayLength;
use crate::declarations::specifier::Specifier;
use crate::identifier::Identifier;
use mc_span::Span;

/// A parameter, perhaps without a name (C17 6.7.6.3).
#[cycle(syntax)]
pub struct Parameter<'a> {
    pub specifiers: Vec<Specifier<'a>>,
    pub stars: u32,
    pub name: Option<Identifier<'a>>,
    pub lengths: Vec<ArrayLength<'a>>,
    pub span: Span,
}

// Not derived: a derived one would be proved again in each crate that lets such a tree go.
impl Drop for Parameter<'_> {
    #[cycle(syntax)]
    fn drop(self) {
        let Self {
            specifiers: _,
            stars: _,
            name: _,
            lengths: _,
            span: _,
        } = self;
    }
}
