//! Members of structures.
use crate::declarations::declarator::Declarator;
use crate::declarations::specifier::Specifier;
use mc_span::Span;

/// A declaration of members with the same specifiers (C17 6.7.2.1).
#[cycle(syntax)]
pub struct Member<'a> {
    pub specifiers: Vec<Specifier<'a>>,
    pub declarators: Vec<Declarator<'a>>,
    pub span: Span,
}

// Not derived: a derived one would be proved again in each crate that lets such a tree go.
impl Drop for Member<'_> {
    #[cycle(syntax)]
    fn drop(self) {
        let Self {
            specifiers: _,
            declarators: _,
            span: _,
        } = self;
    }
}
