//! The tree of a declaration (C17 6.7).
use crate::declarations::init_declarator::InitDeclarator;
use crate::declarations::specifier::Specifier;
use mc_span::Span;

/// A declaration that is not a function definition (C17 6.7).
pub struct Declaration<'a> {
    pub specifiers: Vec<Specifier<'a>>,
    pub declarators: Vec<InitDeclarator<'a>>,
    pub span: Span,
}

impl Drop for Declaration<'_> {
    fn drop(self) {
        let Self {
            specifiers: _,
            declarators: _,
            span: _,
        } = self;
    }
}
