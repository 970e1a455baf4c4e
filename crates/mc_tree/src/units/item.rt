//! The tree of a declaration or a function definition of a source (C17 6.9).
use crate::declarations::declaration::Declaration;
use crate::declarations::declarator::Declarator;
use crate::declarations::specifier::Specifier;
use crate::statements::block_item::BlockItem;
use mc_span::Span;

/// A declaration or a function definition (C17 6.9).
pub enum Item<'a> {
    Declared {
        declaration: Declaration<'a>,
    },
    Defined {
        specifiers: Vec<Specifier<'a>>,
        declarator: Declarator<'a>,
        body: Vec<BlockItem<'a>>,
        span: Span,
    },
}

impl Drop for Item<'_> {
    fn drop(self) {
        match self {
            Item::Declared { declaration: _ }
            | Item::Defined {
                specifiers: _,
                declarator: _,
                body: _,
                span: _,
            } => {}
        }
    }
}
