//! The tree of an initializer (C17 6.7.9).
use crate::expressions::expression::Expression;
use mc_span::Span;

/// An expression, or initializers in braces (C17 6.7.9).
pub enum Initializer<'a> {
    Single {
        value: Box<Expression<'a>>,
    },
    Braced {
        items: Vec<Initializer<'a>>,
        span: Span,
    },
}

// Not derived: a derived one would be proved again in each crate that lets such a tree go.
impl Drop for Initializer<'_> {
    fn drop(self) {
        match self {
            Initializer::Single { value: _ } | Initializer::Braced { items: _, span: _ } => {}
        }
    }
}
