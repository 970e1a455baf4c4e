//! The tree of a declarator (C17 6.7.6).
use crate::declarations::array_length::ArrayLength;
use crate::declarations::parameter::Parameter;
use crate::identifier::Identifier;
use mc_span::Span;

/// How many `*`, a name, and what stands after it (C17 6.7.6). Its span starts at the
/// first `*`, or at the name where there is none.
#[cycle(syntax)]
pub enum Declarator<'a> {
    Object {
        stars: u32,
        name: Identifier<'a>,
        lengths: Vec<ArrayLength<'a>>,
        span: Span,
    },
    /// A function with nothing between its parentheses, whose span is `list_span`.
    EmptyFunction {
        stars: u32,
        name: Identifier<'a>,
        list_span: Span,
        span: Span,
    },
    /// A function with `void` alone between its parentheses.
    VoidFunction {
        stars: u32,
        name: Identifier<'a>,
        list_span: Span,
        span: Span,
    },
    /// A function with parameters.
    Function {
        stars: u32,
        name: Identifier<'a>,
        parameters: Vec<Parameter<'a>>,
        list_span: Span,
        span: Span,
    },
}

// Not derived: a derived one would be proved again in each crate that lets such a tree go.
impl Drop for Declarator<'_> {
    #[cycle(syntax)]
    fn drop(self) {
        match self {
            Declarator::Object {
                stars: _,
                name: _,
                lengths: _,
                span: _,
            }
            | Declarator::EmptyFunction {
                stars: _,
                name: _,
                list_span: _,
                span: _,
            }
            | Declarator::VoidFunction {
                stars: _,
                name: _,
                list_span: _,
                span: _,
            }
            | Declarator::Function {
                stars: _,
                name: _,
                parameters: _,
                list_span: _,
                span: _,
            } => {}
        }
    }
}
