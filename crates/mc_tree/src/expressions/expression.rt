//! The tree of an expression (C17 6.5).
ghost use Rattle.std.specs.Prelude.{◌≡◌};
ghost use Rattle.mc_tree.specs.Tree.{span_of};
ghost use Rattle.mc_tree.specs.Views.{expression_of};

use crate::declarations::specifier::Specifier;
use crate::expressions::assignment_operator::AssignmentOperator;
use crate::expressions::binary_operator::BinaryOperator;
use crate::expressions::step_operator::StepOperator;
use crate::expressions::unary_operator::UnaryOperator;
use crate::identifier::Identifier;
use mc_span::Span;

/// An expression, with a variant for each alternative of its productions (C17 6.5).
#[cycle(syntax)]
pub enum Expression<'a> {
    Name {
        name: Identifier<'a>,
    },
    /// An integer constant: its value, whether it is written in decimal, whether its suffix has a
    /// `u`, and how many `l` its suffix has (C17 6.4.4.1).
    Constant {
        value: u64,
        decimal: bool,
        unsigned: bool,
        longs: u32,
        span: Span,
    },
    /// A character constant, whose value is that of its one byte (C17 6.4.4.4).
    Character {
        value: i32,
        span: Span,
    },
    Parenthesized {
        inner: Box<Expression<'a>>,
        span: Span,
    },
    Call {
        name: Identifier<'a>,
        arguments: Vec<Expression<'a>>,
        span: Span,
    },
    Index {
        array: Box<Expression<'a>>,
        index: Box<Expression<'a>>,
        span: Span,
    },
    Member {
        object: Box<Expression<'a>>,
        name: Identifier<'a>,
        span: Span,
    },
    /// `++` or `--` after its operand.
    PostfixStep {
        operator: StepOperator,
        operand: Box<Expression<'a>>,
        span: Span,
    },
    /// `++` or `--` before its operand.
    PrefixStep {
        operator: StepOperator,
        operand: Box<Expression<'a>>,
        span: Span,
    },
    Unary {
        operator: UnaryOperator,
        operand: Box<Expression<'a>>,
        span: Span,
    },
    /// The specifiers and the number of `*` of the type name, its span, and the operand.
    Cast {
        specifiers: Vec<Specifier<'a>>,
        stars: u32,
        type_span: Span,
        operand: Box<Expression<'a>>,
        span: Span,
    },
    Binary {
        operator: BinaryOperator,
        left: Box<Expression<'a>>,
        right: Box<Expression<'a>>,
        span: Span,
    },
    Conditional {
        test: Box<Expression<'a>>,
        chosen: Box<Expression<'a>>,
        other: Box<Expression<'a>>,
        span: Span,
    },
    Assignment {
        operator: AssignmentOperator,
        target: Box<Expression<'a>>,
        value: Box<Expression<'a>>,
        span: Span,
    },
    /// Two or more operands with commas between them.
    Comma {
        operands: Vec<Expression<'a>>,
        span: Span,
    },
}

// Not derived: a derived one would be proved again in each crate that lets such a tree go.
impl Drop for Expression<'_> {
    #[cycle(syntax)]
    fn drop(self) {
        match self {
            Expression::Name { name: _ }
            | Expression::Constant {
                value: _,
                decimal: _,
                unsigned: _,
                longs: _,
                span: _,
            }
            | Expression::Character { value: _, span: _ }
            | Expression::Parenthesized { inner: _, span: _ }
            | Expression::Call {
                name: _,
                arguments: _,
                span: _,
            }
            | Expression::Index {
                array: _,
                index: _,
                span: _,
            }
            | Expression::Member {
                object: _,
                name: _,
                span: _,
            }
            | Expression::PostfixStep {
                operator: _,
                operand: _,
                span: _,
            }
            | Expression::PrefixStep {
                operator: _,
                operand: _,
                span: _,
            }
            | Expression::Unary {
                operator: _,
                operand: _,
                span: _,
            }
            | Expression::Cast {
                specifiers: _,
                stars: _,
                type_span: _,
                operand: _,
                span: _,
            }
            | Expression::Binary {
                operator: _,
                left: _,
                right: _,
                span: _,
            }
            | Expression::Conditional {
                test: _,
                chosen: _,
                other: _,
                span: _,
            }
            | Expression::Assignment {
                operator: _,
                target: _,
                value: _,
                span: _,
            }
            | Expression::Comma {
                operands: _,
                span: _,
            } => {}
        }
    }
}

impl Expression<'_> {
    /// Where the expression stands. Takes no memory.
    pub fn span(&self) -> Span
        ensures { result ≡ span_of (expression_of self.now) }
    {
        match self {
            Expression::Name { name } => name.span,
            Expression::Constant { span, .. }
            | Expression::Character { span, .. }
            | Expression::Parenthesized { span, .. }
            | Expression::Call { span, .. }
            | Expression::Index { span, .. }
            | Expression::Member { span, .. }
            | Expression::PostfixStep { span, .. }
            | Expression::PrefixStep { span, .. }
            | Expression::Unary { span, .. }
            | Expression::Cast { span, .. }
            | Expression::Binary { span, .. }
            | Expression::Conditional { span, .. }
            | Expression::Assignment { span, .. }
            | Expression::Comma { span, .. } => *span,
        }
    }
}
