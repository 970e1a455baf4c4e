//! The tree of a statement (C17 6.8).
ghost use Rattle.std.specs.Prelude.{◌≡◌};
ghost use Rattle.mc_tree.specs.Tree.{span_of_statement};
ghost use Rattle.mc_tree.specs.Units.{statement_of};

use crate::expressions::expression::Expression;
use crate::identifier::Identifier;
use crate::statements::block_item::BlockItem;
use crate::statements::for_start::ForStart;
use mc_span::Span;

/// A statement, with a variant for each alternative of its production (C17 6.8).
#[cycle(statements)]
pub enum Statement<'a> {
    Compound {
        items: Vec<BlockItem<'a>>,
        span: Span,
    },
    Null {
        span: Span,
    },
    Expression {
        value: Box<Expression<'a>>,
        span: Span,
    },
    If {
        test: Box<Expression<'a>>,
        chosen: Box<Statement<'a>>,
        span: Span,
    },
    IfElse {
        test: Box<Expression<'a>>,
        chosen: Box<Statement<'a>>,
        other: Box<Statement<'a>>,
        span: Span,
    },
    Switch {
        value: Box<Expression<'a>>,
        body: Box<Statement<'a>>,
        span: Span,
    },
    While {
        test: Box<Expression<'a>>,
        body: Box<Statement<'a>>,
        span: Span,
    },
    DoWhile {
        body: Box<Statement<'a>>,
        test: Box<Expression<'a>>,
        span: Span,
    },
    For {
        start: Box<ForStart<'a>>,
        test: Option<Box<Expression<'a>>>,
        step: Option<Box<Expression<'a>>>,
        body: Box<Statement<'a>>,
        span: Span,
    },
    /// `label` goes from the word `case` through the colon.
    Case {
        value: Box<Expression<'a>>,
        label: Span,
        body: Box<Statement<'a>>,
        span: Span,
    },
    /// `label` goes from the word `default` through the colon.
    Default {
        label: Span,
        body: Box<Statement<'a>>,
        span: Span,
    },
    Label {
        name: Identifier<'a>,
        body: Box<Statement<'a>>,
        span: Span,
    },
    Goto {
        name: Identifier<'a>,
        span: Span,
    },
    Break {
        span: Span,
    },
    Continue {
        span: Span,
    },
    Return {
        value: Option<Box<Expression<'a>>>,
        span: Span,
    },
}

// Not derived: a derived one would be proved again in each crate that lets such a tree go.
impl Drop for Statement<'_> {
    #[cycle(statements)]
    fn drop(self) {
        match self {
            Statement::Compound { items: _, span: _ }
            | Statement::Null { span: _ }
            | Statement::Expression { value: _, span: _ }
            | Statement::If {
                test: _,
                chosen: _,
                span: _,
            }
            | Statement::IfElse {
                test: _,
                chosen: _,
                other: _,
                span: _,
            }
            | Statement::Switch {
                value: _,
                body: _,
                span: _,
            }
            | Statement::While {
                test: _,
                body: _,
                span: _,
            }
            | Statement::DoWhile {
                body: _,
                test: _,
                span: _,
            }
            | Statement::For {
                start: _,
                test: _,
                step: _,
                body: _,
                span: _,
            }
            | Statement::Case {
                value: _,
                label: _,
                body: _,
                span: _,
            }
            | Statement::Default {
                label: _,
                body: _,
                span: _,
            }
            | Statement::Label {
                name: _,
                body: _,
                span: _,
            }
            | Statement::Goto { name: _, span: _ }
            | Statement::Break { span: _ }
            | Statement::Continue { span: _ }
            | Statement::Return { value: _, span: _ } => {}
        }
    }
}

impl Statement<'_> {
    /// Where the statement stands. Takes no memory.
    pub fn span(&self) -> Span
        ensures { result ≡ span_of_statement (statement_of self.now) }
    {
        match self {
            Statement::Compound { span, .. }
            | Statement::Null { span }
            | Statement::Expression { span, .. }
            | Statement::If { span, .. }
            | Statement::IfElse { span, .. }
            | Statement::Switch { span, .. }
            | Statement::While { span, .. }
            | Statement::DoWhile { span, .. }
            | Statement::For { span, .. }
            | Statement::Case { span, .. }
            | Statement::Default { span, .. }
            | Statement::Label { span, .. }
            | Statement::Goto { span, .. }
            | Statement::Break { span }
            | Statement::Continue { span }
            | Statement::Return { span, .. } => *span,
        }
    }
}
