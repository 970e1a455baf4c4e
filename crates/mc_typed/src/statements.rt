//! Typed statements (C17 6.8).
use crate::effects::Effect;
use crate::expressions::{Expression, Slot, Structure};
use crate::initializers::Initializer;
use crate::probes::Mark;
use mc_span::Span;

/// A statement, a label of a `switch` or a local declaration. `span` is all of it, `keyword` the
/// word that it begins with, and `bit` the bit of its probe in an instrumented tree.
pub enum Statement {
    Compound {
        items: Vec<Statement>,
        span: Span,
    },
    /// A label directly in the body of a `switch`: `case` with its value in the promoted type of
    /// the controlling expression, or `default`. Its span goes through the colon.
    Label {
        value: Option<i128>,
        span: Span,
        mark: Option<Mark>,
    },
    /// A local declaration, with its objects of automatic storage duration.
    Declaration {
        declarators: Vec<Declarator>,
        span: Span,
        bit: Option<u32>,
    },
    Null {
        span: Span,
        bit: Option<u32>,
    },
    Effect {
        effect: Effect,
        span: Span,
        bit: Option<u32>,
    },
    If {
        test: Expression,
        chosen: Box<Statement>,
        keyword: Span,
        span: Span,
        bit: Option<u32>,
    },
    /// An `if` with its `else`.
    IfElse {
        test: Expression,
        chosen: Box<Statement>,
        other: Box<Statement>,
        keyword: Span,
        span: Span,
        bit: Option<u32>,
    },
    /// The items of its body are its labels and the statements after them. `absent` is the probe of
    /// a `default` that is not there.
    Switch {
        value: Expression,
        items: Vec<Statement>,
        keyword: Span,
        span: Span,
        bit: Option<u32>,
        absent: Option<Mark>,
    },
    /// A `for`, and a `while`, which has only a test and a body.
    For {
        start: ForStart,
        test: Option<Expression>,
        step: Vec<Effect>,
        body: Box<Statement>,
        keyword: Span,
        span: Span,
        bit: Option<u32>,
    },
    DoWhile {
        body: Box<Statement>,
        test: Expression,
        keyword: Span,
        span: Span,
        bit: Option<u32>,
    },
    Break {
        span: Span,
        bit: Option<u32>,
    },
    Continue {
        span: Span,
        bit: Option<u32>,
    },
    /// `exit` is the bit of the exit.
    Return {
        value: ReturnValue,
        span: Span,
        bit: Option<u32>,
        exit: Option<u32>,
    },
}

// Not derived: a derived one would be proved again in each crate that lets such a tree go.
impl Drop for Statement {
    fn drop(self) {
        match self {
            Statement::Compound { items: _, span: _ }
            | Statement::Label {
                value: _,
                span: _,
                mark: _,
            }
            | Statement::Declaration {
                declarators: _,
                span: _,
                bit: _,
            }
            | Statement::Null { span: _, bit: _ }
            | Statement::Effect {
                effect: _,
                span: _,
                bit: _,
            }
            | Statement::If {
                test: _,
                chosen: _,
                keyword: _,
                span: _,
                bit: _,
            }
            | Statement::IfElse {
                test: _,
                chosen: _,
                other: _,
                keyword: _,
                span: _,
                bit: _,
            }
            | Statement::Switch {
                value: _,
                items: _,
                keyword: _,
                span: _,
                bit: _,
                absent: _,
            }
            | Statement::For {
                start: _,
                test: _,
                step: _,
                body: _,
                keyword: _,
                span: _,
                bit: _,
            }
            | Statement::DoWhile {
                body: _,
                test: _,
                keyword: _,
                span: _,
                bit: _,
            }
            | Statement::Break { span: _, bit: _ }
            | Statement::Continue { span: _, bit: _ }
            | Statement::Return {
                value: _,
                span: _,
                bit: _,
                exit: _,
            } => {}
        }
    }
}

/// An object that a local declaration declares, how many cells it has, and what it is initialized
/// with.
pub struct Declarator {
    pub slot: Slot,
    pub cells: u32,
    pub value: Option<Initializer>,
}

impl Drop for Declarator {
    fn drop(self) {
        let Self {
            slot: _,
            cells: _,
            value: _,
        } = self;
    }
}

/// The first part of a `for` (C17 6.8.5.3).
pub enum ForStart {
    Effects { effects: Vec<Effect> },
    Declaration { declarators: Vec<Declarator> },
}

impl Drop for ForStart {
    fn drop(self) {
        match self {
            ForStart::Effects { effects: _ } | ForStart::Declaration { declarators: _ } => {}
        }
    }
}

/// What a `return` gives: nothing, an integer converted to the function's type, or a structure of
/// `cells` cells.
pub enum ReturnValue {
    Nothing,
    Number { value: Expression },
    Structure { value: Structure, cells: u32 },
}

impl Drop for ReturnValue {
    fn drop(self) {
        match self {
            ReturnValue::Nothing
            | ReturnValue::Number { value: _ }
            | ReturnValue::Structure { value: _, cells: _ } => {}
        }
    }
}
