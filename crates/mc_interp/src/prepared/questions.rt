//! What a decision asks: its conditions, where they are leaves or comparisons of leaves, joined by
//! `!`, `&&` and `||` (C17 6.5.3.3, 6.5.13, 6.5.14).
ghost use Rattle.std.specs.Prelude.{◌≡◌, IfOk, IfSome, Some};
ghost use Rattle.mc_typed.specs.declared.operators.Operator.TheVariants.{Binary};
ghost use Rattle.mc_probe.specs.Views.{expression_of};
ghost use Rattle.mc_interp.specs.Views.{condition_of, operator_of, question_of};

use super::leaves::{Leaf, leaf_from};
use mc_span::Span;
use mc_typed::{Expression, LogicOperator, Operator, Probe};
use mc_value::{BinOp, IntType};
use std::alloc::{AllocError, Global};

/// A relational or an equality operator (C17 6.5.8, 6.5.9).
#[derive(Clone, Copy)]
pub(crate) enum Relation {
    Less,
    Greater,
    LessOrEqual,
    GreaterOrEqual,
    Equal,
    NotEqual,
}

impl Relation {
    /// The operator of the tree.
    #[inline(always)]
    pub(crate) fn operator(self) -> BinOp
        ensures { result ≡ operator_of self }
    {
        match self {
            Relation::Less => BinOp::Lt,
            Relation::Greater => BinOp::Gt,
            Relation::LessOrEqual => BinOp::Le,
            Relation::GreaterOrEqual => BinOp::Ge,
            Relation::Equal => BinOp::Eq,
            Relation::NotEqual => BinOp::Ne,
        }
    }
}

/// The probe of a condition: its decision's register, and what is added to it where the condition
/// is true and where it is false.
#[derive(Clone, Copy)]
pub(crate) struct Note {
    pub register: u32,
    pub on_true: u32,
    pub on_false: u32,
}

/// What a decision asks.
pub(crate) enum Question {
    /// A condition that compares two leaves, whose operands have the type `of`.
    Compared {
        note: Note,
        relation: Relation,
        of: IntType,
        left: Leaf,
        right: Leaf,
        span: Span,
    },
    /// A condition that is a leaf.
    Leaf {
        note: Note,
        leaf: Leaf,
    },
    Not {
        operand: Box<Question>,
        span: Span,
    },
    Logic {
        operator: LogicOperator,
        left: Box<Question>,
        right: Box<Question>,
        span: Span,
    },
}

// Not derived: a derived one would be proved again wherever a question is let go.
impl Drop for Question {
    fn drop(self) {
        match self {
            Question::Compared {
                note: _,
                relation: _,
                of: _,
                left: _,
                right: _,
                span: _,
            }
            | Question::Leaf { note: _, leaf: _ }
            | Question::Not {
                operand: _,
                span: _,
            }
            | Question::Logic {
                operator: _,
                left: _,
                right: _,
                span: _,
            } => {}
        }
    }
}

/// The relation that an operator is, if it is one.
fn relation_of(operator: Operator) -> Option<Relation>
    ensures { IfSome result (λ found. operator ≡ Binary (operator_of found)) }
{
    match operator {
        Operator::Binary(compared) => match compared {
            BinOp::Lt => Some(Relation::Less),
            BinOp::Gt => Some(Relation::Greater),
            BinOp::Le => Some(Relation::LessOrEqual),
            BinOp::Ge => Some(Relation::GreaterOrEqual),
            BinOp::Eq => Some(Relation::Equal),
            BinOp::Ne => Some(Relation::NotEqual),
            _ => None,
        },
        Operator::Shift(_) => None,
    }
}

/// The condition with this probe, if the expression compares two leaves.
fn compared(note: Note, e: &Expression) -> Option<Question>
    ensures { IfSome result (λ made. question_of made ≡ condition_of note (expression_of e.now)) }
{
    match e {
        Expression::Binary {
            operator,
            of,
            left,
            right,
            span,
        } => Some(Question::Compared {
            note,
            relation: relation_of(*operator)?,
            of: *of,
            left: leaf_from(left)?,
            right: leaf_from(right)?,
            span: *span,
        }),
        _ => None,
    }
}

/// The condition with this probe, if the expression is a leaf or compares two leaves.
fn condition(note: Note, e: &Expression) -> Option<Question>
    ensures { IfSome result (λ made. question_of made ≡ condition_of note (expression_of e.now)) }
{
    match leaf_from(e) {
        Some(leaf) => Some(Question::Leaf { note, leaf }),
        None => compared(note, e),
    }
}

/// A question on the heap.
fn on_heap(alloc: Global, one: Question) -> Result<Box<Question>, AllocError>
    ensures { IfOk result (λ r. r.value ≡ one) }
{
    Ok(Box::new(alloc, one)?)
}

/// Two questions on the heap, if both are there.
fn both(
    alloc: Global,
    left: Option<Question>,
    right: Option<Question>,
) -> Result<Option<(Box<Question>, Box<Question>)>, AllocError>
    ensures { IfOk result (λ found. IfSome found (λ made.
        (left ≡ Some made.0.value) × (right ≡ Some made.1.value))) }
{
    match (left, right) {
        (Some(first), Some(second)) => {
            Ok(Some((on_heap(alloc, first)?, on_heap(alloc, second)?)))
        }
        _ => Ok(None),
    }
}

/// The question that an expression asks, if each of its conditions is a leaf or compares two
/// leaves.
pub(crate) fn question_from(alloc: Global, e: &Expression) -> Result<Option<Question>, AllocError>
    ensures { IfOk result (λ found. IfSome found (λ made.
        question_of made ≡ expression_of e.now)) }
{
    match e {
        Expression::Probe {
            probe: Probe::Condition {
                register,
                on_true,
                on_false,
            },
            operand,
        } => Ok(condition(
            Note {
                register: *register,
                on_true: *on_true,
                on_false: *on_false,
            },
            operand,
        )),
        Expression::Not { operand, span } => match question_from(alloc, operand)? {
            Some(asked) => Ok(Some(Question::Not {
                operand: on_heap(alloc, asked)?,
                span: *span,
            })),
            None => Ok(None),
        },
        Expression::Logic {
            operator,
            left,
            right,
            span,
        } => {
            let first = question_from(alloc, left)?;
            let second = question_from(alloc, right)?;
            match both(alloc, first, second)? {
                Some((asked, then_asked)) => Ok(Some(Question::Logic {
                    operator: *operator,
                    left: asked,
                    right: then_asked,
                    span: *span,
                })),
                None => Ok(None),
            }
        }
        _ => Ok(None),
    }
}
