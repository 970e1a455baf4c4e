//! Expressions that are evaluated for their effects (C17 6.8.3).
use crate::expressions::{Expression, FunctionCall, Place, Structure};
use crate::operators::Operator;
use mc_span::Span;
use mc_value::IntType;

/// A whole expression statement, a clause of a `for`, or a void expression in one of them.
pub enum Effect {
    /// `=` on integers. The value has the type `of` of the target (C17 6.5.16.1).
    Assign {
        target: Place,
        of: IntType,
        value: Expression,
        span: Span,
    },
    /// A compound assignment: the old value of the target, of the type `of`, is converted to the
    /// type `common` and is the left operand, `value` is the right one, and what the operator gives
    /// is converted to `of` (C17 6.5.16.2). `++` and `--` add and subtract 1 (C17 6.5.2.4,
    /// 6.5.3.1).
    Update {
        target: Place,
        of: IntType,
        operator: Operator,
        common: IntType,
        value: Expression,
        span: Span,
    },
    /// `=` on structures of `cells` cells.
    Copy {
        target: Place,
        value: Structure,
        cells: u32,
        span: Span,
    },
    /// An integer whose value is dropped. It is `whole` where it is a whole expression statement or
    /// clause, perhaps under casts to void: where it is then a call, the value of the call is not
    /// used.
    Number {
        value: Expression,
        whole: bool,
    },
    /// A structure whose value is dropped, in the same way.
    Structure {
        value: Structure,
        whole: bool,
    },
    /// A call of a void function.
    Call {
        call: FunctionCall,
    },
    /// A call of `mcdc_out`.
    Output {
        value: Expression,
        span: Span,
    },
    /// `?:` with void operands.
    Choice {
        test: Expression,
        chosen: Box<Effect>,
        other: Box<Effect>,
        span: Span,
    },
    /// A cast to void.
    Discard {
        operand: Box<Effect>,
        span: Span,
    },
}

impl Drop for Effect {
    fn drop(self) {
        match self {
            Effect::Assign {
                target: _,
                of: _,
                value: _,
                span: _,
            }
            | Effect::Update {
                target: _,
                of: _,
                operator: _,
                common: _,
                value: _,
                span: _,
            }
            | Effect::Copy {
                target: _,
                value: _,
                cells: _,
                span: _,
            }
            | Effect::Number { value: _, whole: _ }
            | Effect::Structure { value: _, whole: _ }
            | Effect::Call { call: _ }
            | Effect::Output { value: _, span: _ }
            | Effect::Choice {
                test: _,
                chosen: _,
                other: _,
                span: _,
            }
            | Effect::Discard {
                operand: _,
                span: _,
            } => {}
        }
    }
}
