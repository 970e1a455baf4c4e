//! Typed expressions (C17 6.5).
ghost use Rattle.std.specs.Prelude.{◌≡◌};
ghost use Rattle.mc_typed.specs.Sound.{type_of};
ghost use Rattle.mc_typed.specs.Tree.{span_of, span_of_place};
ghost use Rattle.mc_typed.specs.Views.{expression_of, place_of};

use crate::operators::{LogicOperator, Operator, operator_result};
use crate::probes::Probe;
use mc_span::Span;
use mc_value::{IntType, UnOp};

/// An object by its number, and the first of its cells: in its function's frame for an object with
/// automatic storage duration, among all static cells for one with static storage duration.
#[derive(Clone, Copy, Debug, PartialEq, Eq)]
pub struct Slot {
    pub object: u32,
    pub start: u32,
}

/// An expression that designates an object (an lvalue of C17 6.3.2.1).
#[cycle(expressions)]
pub enum Place {
    /// An object of the function with automatic storage duration.
    Local {
        slot: Slot,
        span: Span,
    },
    /// An object of the program with static storage duration.
    Static {
        slot: Slot,
        span: Span,
    },
    /// An element of the array that the array parameter with this number names. An element has
    /// `stride` cells.
    Parameter {
        array: u32,
        stride: u32,
        index: Box<Expression>,
        span: Span,
    },
    /// An element of an array with `length` elements of `stride` cells each (C17 6.5.2.1).
    Item {
        array: Box<Place>,
        length: u32,
        stride: u32,
        index: Box<Expression>,
        span: Span,
    },
    /// A member of a structure by its number, which begins `offset` cells after the structure (C17
    /// 6.5.2.3).
    Member {
        structure: Box<Place>,
        member: u32,
        offset: u32,
        span: Span,
    },
}

// Not derived: a derived one would be proved again in each crate that lets such a tree go.
impl Drop for Place {
    #[cycle(expressions)]
    fn drop(self) {
        match self {
            Place::Local { slot: _, span: _ }
            | Place::Static { slot: _, span: _ }
            | Place::Parameter {
                array: _,
                stride: _,
                index: _,
                span: _,
            }
            | Place::Item {
                array: _,
                length: _,
                stride: _,
                index: _,
                span: _,
            }
            | Place::Member {
                structure: _,
                member: _,
                offset: _,
                span: _,
            } => {}
        }
    }
}

/// An expression whose value is an integer.
#[cycle(expressions)]
pub enum Expression {
    /// An integer, character or enumeration constant (C17 6.4.4).
    Constant {
        value: i128,
        of: IntType,
        span: Span,
    },
    /// The value of an object of an integer type (C17 6.3.2.1p2).
    Read {
        place: Place,
        of: IntType,
    },
    /// `+`, `-` or `~` on an operand of the promoted type `of` (C17 6.5.3.3).
    Unary {
        operator: UnOp,
        of: IntType,
        operand: Box<Expression>,
        span: Span,
    },
    /// A conversion: a cast where it is written (C17 6.5.4), else one that C implies (C17 6.3.1).
    Convert {
        to: IntType,
        written: bool,
        operand: Box<Expression>,
        span: Span,
    },
    /// `!` (C17 6.5.3.3p5).
    Not {
        operand: Box<Expression>,
        span: Span,
    },
    /// An operator on two integers. The left operand has the promoted type `of`, and so has the
    /// right one unless the operator is a shift.
    Binary {
        operator: Operator,
        of: IntType,
        left: Box<Expression>,
        right: Box<Expression>,
        span: Span,
    },
    /// `&&` and `||`.
    Logic {
        operator: LogicOperator,
        left: Box<Expression>,
        right: Box<Expression>,
        span: Span,
    },
    /// `?:` whose second and third operand have the promoted type `of` (C17 6.5.15).
    Choice {
        test: Box<Expression>,
        chosen: Box<Expression>,
        other: Box<Expression>,
        of: IntType,
        span: Span,
    },
    /// The value of a call of a function that gives an integer.
    Call {
        call: FunctionCall,
        of: IntType,
    },
    /// A call of `mcdc_in`.
    Input {
        span: Span,
    },
    /// A probe of an instrumented tree, round its operand.
    Probe {
        probe: Probe,
        operand: Box<Expression>,
    },
}

impl Drop for Expression {
    #[cycle(expressions)]
    fn drop(self) {
        match self {
            Expression::Constant {
                value: _,
                of: _,
                span: _,
            }
            | Expression::Read { place: _, of: _ }
            | Expression::Unary {
                operator: _,
                of: _,
                operand: _,
                span: _,
            }
            | Expression::Convert {
                to: _,
                written: _,
                operand: _,
                span: _,
            }
            | Expression::Not {
                operand: _,
                span: _,
            }
            | Expression::Binary {
                operator: _,
                of: _,
                left: _,
                right: _,
                span: _,
            }
            | Expression::Logic {
                operator: _,
                left: _,
                right: _,
                span: _,
            }
            | Expression::Choice {
                test: _,
                chosen: _,
                other: _,
                of: _,
                span: _,
            }
            | Expression::Call { call: _, of: _ }
            | Expression::Input { span: _ }
            | Expression::Probe {
                probe: _,
                operand: _,
            } => {}
        }
    }
}

/// An expression whose value is a structure.
#[cycle(expressions)]
pub enum Structure {
    /// The value of a structure that is stored in an object.
    Stored { place: Place },
    /// What a call of a function gives.
    Returned { call: FunctionCall },
}

impl Drop for Structure {
    #[cycle(expressions)]
    fn drop(self) {
        match self {
            Structure::Stored { place: _ } | Structure::Returned { call: _ } => {}
        }
    }
}

/// A call of a function of the program (C17 6.5.2.2).
#[cycle(expressions)]
pub struct FunctionCall {
    pub function: u32,
    pub arguments: Vec<Argument>,
    /// The temporary object that takes the structure which the function gives (C17 6.2.4p8).
    pub result: Option<Slot>,
    pub span: Span,
}

impl Drop for FunctionCall {
    #[cycle(expressions)]
    fn drop(self) {
        let Self {
            function: _,
            arguments: _,
            result: _,
            span: _,
        } = self;
    }
}

/// An argument of a call.
#[cycle(expressions)]
pub enum Argument {
    /// An integer, converted to the parameter's type.
    Number { value: Expression },
    /// A structure, and the temporary object that it is copied to as it is evaluated.
    Structure { value: Structure, copy: Slot },
    /// A whole array with `length` elements, for an array parameter.
    Array { place: Place, length: u32 },
    /// The array that the caller's array parameter with this number names.
    Again { array: u32, span: Span },
}

impl Drop for Argument {
    #[cycle(expressions)]
    fn drop(self) {
        match self {
            Argument::Number { value: _ }
            | Argument::Structure { value: _, copy: _ }
            | Argument::Array {
                place: _,
                length: _,
            }
            | Argument::Again { array: _, span: _ } => {}
        }
    }
}

impl Place {
    /// Where the place stands. Takes no memory.
    pub fn span(&self) -> Span
        ensures { result ≡ span_of_place (place_of self.now) }
    {
        match self {
            Place::Local { span, .. }
            | Place::Static { span, .. }
            | Place::Parameter { span, .. }
            | Place::Item { span, .. }
            | Place::Member { span, .. } => *span,
        }
    }
}

impl Expression {
    /// Where the expression stands. Takes no memory.
    pub fn span(&self) -> Span
        ensures { result ≡ span_of (expression_of self.now) }
    {
        match self {
            Expression::Read { place, .. } => place.span(),
            Expression::Call { call, .. } => call.span,
            Expression::Probe { operand, .. } => operand.span(),
            Expression::Constant { span, .. }
            | Expression::Unary { span, .. }
            | Expression::Convert { span, .. }
            | Expression::Not { span, .. }
            | Expression::Binary { span, .. }
            | Expression::Logic { span, .. }
            | Expression::Choice { span, .. }
            | Expression::Input { span } => *span,
        }
    }

    /// The type of its value. Takes no memory.
    pub fn integer_type(&self) -> IntType
        ensures { result ≡ type_of (expression_of self.now) }
    {
        match self {
            Expression::Constant { of, .. }
            | Expression::Read { of, .. }
            | Expression::Unary { of, .. }
            | Expression::Choice { of, .. }
            | Expression::Call { of, .. } => *of,
            Expression::Convert { to, .. } => *to,
            Expression::Binary { operator, of, .. } => operator_result(*operator, *of),
            Expression::Not { .. } | Expression::Logic { .. } | Expression::Input { .. } => {
                IntType::Int
            }
            Expression::Probe { operand, .. } => operand.integer_type(),
        }
    }
}
