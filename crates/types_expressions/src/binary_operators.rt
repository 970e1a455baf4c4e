//! Binary operators (C17 6.5.5 to 6.5.14).
ghost use Rattle.std.specs.Prelude.{◌≡◌, ◌++◌, ◌&&◌, IfOk, Some, option_map};
ghost use Rattle.mc_typed.specs.declared.operators.Operator.TheVariants as operators;
ghost use Rattle.mc_typed.specs.Tree as typed;
ghost use Rattle.mc_typed.specs.Views.{expression_of};
ghost use Rattle.types_faults.specs.Faults.{least_of};
ghost use Rattle.types_faults.specs.Kept.{listed};
ghost use Rattle.types_rules.specs.Scopes as scopes;
ghost use Rattle.types_rules.specs.Values as values;
ghost use Rattle.types_rules.specs.Expressions as expressions;
ghost use Rattle.types_scopes.specs.Found.{found_of, value_of};
ghost use Rattle.types_scopes.specs.steps.Squeezed.{squeezed};
ghost use Rattle.types_expressions.specs.steps.Operations.{operating};

use crate::operands::{both_boxed, found, operands};
use mc_tree::BinaryOperator;
use mc_typed::{Expression, LogicOperator, Operator, Span};
use mc_value::{BinOp, IntType, ShiftOp, common, promote};
use std::alloc::{AllocError, Global};
use types_faults::{Fault, FaultKind, two_or_fault};
use types_scopes::found::{Found, fails_integer, number_in};
use types_scopes::value::Value;

/// What a binary operator does with its operands.
enum Operation {
    /// An operator on both, converted to their common type.
    Common(BinOp),
    /// A shift, of which each operand is promoted.
    Shift(ShiftOp),
    Logic(LogicOperator),
}

fn operation_of(operator: BinaryOperator) -> Operation
    ensures { (span : Span) (l r : typed.Expression)
        → expressions.typed_binary operator span l r ≡ operating result span l r }
{
    match operator {
        BinaryOperator::Multiply => Operation::Common(BinOp::Mul),
        BinaryOperator::Divide => Operation::Common(BinOp::Div),
        BinaryOperator::Remainder => Operation::Common(BinOp::Rem),
        BinaryOperator::Add => Operation::Common(BinOp::Add),
        BinaryOperator::Subtract => Operation::Common(BinOp::Sub),
        BinaryOperator::ShiftLeft => Operation::Shift(ShiftOp::Left),
        BinaryOperator::ShiftRight => Operation::Shift(ShiftOp::Right),
        BinaryOperator::Less => Operation::Common(BinOp::Lt),
        BinaryOperator::Greater => Operation::Common(BinOp::Gt),
        BinaryOperator::LessOrEqual => Operation::Common(BinOp::Le),
        BinaryOperator::GreaterOrEqual => Operation::Common(BinOp::Ge),
        BinaryOperator::Equal => Operation::Common(BinOp::Eq),
        BinaryOperator::Unequal => Operation::Common(BinOp::Ne),
        BinaryOperator::BitAnd => Operation::Common(BinOp::And),
        BinaryOperator::BitXor => Operation::Common(BinOp::Xor),
        BinaryOperator::BitOr => Operation::Common(BinOp::Or),
        BinaryOperator::And => Operation::Logic(LogicOperator::And),
        BinaryOperator::Or => Operation::Logic(LogicOperator::Or),
    }
}

// An operator on operands of these types, which are in boxes.
fn applied(
    operator: Operator,
    of: IntType,
    left: Box<Expression>,
    right: Box<Expression>,
    span: Span,
) -> Value
    ensures { value_of result ≡ values.Number (typed.Binary operator of (expression_of left.value)
        (expression_of right.value) span) }
{
    Value::Number(Expression::Binary {
        operator,
        of,
        left,
        right,
        span,
    })
}

fn in_common_type(
    alloc: Global,
    operator: BinOp,
    span: Span,
    left: Expression,
    right: Expression,
) -> Result<Option<Value>, AllocError>
    ensures { IfOk result (λ r. option_map value_of r ≡ Some (values.Number
        (expressions.in_common_type operator span (expression_of left) (expression_of right)))) }
{
    let of = common(left.integer_type(), right.integer_type());
    match operands(alloc, of, left, of, right) {
        Ok((left, right)) => {
            let operator = Operator::Binary(operator);
            Ok(Some(applied(operator, of, left, right, span)))
        }
        Err(error) => Err(error),
    }
}

fn shifting(
    alloc: Global,
    operator: ShiftOp,
    span: Span,
    left: Expression,
    right: Expression,
) -> Result<Option<Value>, AllocError>
    ensures { IfOk result (λ r. option_map value_of r ≡ Some (values.Number
        (expressions.shifting (operators.Shift operator) span (expression_of left)
        (expression_of right)))) }
{
    let left_to = promote(left.integer_type());
    let right_to = promote(right.integer_type());
    match operands(alloc, left_to, left, right_to, right) {
        Ok((left, right)) => {
            let of = left.integer_type();
            let operator = Operator::Shift(operator);
            Ok(Some(applied(operator, of, left, right, span)))
        }
        Err(error) => Err(error),
    }
}

fn logic(
    alloc: Global,
    operator: LogicOperator,
    span: Span,
    left: Expression,
    right: Expression,
) -> Result<Option<Value>, AllocError>
    ensures { IfOk result (λ r. option_map value_of r
        ≡ Some (values.Number (typed.Logic operator (expression_of left) (expression_of right)
        span))) }
{
    match both_boxed(alloc, left, right) {
        Ok((left, right)) => Ok(Some(Value::Number(Expression::Logic {
            operator,
            left,
            right,
            span,
        }))),
        Err(error) => Err(error),
    }
}

fn binary_value(
    alloc: Global,
    operator: BinaryOperator,
    span: Span,
    left: Option<Expression>,
    right: Option<Expression>,
) -> Result<Option<Value>, AllocError>
    ensures { IfOk result (λ r. option_map value_of r
        ≡ option_map values.Number (values.lift2 (expressions.typed_binary operator span)
        (option_map expression_of left) (option_map expression_of right))) }
{
    match left {
        Some(left) => match right {
            Some(right) => match operation_of(operator) {
                Operation::Common(operator) => in_common_type(alloc, operator, span, left, right),
                Operation::Shift(operator) => shifting(alloc, operator, span, left, right),
                Operation::Logic(operator) => logic(alloc, operator, span, left, right),
            },
            None => {
                drop(left);
                Ok(None)
            }
        },
        None => {
            drop(right);
            Ok(None)
        }
    }
}

// The first fault of an operator on these operands, and whether it is built as a constant.
fn judged(at: u32, left: &Found, right: &Found) -> (Option<Fault>, bool)
    ensures fault { result.0 ≡ least_of (listed left.now.fault ++ (listed right.now.fault
        ++ expressions.operands_faults at
        (option_map values.kind_of (option_map value_of left.now.value))
        (option_map values.kind_of (option_map value_of right.now.value)))) }
    ensures constant { result.1 ≡ (left.now.constant && right.now.constant) }
{
    let left_wrong = fails_integer(&left.value);
    let right_wrong = fails_integer(&right.value);
    let wrong = left_wrong || right_wrong;
    let fault = two_or_fault(left.fault, right.fault, wrong, FaultKind::Mismatch, at);
    (fault, left.constant && right.constant)
}

/// A binary operator on two operands.
pub fn binary(
    alloc: Global,
    operator: BinaryOperator,
    span: Span,
    left: Found,
    right: Found,
) -> Result<Found, AllocError>
    ensures { IfOk result (λ r. (s : scopes.Scope) → found_of r s
        ≡ squeezed (expressions.binary_found operator span (found_of left s) (found_of right s))) }
{
    let (fault, constant) = judged(span.start, &left, &right);
    let left = number_in(left.value);
    let right = number_in(right.value);
    let value = binary_value(alloc, operator, span, left, right);
    found(fault, value, false, constant)
}
