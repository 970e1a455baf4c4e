//! Unary operators (C17 6.5.3.3).
ghost use Rattle.std.specs.Prelude.{◌≡◌, ◌++◌, ◌&&◌, IfOk, Some, option_map, option_and_then};
ghost use Rattle.mc_typed.specs.Tree as typed;
ghost use Rattle.mc_typed.specs.Views.{expression_of};
ghost use Rattle.types_faults.specs.Faults.{least_of};
ghost use Rattle.types_faults.specs.Kept.{listed};
ghost use Rattle.types_rules.specs.Scopes as scopes;
ghost use Rattle.types_rules.specs.Values as values;
ghost use Rattle.types_rules.specs.Expressions as expressions;
ghost use Rattle.types_scopes.specs.Found.{found_of, value_of};
ghost use Rattle.types_scopes.specs.steps.Squeezed.{squeezed};

use crate::operands::{boxed, found, operand};
use mc_tree::UnaryOperator;
use mc_typed::{Expression, Span};
use mc_value::{UnOp, promote};
use std::alloc::{AllocError, Global};
use types_faults::{Fault, FaultKind, or_fault};
use types_scopes::found::{Found, fails_integer, number_in};
use types_scopes::value::Value;

fn is_arithmetic(operator: UnaryOperator) -> bool
    ensures { result ≡ expressions.is_arithmetic operator }
{
    !matches!(
        operator,
        UnaryOperator::Dereference | UnaryOperator::Address
    )
}

fn promoting(
    alloc: Global,
    operator: UnOp,
    span: Span,
    one: Expression,
) -> Result<Option<Value>, AllocError>
    ensures { IfOk result (λ r. option_map value_of r
        ≡ Some (values.Number (expressions.promoting operator span (expression_of one)))) }
{
    let to = promote(one.integer_type());
    match operand(alloc, to, one) {
        Ok(operand) => {
            let of = operand.integer_type();
            Ok(Some(Value::Number(Expression::Unary {
                operator,
                of,
                operand,
                span,
            })))
        }
        Err(error) => Err(error),
    }
}

fn negating(alloc: Global, span: Span, one: Expression) -> Result<Option<Value>, AllocError>
    ensures { IfOk result (λ r. option_map value_of r
        ≡ Some (values.Number (typed.Not (expression_of one) span))) }
{
    match boxed(alloc, one) {
        Ok(operand) => Ok(Some(Value::Number(Expression::Not { operand, span }))),
        Err(error) => Err(error),
    }
}

fn unary_value(
    alloc: Global,
    operator: UnaryOperator,
    span: Span,
    one: Option<Expression>,
) -> Result<Option<Value>, AllocError>
    ensures { IfOk result (λ r. option_map value_of r ≡ option_map values.Number
        (option_and_then (expressions.typed_unary operator span) (option_map expression_of one))) }
{
    let Some(one) = one else {
        return Ok(None);
    };
    match operator {
        UnaryOperator::Plus => promoting(alloc, UnOp::Plus, span, one),
        UnaryOperator::Minus => promoting(alloc, UnOp::Minus, span, one),
        UnaryOperator::Complement => promoting(alloc, UnOp::Flip, span, one),
        UnaryOperator::Not => negating(alloc, span, one),
        UnaryOperator::Dereference | UnaryOperator::Address => {
            drop(one);
            Ok(None)
        }
    }
}

// The first fault of an operator on this operand, and whether it is built as a constant.
fn judged(at: u32, operator: UnaryOperator, operand: &Found) -> (Option<Fault>, bool)
    ensures fault { result.0 ≡ least_of
        (listed operand.now.fault ++ expressions.unary_faults operator at
        (option_map values.kind_of (option_map value_of operand.now.value))) }
    ensures constant { result.1 ≡ (expressions.is_arithmetic operator && operand.now.constant) }
{
    let arithmetic = is_arithmetic(operator);
    let wrong = !arithmetic || fails_integer(&operand.value);
    let fault = or_fault(operand.fault, wrong, FaultKind::Mismatch, at);
    (fault, arithmetic && operand.constant)
}

/// A unary operator on an operand.
pub fn unary(
    alloc: Global,
    operator: UnaryOperator,
    span: Span,
    operand: Found,
) -> Result<Found, AllocError>
    ensures { IfOk result (λ r. (s : scopes.Scope) → found_of r s
        ≡ squeezed (expressions.unary_found operator span (found_of operand s))) }
{
    let (fault, constant) = judged(span.start, operator, &operand);
    let value = unary_value(alloc, operator, span, number_in(operand.value));
    found(fault, value, false, constant)
}
