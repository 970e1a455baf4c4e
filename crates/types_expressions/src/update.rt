//! Compound assignments (C17 6.5.16.2) and steps (C17 6.5.2.4, 6.5.3.1).
ghost use Rattle.std.specs.Prelude.{◌≡◌, ◌||◌, IfOk, option_map};
ghost use Rattle.types_rules.specs.Scopes as scopes;
ghost use Rattle.types_rules.specs.Values as values;
ghost use Rattle.types_rules.specs.Expressions as expressions;
ghost use Rattle.types_scopes.specs.Found.{found_of, value_of};
ghost use Rattle.types_scopes.specs.steps.Squeezed.{squeezed};

use crate::constants::one;
use crate::making::{Making, made};
use mc_tree::{AssignmentOperator, StepOperator};
use mc_typed::Span;
use std::alloc::{AllocError, Global};
use types_scopes::found::{Found, fails_integer};
use types_scopes::value::{Value, is_const};

/// Whether the sides cannot stand in a compound assignment.
pub(crate) fn update_fails(place: bool, target: &Option<Value>, value: &Option<Value>) -> bool
    ensures { result ≡ (expressions.target_fails values.is_integer place
        (option_map value_of target.now)
        || values.fails values.is_integer
        (option_map values.kind_of (option_map value_of value.now))) }
{
    let no_integer = fails_integer(target);
    let fixed = is_const(target);
    let wrong = fails_integer(value);
    !place || no_integer || fixed || wrong
}

fn step_operator(operator: StepOperator) -> AssignmentOperator
    ensures { result ≡ expressions.step_operator operator }
{
    match operator {
        StepOperator::Increment => AssignmentOperator::Add,
        StepOperator::Decrement => AssignmentOperator::Subtract,
    }
}

// `++` or `--`, which stands at one place, on an operand.
fn step(
    alloc: Global,
    operator: StepOperator,
    at: Span,
    span: Span,
    operand: Found,
) -> Result<Found, AllocError>
    ensures { IfOk result (λ r. (s : scopes.Scope) → found_of r s
        ≡ squeezed (expressions.step_found operator at span (found_of operand s))) }
{
    let making = Making::Update(step_operator(operator));
    made(alloc, making, span, operand, one(at))
}

// Where the two bytes of an operator stand that ends an expression.
fn operator_after(span: Span) -> Span
    ensures { result ≡ expressions.operator_after span }
{
    Span {
        start: span.end.saturating_sub(2),
        end: span.end,
    }
}

// Where the two bytes of an operator stand that begins an expression.
fn operator_before(span: Span) -> Span
    ensures { result ≡ expressions.operator_before span }
{
    Span {
        start: span.start,
        end: span.start.saturating_add(2).min(span.end),
    }
}

/// A postfix `++` or `--` on an operand (C17 6.5.2.4).
pub fn postfix_step(
    alloc: Global,
    operator: StepOperator,
    span: Span,
    operand: Found,
) -> Result<Found, AllocError>
    ensures { IfOk result (λ r. (s : scopes.Scope) → found_of r s ≡ squeezed
        (expressions.step_found operator (expressions.operator_after span) span
        (found_of operand s))) }
{
    step(alloc, operator, operator_after(span), span, operand)
}

/// A prefix `++` or `--` on an operand (C17 6.5.3.1).
pub fn prefix_step(
    alloc: Global,
    operator: StepOperator,
    span: Span,
    operand: Found,
) -> Result<Found, AllocError>
    ensures { IfOk result (λ r. (s : scopes.Scope) → found_of r s ≡ squeezed
        (expressions.step_found operator (expressions.operator_before span) span
        (found_of operand s))) }
{
    step(alloc, operator, operator_before(span), span, operand)
}
