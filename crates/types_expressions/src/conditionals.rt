//! The conditional operator (C17 6.5.15).
ghost use Rattle.std.specs.Prelude.{◌≡◌, ◌++◌, ◌&&◌, IfOk, Some, option_map};
ghost use Rattle.mc_typed.specs.Tree as typed;
ghost use Rattle.mc_typed.specs.Views.{expression_of, effect_of};
ghost use Rattle.types_faults.specs.Faults.{least_of};
ghost use Rattle.types_faults.specs.Kept.{listed};
ghost use Rattle.types_rules.specs.Scopes as scopes;
ghost use Rattle.types_rules.specs.Values as values;
ghost use Rattle.types_rules.specs.Expressions as expressions;
ghost use Rattle.types_scopes.specs.Found.{found_of, kind_of, value_of};
ghost use Rattle.types_scopes.specs.steps.Squeezed.{squeezed};

use crate::operands::{boxed, found, operands};
use mc_typed::{Effect, Expression, Span};
use mc_value::{IntType, common};
use std::alloc::{AllocError, Global};
use types_faults::{Fault, FaultKind, three_or_fault};
use types_scopes::found::{Found, fails_integer, kind_found, number_in};
use types_scopes::kind::{Kind, fails_arm};
use types_scopes::parts::ValueParts;
use types_scopes::value::{Value, done};

fn are_arms(one: Kind<'_>, other: Kind<'_>) -> bool
    ensures { result ≡ expressions.are_arms (kind_of one.entry) (kind_of other.entry) }
{
    match one {
        Kind::Void => matches!(other, Kind::Void),
        Kind::Integer => matches!(other, Kind::Integer),
        Kind::Assignment | Kind::Structure(_) | Kind::Array { .. } | Kind::Function => false,
    }
}

fn arms_fail(one: Option<Kind<'_>>, other: Option<Kind<'_>>) -> bool
    ensures { result ≡ expressions.arms_fail (option_map kind_of one.entry)
        (option_map kind_of other.entry) }
{
    match one {
        Some(kind) => match other {
            Some(other) => !are_arms(kind, other),
            None => !kind.is_arm(),
        },
        None => fails_arm(other),
    }
}

// A choice between operands of this type, which are in boxes.
fn choice(
    test: Box<Expression>,
    chosen: Box<Expression>,
    other: Box<Expression>,
    of: IntType,
    span: Span,
) -> Value
    ensures { value_of result ≡ values.Number (typed.Choice (expression_of test.value)
        (expression_of chosen.value) (expression_of other.value) of span) }
{
    Value::Number(Expression::Choice {
        test,
        chosen,
        other,
        of,
        span,
    })
}

fn choice_of(
    alloc: Global,
    span: Span,
    test: Expression,
    chosen: Expression,
    other: Expression,
) -> Result<Option<Value>, AllocError>
    ensures { IfOk result (λ r. option_map value_of r
        ≡ Some (expressions.choice_of span (expression_of test) (expression_of chosen)
        (expression_of other))) }
{
    let of = common(chosen.integer_type(), other.integer_type());
    match operands(alloc, of, chosen, of, other) {
        Ok((chosen, other)) => match boxed(alloc, test) {
            Ok(test) => Ok(Some(choice(test, chosen, other, of, span))),
            Err(error) => {
                drop(chosen);
                drop(other);
                Err(error)
            }
        },
        Err(error) => {
            drop(test);
            Err(error)
        }
    }
}

fn choice_of_effects(
    alloc: Global,
    span: Span,
    test: Expression,
    chosen: Box<Effect>,
    other: Box<Effect>,
) -> Result<Option<Value>, AllocError>
    ensures { IfOk result (λ r. option_map value_of r
        ≡ Some (expressions.choice_of_effects span (expression_of test) (effect_of chosen.value)
        (effect_of other.value))) }
{
    done(
        alloc,
        Effect::Choice {
            test,
            chosen,
            other,
            span,
        },
    )
}

fn number_arms(
    alloc: Global,
    span: Span,
    test: Expression,
    chosen: Option<Expression>,
    other: Option<Expression>,
) -> Result<Option<Value>, AllocError>
    ensures { IfOk result (λ r. option_map value_of r
        ≡ values.lift2 (expressions.choice_of span (expression_of test))
        (option_map expression_of chosen)
        (option_map expression_of other)) }
{
    match chosen {
        Some(chosen) => match other {
            Some(other) => choice_of(alloc, span, test, chosen, other),
            None => {
                drop(test);
                drop(chosen);
                Ok(None)
            }
        },
        None => {
            drop(test);
            drop(other);
            Ok(None)
        }
    }
}

// The choice where the first arm is a void expression.
fn effect_arms(
    alloc: Global,
    span: Span,
    test: Expression,
    chosen: Box<Effect>,
    other: Value,
) -> Result<Option<Value>, AllocError>
    ensures { IfOk result (λ r. option_map value_of r
        ≡ expressions.arms_value span (expression_of test)
        (values.Done (effect_of chosen.value)) (value_of other)) }
{
    match other.into_parts() {
        ValueParts::Done(other) => choice_of_effects(alloc, span, test, chosen, other),
        other => {
            drop(test);
            drop(chosen);
            drop(other);
            Ok(None)
        }
    }
}

fn conditional_value(
    alloc: Global,
    span: Span,
    test: Option<Expression>,
    chosen: Option<Value>,
    other: Option<Value>,
) -> Result<Option<Value>, AllocError>
    ensures { IfOk result (λ r. option_map value_of r
        ≡ expressions.conditional_value span (option_map expression_of test)
        (option_map value_of chosen)
        (option_map value_of other)) }
{
    let Some(test) = test else {
        drop(chosen);
        drop(other);
        return Ok(None);
    };
    let Some(chosen) = chosen else {
        drop(test);
        drop(other);
        return Ok(None);
    };
    let Some(other) = other else {
        drop(test);
        drop(chosen);
        return Ok(None);
    };
    match chosen.into_parts() {
        ValueParts::Done(chosen) => effect_arms(alloc, span, test, chosen, other),
        chosen => {
            let chosen = chosen.into_number();
            number_arms(alloc, span, test, chosen, other.into_number())
        }
    }
}

// The first fault of `?:` on these operands, and whether it is built as a constant.
fn judged(at: u32, test: &Found, chosen: &Found, other: &Found) -> (Option<Fault>, bool)
    ensures fault { result.0 ≡ least_of (listed test.now.fault ++ (listed chosen.now.fault
        ++ (listed other.now.fault
        ++ expressions.conditional_faults at
        (option_map values.kind_of (option_map value_of test.now.value))
        (option_map values.kind_of (option_map value_of chosen.now.value))
        (option_map values.kind_of (option_map value_of other.now.value))))) }
    ensures constant { result.1
        ≡ (test.now.constant && chosen.now.constant && other.now.constant) }
{
    let test_wrong = fails_integer(&test.value);
    let arms_wrong = arms_fail(kind_found(&chosen.value), kind_found(&other.value));
    let wrong = test_wrong || arms_wrong;
    let fault = three_or_fault(
        test.fault,
        chosen.fault,
        other.fault,
        wrong,
        FaultKind::Mismatch,
        at,
    );
    (fault, test.constant && chosen.constant && other.constant)
}

/// `?:` on three operands.
pub fn conditional(
    alloc: Global,
    span: Span,
    test: Found,
    chosen: Found,
    other: Found,
) -> Result<Found, AllocError>
    ensures { IfOk result (λ r. (s : scopes.Scope) → found_of r s
        ≡ squeezed (expressions.conditional_found span (found_of test s) (found_of chosen s)
        (found_of other s))) }
{
    let (fault, constant) = judged(span.start, &test, &chosen, &other);
    let test = number_in(test.value);
    let value = conditional_value(alloc, span, test, chosen.value, other.value);
    found(fault, value, false, constant)
}
