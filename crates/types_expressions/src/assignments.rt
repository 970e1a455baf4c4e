//! Assignments (C17 6.5.16).
ghost use Rattle.std.specs.Prelude.{◌≡◌, ◌||◌, IfOk, option_map};
ghost use Rattle.types_rules.specs.Values as values;
ghost use Rattle.types_rules.specs.Expressions as expressions;
ghost use Rattle.types_scopes.specs.Views.{scope_of};
ghost use Rattle.types_scopes.specs.Found.{found_of, kind_of, value_of};
ghost use Rattle.types_scopes.specs.steps.Squeezed.{squeezed};
ghost use Rattle.types_expressions.specs.steps.Making.{found_by};

use crate::making::{Making, made};
use mc_tree::AssignmentOperator;
use mc_typed::Span;
use std::alloc::{AllocError, Global};
use types_scopes::Scope;
use types_scopes::found::{Found, kind_found};
use types_scopes::kind::{Kind, fails_assigned};
use types_scopes::value::{Value, is_const};

fn sides_fit(one: Kind<'_>, other: Kind<'_>) -> bool
    ensures { result ≡ expressions.sides_fit (kind_of one.entry) (kind_of other.entry) }
{
    match one {
        Kind::Integer => matches!(other, Kind::Integer),
        Kind::Structure(number) => match other {
            Kind::Structure(other) => number == other,
            _ => false,
        },
        Kind::Void | Kind::Assignment | Kind::Array { .. } | Kind::Function => false,
    }
}

fn sides_fail(one: Option<Kind<'_>>, other: Option<Kind<'_>>) -> bool
    ensures { result
        ≡ expressions.sides_fail (option_map kind_of one.entry) (option_map kind_of other.entry) }
{
    match one {
        Some(kind) => match other {
            Some(other) => !sides_fit(kind, other),
            None => !kind.is_assigned(),
        },
        None => fails_assigned(other),
    }
}

/// Whether the sides cannot stand in a simple assignment.
pub(crate) fn assign_fails(place: bool, target: &Option<Value>, value: &Option<Value>) -> bool
    ensures { result ≡ (expressions.target_fails expressions.is_assigned place
        (option_map value_of target.now)
        || expressions.sides_fail (option_map values.kind_of (option_map value_of target.now))
        (option_map values.kind_of (option_map value_of value.now))) }
{
    let own = kind_found(target);
    let not_assigned = fails_assigned(own);
    let fixed = is_const(target);
    let sides = sides_fail(own, kind_found(value));
    !place || not_assigned || fixed || sides
}

// How an assignment by this operator makes its effect.
fn making_of<'t, 'a>(scope: &'t Scope<'a>, operator: AssignmentOperator) -> Making<'t, 'a>
    ensures { (span : Span) (x y : values.Found) → y.scope ≡ scope_of scope.now
        → found_by result span x y ≡ expressions.assignment_found operator span x y }
{
    match operator {
        AssignmentOperator::Assign => Making::Assign(&scope.structures),
        _ => Making::Update(operator),
    }
}

/// An assignment on two operands.
pub fn assignment(
    alloc: Global,
    scope: &Scope<'_>,
    operator: AssignmentOperator,
    span: Span,
    target: Found,
    value: Found,
) -> Result<Found, AllocError>
    ensures { IfOk result (λ r. found_of r (scope_of scope.now)
        ≡ squeezed (expressions.assignment_found operator span
        (found_of target (scope_of scope.now))
        (found_of value (scope_of scope.now)))) }
{
    made(alloc, making_of(scope, operator), span, target, value)
}
