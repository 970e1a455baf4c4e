//! `return` with an expression (C17 6.8.6.4).
ghost use Rattle.std.specs.Prelude.{◌≡◌, Some, IfOk, option_map, option_and_then};
ghost use Rattle.mc_typed.specs.Tree as typed;
ghost use Rattle.mc_typed.specs.Views.{expression_of, structure_of, return_value_of};
ghost use Rattle.types_faults.specs.Faults.{least_of};
ghost use Rattle.types_rules.specs.Types.{Tagged, cells_of, plain};
ghost use Rattle.types_rules.specs.Values as values;
ghost use Rattle.types_rules.specs.Expressions as expressions;
ghost use Rattle.types_rules.specs.Statements as statements;
ghost use Rattle.types_scopes.specs.Types.{base_of};
ghost use Rattle.types_scopes.specs.Views.{scope_of};
ghost use Rattle.types_scopes.specs.Found.{found_of, judged_of, kind_of, value_of};
ghost use Rattle.types_scopes.specs.Statements.{statements_of};
ghost use Rattle.types_scopes.specs.steps.Squeezed.{squeezed_part};

use mc_typed::{Expression, ReturnValue, Span, Statement, Structure};
use mc_value::IntType;
use std::alloc::{AllocError, Global};
use types_faults::{Fault, FaultKind, after, fault_where};
use types_scopes::conversions::convert_to;
use types_scopes::found::{Found, Judged, kind_found};
use types_scopes::kind::{Kind, is_kind};
use types_scopes::leaves::alone;
use types_scopes::structures::structure_cells;
use types_scopes::value::Value;
use types_scopes::{Base, Scope};

fn fits(base: Base, kind: Kind<'_>) -> bool
    ensures { result ≡ statements.fits (base_of base) (kind_of kind.entry) }
{
    match base {
        Base::Void => false,
        Base::Integer(_) => kind.is_integer(),
        Base::Tagged(number) => is_kind(number, kind),
    }
}

fn fails_fit(base: Base, kind: Option<Kind<'_>>) -> bool
    ensures { result ≡ values.fails (statements.fits (base_of base))
        (option_map kind_of kind.entry) }
{
    match kind {
        Some(kind) => !fits(base, kind),
        None => false,
    }
}

fn return_fault(gives: Option<Base>, at: u32, kind: Option<Kind<'_>>) -> Option<Fault>
    ensures { result ≡ least_of
        (statements.return_faults (option_map base_of gives) at (option_map kind_of kind.entry)) }
{
    match gives {
        None => None,
        Some(base) => match base {
            Base::Void => Some(Fault {
                kind: FaultKind::Mismatch,
                at,
            }),
            Base::Integer(_) => fault_where(fails_fit(base, kind), FaultKind::Mismatch, at),
            Base::Tagged(_) => fault_where(fails_fit(base, kind), FaultKind::Mismatch, at),
        },
    }
}

fn return_number(
    alloc: Global,
    to: IntType,
    number: Option<Expression>,
) -> Result<Option<ReturnValue>, AllocError>
    ensures { IfOk result (λ r. option_map return_value_of r
        ≡ option_map (λ e. typed.ReturnNumber (expressions.convert_to to e))
        (option_map expression_of number)) }
{
    match number {
        Some(number) => {
            let value = convert_to(alloc, to, number)?;
            Ok(Some(ReturnValue::Number { value }))
        }
        None => Ok(None),
    }
}

fn return_structure(
    scope: &Scope<'_>,
    number: usize,
    value: Option<Structure>,
) -> Option<ReturnValue>
    ensures { option_map return_value_of result
        ≡ option_map
        (λ w. typed.ReturnStructure w
        (cells_of (scope_of scope.now).structures (plain (Tagged number))))
        (option_map structure_of value) }
{
    match value {
        Some(value) => {
            let cells = structure_cells(&scope.structures, number);
            Some(ReturnValue::Structure { value, cells })
        }
        None => None,
    }
}

fn value_for(
    alloc: Global,
    scope: &Scope<'_>,
    gives: Option<Base>,
    value: Value,
) -> Result<Option<ReturnValue>, AllocError>
    ensures { IfOk result (λ r. option_map return_value_of r
        ≡ statements.return_value (scope_of scope.now).structures (option_map base_of gives)
        (value_of value)) }
{
    match gives {
        Some(base) => match base {
            Base::Void => {
                drop(value);
                Ok(None)
            }
            Base::Integer(to) => return_number(alloc, to, value.into_number()),
            Base::Tagged(number) => {
                Ok(return_structure(scope, number, value.into_structure(number)))
            }
        },
        None => {
            drop(value);
            Ok(None)
        }
    }
}

fn return_value(
    alloc: Global,
    scope: &Scope<'_>,
    gives: Option<Base>,
    value: Option<Value>,
) -> Result<Option<ReturnValue>, AllocError>
    ensures { IfOk result (λ r. option_map return_value_of r
        ≡ option_and_then
        (statements.return_value (scope_of scope.now).structures (option_map base_of gives))
        (option_map value_of value)) }
{
    match value {
        Some(value) => value_for(alloc, scope, gives, value),
        None => Ok(None),
    }
}

fn return_alone(
    alloc: Global,
    span: Span,
    value: Option<ReturnValue>,
) -> Result<Option<Vec<Statement>>, AllocError>
    ensures { IfOk result (λ r. option_map statements_of r
        ≡ option_map (λ v. statements.alone (typed.Return v span))
        (option_map return_value_of value)) }
{
    match value {
        Some(value) => Ok(Some(alone(
            alloc,
            Statement::Return {
                value,
                span,
                bit: None,
                exit: None,
            },
        )?)),
        None => Ok(None),
    }
}

/// A `return` with an expression, in a function that gives this.
pub fn return_statement(
    alloc: Global,
    scope: &Scope<'_>,
    gives: Option<Base>,
    span: Span,
    found: Found,
) -> Result<Judged<Vec<Statement>>, AllocError>
    ensures { IfOk result (λ r. judged_of statements_of r (scope_of scope.now)
        ≡ squeezed_part (statements.return_judged (option_map base_of gives) span
        (found_of found (scope_of scope.now)))) }
{
    let own = return_fault(gives, span.start, kind_found(&found.value));
    let fault = after(found.fault, own);
    let value = return_value(alloc, scope, gives, found.value)?;
    let value = return_alone(alloc, span, value)?;
    Ok(Judged { fault, value })
}
