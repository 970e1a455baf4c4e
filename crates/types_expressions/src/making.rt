//! Assignments of both kinds, made by one walk over their sides (C17 6.5.16).
ghost use Rattle.std.specs.Prelude.{◌≡◌, ◌++◌, IfOk, Some, map, option_map};
ghost use Rattle.mc_typed.specs.Tree as typed_tree;
ghost use Rattle.mc_typed.specs.Views.{expression_of, place_of};
ghost use Rattle.mc_typed.specs.Views as typed;
ghost use Rattle.types_faults.specs.declared.fault.FaultKind.TheVariants.{Mismatch};
ghost use Rattle.types_faults.specs.Faults.{fault_if, least_of};
ghost use Rattle.types_faults.specs.Kept.{listed};
ghost use Rattle.types_rules.specs.Types as types;
ghost use Rattle.types_rules.specs.Scopes as scopes;
ghost use Rattle.types_rules.specs.Values as values;
ghost use Rattle.types_rules.specs.Expressions as expressions;
ghost use Rattle.types_scopes.specs.Types.{base_of};
ghost use Rattle.types_scopes.specs.Views.{structure_of};
ghost use Rattle.types_scopes.specs.Found.{found_of, value_of};
ghost use Rattle.types_scopes.specs.steps.Squeezed.{squeezed};
ghost use Rattle.types_expressions.specs.steps.Making.{fails_by, found_by, made_by, number_by, updated, value_type, working_type};

use crate::assignments::assign_fails;
use crate::operands::found;
use crate::update::update_fails;
use mc_tree::AssignmentOperator;
use mc_typed::{Effect, Expression, Operator, Place, Span};
use mc_value::{BinOp, IntType, ShiftOp, common, promote};
use std::alloc::{AllocError, Global};
use types_faults::{Fault, FaultKind, two_or_fault};
use types_scopes::conversions::convert_to;
use types_scopes::found::Found;
use types_scopes::lists::unused;
use types_scopes::parts::ValueParts;
use types_scopes::structures::structure_cells;
use types_scopes::value::{Value, assigned};
use types_scopes::{Base, CType, Structure};

/// How an assignment makes its effect: as `=`, where the structure types are these, or as a
/// compound assignment with this operator.
#[derive(Clone, Copy)]
pub(crate) enum Making<'t, 'a> {
    Assign(&'t [Structure<'a>]),
    Update(AssignmentOperator),
}

// ---- integers

// The operator of a compound assignment.
fn operator_of(operator: AssignmentOperator) -> Option<Operator>
    ensures { (place : typed_tree.Place) (of : IntType) (f : typed_tree.Expression) (span : Span)
        → expressions.update_of operator place of f span
        ≡ option_map (λ o. updated o place of f span) result }
{
    match operator {
        AssignmentOperator::Assign => None,
        AssignmentOperator::Multiply => Some(Operator::Binary(BinOp::Mul)),
        AssignmentOperator::Divide => Some(Operator::Binary(BinOp::Div)),
        AssignmentOperator::Remainder => Some(Operator::Binary(BinOp::Rem)),
        AssignmentOperator::Add => Some(Operator::Binary(BinOp::Add)),
        AssignmentOperator::Subtract => Some(Operator::Binary(BinOp::Sub)),
        AssignmentOperator::ShiftLeft => Some(Operator::Shift(ShiftOp::Left)),
        AssignmentOperator::ShiftRight => Some(Operator::Shift(ShiftOp::Right)),
        AssignmentOperator::BitAnd => Some(Operator::Binary(BinOp::And)),
        AssignmentOperator::BitXor => Some(Operator::Binary(BinOp::Xor)),
        AssignmentOperator::BitOr => Some(Operator::Binary(BinOp::Or)),
    }
}

// The type that an operator works in, on an object and a value of these types, and the type that
// the value is converted to.
fn types_for(operator: Operator, of: IntType, given: IntType) -> (IntType, IntType)
    ensures common { result.0 ≡ working_type operator of given }
    ensures value { result.1 ≡ value_type operator of given }
{
    match operator {
        Operator::Binary(_) => {
            let common = common(of, given);
            (common, common)
        }
        Operator::Shift(_) => (promote(of), promote(given)),
    }
}

fn updating(
    alloc: Global,
    operator: Operator,
    target: Place,
    of: IntType,
    value: Expression,
    span: Span,
) -> Result<Option<Value>, AllocError>
    ensures { IfOk result (λ r. option_map value_of r ≡ Some (values.Assigned
        (updated operator (place_of target) of (expression_of value) span))) }
{
    let (common, to) = types_for(operator, of, value.integer_type());
    match convert_to(alloc, to, value) {
        Ok(value) => assigned(
            alloc,
            Effect::Update {
                target,
                of,
                operator,
                common,
                value,
                span,
            },
        ),
        Err(error) => {
            drop(target);
            Err(error)
        }
    }
}

fn storing(
    alloc: Global,
    target: Place,
    of: IntType,
    value: Expression,
    span: Span,
) -> Result<Option<Value>, AllocError>
    ensures { IfOk result (λ r. option_map value_of r ≡ Some (values.Assigned
        (typed_tree.Assign (place_of target) of (expressions.convert_to of (expression_of value))
        span))) }
{
    match convert_to(alloc, of, value) {
        Ok(value) => assigned(
            alloc,
            Effect::Assign {
                target,
                of,
                value,
                span,
            },
        ),
        Err(error) => {
            drop(target);
            Err(error)
        }
    }
}

fn number_effect(
    alloc: Global,
    making: Making<'_, '_>,
    target: Place,
    of: IntType,
    value: Option<Expression>,
    span: Span,
) -> Result<Option<Value>, AllocError>
    ensures { IfOk result (λ r. option_map value_of r ≡ option_map values.Assigned
        (number_by making.entry (place_of target) of span (option_map expression_of value))) }
{
    let Some(value) = value else {
        drop(target);
        return Ok(None);
    };
    match making {
        Making::Assign(_) => storing(alloc, target, of, value, span),
        Making::Update(operator) => match operator_of(operator) {
            Some(operator) => updating(alloc, operator, target, of, value, span),
            None => {
                drop(target);
                drop(value);
                Ok(None)
            }
        },
    }
}

// ---- structures

fn structure_effect(
    alloc: Global,
    structures: &[Structure<'_>],
    number: usize,
    target: Place,
    value: Option<mc_typed::Structure>,
    span: Span,
) -> Result<Option<Value>, AllocError>
    ensures { IfOk result (λ r. option_map value_of r ≡ option_map values.Assigned
        (option_map (λ w. typed_tree.Copy (place_of target) w (types.cells_of
        (map structure_of structures.now) (types.plain (types.Tagged number))) span)
        (option_map typed.structure_of value))) }
{
    match value {
        Some(value) => {
            let cells = structure_cells(structures, number);
            assigned(
                alloc,
                Effect::Copy {
                    target,
                    value,
                    cells,
                    span,
                },
            )
        }
        None => {
            drop(target);
            Ok(None)
        }
    }
}

// ---- values

// The assignment to an object of this type.
fn made_in(
    alloc: Global,
    making: Making<'_, '_>,
    span: Span,
    value: Value,
    target: Place,
    of: &CType,
) -> Result<Option<Value>, AllocError>
    ensures { IfOk result (λ r. option_map value_of r ≡ option_map values.Assigned
        (made_by making.entry span (value_of value) (place_of target) (base_of of.now.base)
        of.now.lengths.items)) }
{
    if !of.lengths.is_empty() {
        drop(value);
        drop(target);
        return Ok(None);
    }
    match of.base {
        Base::Void => {
            drop(value);
            drop(target);
            Ok(None)
        }
        Base::Integer(to) => { number_effect(alloc, making, target, to, value.into_number(), span) }
        Base::Tagged(number) => match making {
            Making::Assign(structures) => {
                let value = value.into_structure(number);
                structure_effect(alloc, structures, number, target, value, span)
            }
            Making::Update(_) => {
                drop(value);
                drop(target);
                Ok(None)
            }
        },
    }
}

// The value of an assignment of the second value to the first.
fn made_value(
    alloc: Global,
    making: Making<'_, '_>,
    span: Span,
    target: Option<Value>,
    value: Option<Value>,
) -> Result<Option<Value>, AllocError>
    ensures { IfOk result (λ r. option_map value_of r
        ≡ expressions.assignment_value (made_by making.entry span) (option_map value_of target)
        (option_map value_of value)) }
{
    let Some(target) = target else {
        unused(value);
        return Ok(None);
    };
    let Some(value) = value else {
        drop(target);
        return Ok(None);
    };
    match target.into_parts() {
        ValueParts::Stored(place, of) => {
            let made = made_in(alloc, making, span, value, place, &of);
            drop(of);
            made
        }
        other => {
            drop(other);
            drop(value);
            Ok(None)
        }
    }
}

// The first fault of an assignment.
fn sides_fault(making: Making<'_, '_>, at: u32, target: &Found, value: &Found) -> Option<Fault>
    ensures { result ≡ least_of (listed target.now.fault ++ (listed value.now.fault
        ++ fault_if (fails_by making.entry target.now.place (option_map value_of target.now.value)
        (option_map values.kind_of (option_map value_of value.now.value))) Mismatch at)) }
{
    let wrong = match making {
        Making::Assign(_) => assign_fails(target.place, &target.value, &value.value),
        Making::Update(_) => update_fails(target.place, &target.value, &value.value),
    };
    two_or_fault(target.fault, value.fault, wrong, FaultKind::Mismatch, at)
}

/// An assignment on two operands.
pub(crate) fn made(
    alloc: Global,
    making: Making<'_, '_>,
    span: Span,
    target: Found,
    value: Found,
) -> Result<Found, AllocError>
    ensures { IfOk result (λ r. (s : scopes.Scope) → found_of r s
        ≡ squeezed (found_by making.entry span (found_of target s) (found_of value s))) }
{
    let fault = sides_fault(making, span.start, &target, &value);
    let value = made_value(alloc, making, span, target.value, value.value);
    found(fault, value, false, false)
}
