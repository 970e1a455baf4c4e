//! What operators are made of. Where one part cannot be made, the others are let go by calls of
//! `drop`: written out at each exit, their drops would make each proof several times as long.
ghost use Rattle.std.specs.Prelude.{◌≡◌, IfOk, Ok};
ghost use Rattle.mc_typed.specs.Views.{expression_of};
ghost use Rattle.types_rules.specs.Expressions as expressions;

use mc_typed::Expression;
use mc_value::IntType;
use std::alloc::{AllocError, Global};
use types_faults::Fault;
use types_scopes::conversions::convert_to;
use types_scopes::found::Found;
use types_scopes::value::Value;

/// A value in a box.
pub(crate) fn boxed<T: Drop>(alloc: Global, one: T) -> Result<Box<T>, AllocError>
    ensures { IfOk result (λ r. r.value ≡ one) }
{
    Ok(Box::new(alloc, one)?)
}

/// Both in boxes.
pub(crate) fn both_boxed(
    alloc: Global,
    left: Expression,
    right: Expression,
) -> Result<(Box<Expression>, Box<Expression>), AllocError>
    ensures left { IfOk result (λ r. r.0.value ≡ left) }
    ensures right { IfOk result (λ r. r.1.value ≡ right) }
{
    match boxed(alloc, left) {
        Ok(left) => match boxed(alloc, right) {
            Ok(right) => Ok((left, right)),
            Err(error) => {
                drop(left);
                Err(error)
            }
        },
        Err(error) => {
            drop(right);
            Err(error)
        }
    }
}

/// An operand, converted to a type, in a box.
pub(crate) fn operand(
    alloc: Global,
    to: IntType,
    one: Expression,
) -> Result<Box<Expression>, AllocError>
    ensures { IfOk result (λ r. expression_of r.value
        ≡ expressions.convert_to to (expression_of one)) }
{
    match convert_to(alloc, to, one) {
        Ok(one) => boxed(alloc, one),
        Err(error) => Err(error),
    }
}

/// Two operands, each converted to its type.
pub(crate) fn operands(
    alloc: Global,
    left_to: IntType,
    left: Expression,
    right_to: IntType,
    right: Expression,
) -> Result<(Box<Expression>, Box<Expression>), AllocError>
    ensures left { IfOk result (λ r. expression_of r.0.value
        ≡ expressions.convert_to left_to (expression_of left)) }
    ensures right { IfOk result (λ r. expression_of r.1.value
        ≡ expressions.convert_to right_to (expression_of right)) }
{
    match operand(alloc, left_to, left) {
        Ok(left) => match operand(alloc, right_to, right) {
            Ok(right) => Ok((left, right)),
            Err(error) => {
                drop(left);
                Err(error)
            }
        },
        Err(error) => {
            drop(right);
            Err(error)
        }
    }
}

/// What is found of a node, where its value could be made.
pub(crate) fn found(
    fault: Option<Fault>,
    value: Result<Option<Value>, AllocError>,
    place: bool,
    constant: bool,
) -> Result<Found, AllocError>
    ensures fault { IfOk result (λ r. r.fault ≡ fault) }
    ensures value { IfOk result (λ r. value ≡ Ok r.value) }
    ensures place { IfOk result (λ r. r.place ≡ place) }
    ensures constant { IfOk result (λ r. r.constant ≡ constant) }
{
    match value {
        Ok(value) => Ok(Found {
            fault,
            value,
            place,
            constant,
        }),
        Err(error) => Err(error),
    }
}
