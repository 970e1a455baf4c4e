//! Expressions without probes.
ghost use Rattle.std.specs.Prelude.{◌≡◌, map, IfOk};
ghost use Rattle.mc_typed.specs.Views as plain;
ghost use Rattle.mc_probe.specs.Views as probed;
ghost use Rattle.mc_probe.specs.Bare.{bare_argument, bare_arguments, bare_call, bare_expression, bare_place, bare_structure};

use mc_typed::{Argument, Expression, FunctionCall, Place, Structure};
use std::alloc::{AllocError, Global};

/// A copy of an expression.
#[cycle(copy)]
pub fn expression(alloc: Global, tree: &Expression) -> Result<Expression, AllocError>
    ensures { IfOk result (λ c.
        probed.expression_of c ≡ bare_expression (plain.expression_of tree.now)) }
{
    match tree {
        Expression::Constant { value, of, span } => Ok(Expression::Constant {
            value: *value,
            of: *of,
            span: *span,
        }),
        Expression::Input { span } => Ok(Expression::Input { span: *span }),
        Expression::Read { place: object, of } => {
            let place = place(alloc, object)?;
            Ok(Expression::Read { place, of: *of })
        }
        Expression::Unary {
            operator,
            of,
            operand,
            span,
        } => {
            let operand = boxed(alloc, operand)?;
            Ok(Expression::Unary {
                operator: *operator,
                of: *of,
                operand,
                span: *span,
            })
        }
        Expression::Convert {
            to,
            written,
            operand,
            span,
        } => {
            let operand = boxed(alloc, operand)?;
            Ok(Expression::Convert {
                to: *to,
                written: *written,
                operand,
                span: *span,
            })
        }
        Expression::Not { operand, span } => {
            let operand = boxed(alloc, operand)?;
            Ok(Expression::Not {
                operand,
                span: *span,
            })
        }
        Expression::Binary {
            operator,
            of,
            left,
            right,
            span,
        } => {
            let left = boxed(alloc, left)?;
            let right = boxed(alloc, right)?;
            Ok(Expression::Binary {
                operator: *operator,
                of: *of,
                left,
                right,
                span: *span,
            })
        }
        Expression::Logic {
            operator,
            left,
            right,
            span,
        } => {
            let left = boxed(alloc, left)?;
            let right = boxed(alloc, right)?;
            Ok(Expression::Logic {
                operator: *operator,
                left,
                right,
                span: *span,
            })
        }
        Expression::Choice {
            test,
            chosen,
            other,
            of,
            span,
        } => {
            let test = boxed(alloc, test)?;
            let chosen = boxed(alloc, chosen)?;
            let other = boxed(alloc, other)?;
            Ok(Expression::Choice {
                test,
                chosen,
                other,
                of: *of,
                span: *span,
            })
        }
        Expression::Call { call: made, of } => {
            let call = call(alloc, made)?;
            Ok(Expression::Call { call, of: *of })
        }
        Expression::Probe { operand, .. } => expression(alloc, operand),
    }
}

/// The same on the heap. What is boxed passes through this function alone: a function clears all
/// its values as it begins, and that would be much of the time that a copy takes.
#[cycle(copy)]
#[inline(never)]
fn boxed(alloc: Global, tree: &Expression) -> Result<Box<Expression>, AllocError>
    ensures { IfOk result (λ c.
        probed.expression_of c.value ≡ bare_expression (plain.expression_of tree.now)) }
{
    let copy = expression(alloc, tree)?;
    let copy = Box::new(alloc, copy)?;
    Ok(copy)
}

/// A copy of a place.
#[cycle(copy)]
pub(super) fn place(alloc: Global, tree: &Place) -> Result<Place, AllocError>
    ensures { IfOk result (λ c. probed.place_of c ≡ bare_place (plain.place_of tree.now)) }
{
    match tree {
        Place::Local { slot, span } => Ok(Place::Local {
            slot: *slot,
            span: *span,
        }),
        Place::Static { slot, span } => Ok(Place::Static {
            slot: *slot,
            span: *span,
        }),
        Place::Parameter {
            array,
            stride,
            index,
            span,
        } => {
            let index = boxed(alloc, index)?;
            Ok(Place::Parameter {
                array: *array,
                stride: *stride,
                index,
                span: *span,
            })
        }
        Place::Item {
            array,
            length,
            stride,
            index,
            span,
        } => {
            let array = boxed_place(alloc, array)?;
            let index = boxed(alloc, index)?;
            Ok(Place::Item {
                array,
                length: *length,
                stride: *stride,
                index,
                span: *span,
            })
        }
        Place::Member {
            structure: whole,
            member,
            offset,
            span,
        } => {
            let structure = boxed_place(alloc, whole)?;
            Ok(Place::Member {
                structure,
                member: *member,
                offset: *offset,
                span: *span,
            })
        }
    }
}

/// A copy of a place, on the heap.
#[cycle(copy)]
#[inline(never)]
fn boxed_place(alloc: Global, tree: &Place) -> Result<Box<Place>, AllocError>
    ensures { IfOk result (λ c. probed.place_of c.value ≡ bare_place (plain.place_of tree.now)) }
{
    let copy = place(alloc, tree)?;
    let copy = Box::new(alloc, copy)?;
    Ok(copy)
}

/// A copy of a structure.
#[cycle(copy)]
pub(super) fn structure(alloc: Global, tree: &Structure) -> Result<Structure, AllocError>
    ensures { IfOk result (λ c.
        probed.structure_of c ≡ bare_structure (plain.structure_of tree.now)) }
{
    match tree {
        Structure::Stored { place: object } => {
            let place = place(alloc, object)?;
            Ok(Structure::Stored { place })
        }
        Structure::Returned { call: made } => {
            let call = call(alloc, made)?;
            Ok(Structure::Returned { call })
        }
    }
}

/// A copy of a call.
#[cycle(copy)]
pub(super) fn call(alloc: Global, tree: &FunctionCall) -> Result<FunctionCall, AllocError>
    ensures { IfOk result (λ c. probed.call_of c ≡ bare_call (plain.call_of tree.now)) }
{
    let arguments = arguments(alloc, &tree.arguments)?;
    Ok(FunctionCall {
        function: tree.function,
        arguments,
        result: tree.result,
        span: tree.span,
    })
}

#[cycle(copy)]
fn argument(alloc: Global, tree: &Argument) -> Result<Argument, AllocError>
    ensures { IfOk result (λ c.
        probed.argument_of c ≡ bare_argument (plain.argument_of tree.now)) }
{
    match tree {
        Argument::Number { value } => {
            let value = expression(alloc, value)?;
            Ok(Argument::Number { value })
        }
        Argument::Structure { value, copy } => {
            let value = structure(alloc, value)?;
            Ok(Argument::Structure { value, copy: *copy })
        }
        Argument::Array {
            place: object,
            length,
        } => {
            let place = place(alloc, object)?;
            Ok(Argument::Array {
                place,
                length: *length,
            })
        }
        Argument::Again { array, span } => Ok(Argument::Again {
            array: *array,
            span: *span,
        }),
    }
}

#[cycle(copy)]
fn arguments(alloc: Global, trees: &[Argument]) -> Result<Vec<Argument>, AllocError>
    ensures { IfOk result (λ c. probed.arguments_from (map probed.argument_of c.items)
        ≡ bare_arguments (plain.arguments_from (map plain.argument_of trees.now))) }
{
    let mut copies = Vec::with_capacity(alloc, trees.len())?;
    for tree in trees {
        let copy = argument(alloc, tree)?;
        copies.push(copy)?;
    }
    Ok(copies)
}
