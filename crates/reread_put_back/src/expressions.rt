//! Expressions with their probes.
ghost use Rattle.std.specs.Prelude.{◌≡◌, map, IfOk};
ghost use Rattle.mc_typed.specs.Views as plain;
ghost use Rattle.mc_probe.specs.Views as probed;
ghost use Rattle.reread_put_back.specs.Back as spec;
ghost use Rattle.reread_put_back.specs.steps.Inside.{inside};
ghost use Rattle.reread_put_back.specs.steps.Views.{pen_of};

use crate::pen::Pen;
use crate::rounds::{surround, take_round};
use crate::walk::Walk;
use mc_typed::{Argument, Expression, FunctionCall, Place, Structure};
use std::alloc::AllocError;

/// A copy of an expression with the probes round it and in it.
#[cycle(back)]
#[tactic(auto, using(crate::proofs::Around::back_is))]
pub(crate) fn expression(
    walk: &Walk,
    pen: &mut Pen<'_>,
    tree: &Expression,
) -> Result<Expression, AllocError>
    ensures part { IfOk result (λ c. probed.expression_of c
        ≡ (spec.back walk.now.registers (plain.expression_of tree.now) (pen_of pen.old)).0) }
    ensures pen { IfOk result (λ _. pen_of pen.new
        ≡ (spec.back walk.now.registers (plain.expression_of tree.now) (pen_of pen.old)).1) }
{
    let round = take_round(pen, tree);
    let operand = inside(walk, pen, tree)?;
    surround(walk, pen, round, operand)
}

/// A copy of an expression with the probes of its parts.
#[cycle(back)]
fn inside(walk: &Walk, pen: &mut Pen<'_>, tree: &Expression) -> Result<Expression, AllocError>
    ensures part { IfOk result (λ c. probed.expression_of c
        ≡ (inside walk.now.registers (plain.expression_of tree.now) (pen_of pen.old)).0) }
    ensures pen { IfOk result (λ _. pen_of pen.new
        ≡ (inside walk.now.registers (plain.expression_of tree.now) (pen_of pen.old)).1) }
{
    match tree {
        Expression::Constant { value, of, span } => Ok(Expression::Constant {
            value: *value,
            of: *of,
            span: *span,
        }),
        Expression::Input { span } => Ok(Expression::Input { span: *span }),
        Expression::Read { place: object, of } => {
            let place = place(walk, pen, object)?;
            Ok(Expression::Read { place, of: *of })
        }
        Expression::Unary {
            operator,
            of,
            operand,
            span,
        } => {
            let operand = boxed(walk, pen, operand)?;
            Ok(Expression::Unary {
                operator: *operator,
                of: *of,
                operand,
                span: *span,
            })
        }
        Expression::Convert {
            to,
            written,
            operand,
            span,
        } => {
            let operand = boxed(walk, pen, operand)?;
            Ok(Expression::Convert {
                to: *to,
                written: *written,
                operand,
                span: *span,
            })
        }
        Expression::Not { operand, span } => {
            let operand = boxed(walk, pen, operand)?;
            Ok(Expression::Not {
                operand,
                span: *span,
            })
        }
        Expression::Binary {
            operator,
            of,
            left,
            right,
            span,
        } => {
            let left = boxed(walk, pen, left)?;
            let right = boxed(walk, pen, right)?;
            Ok(Expression::Binary {
                operator: *operator,
                of: *of,
                left,
                right,
                span: *span,
            })
        }
        Expression::Logic {
            operator,
            left,
            right,
            span,
        } => {
            let left = boxed(walk, pen, left)?;
            let right = boxed(walk, pen, right)?;
            Ok(Expression::Logic {
                operator: *operator,
                left,
                right,
                span: *span,
            })
        }
        Expression::Choice {
            test: first,
            chosen,
            other,
            of,
            span,
        } => {
            let test = boxed(walk, pen, first)?;
            let chosen = boxed(walk, pen, chosen)?;
            let other = boxed(walk, pen, other)?;
            Ok(Expression::Choice {
                test,
                chosen,
                other,
                of: *of,
                span: *span,
            })
        }
        Expression::Call { call: made, of } => {
            let call = call(walk, pen, made)?;
            Ok(Expression::Call { call, of: *of })
        }
        Expression::Probe { operand, .. } => inside(walk, pen, operand),
    }
}

/// A copy of an expression with the probes round it and in it, on the heap. What is boxed passes
/// through this function alone: a function clears all its values as it begins, and its frame has
/// room for all of them.
#[cycle(back)]
#[inline(never)]
fn boxed(walk: &Walk, pen: &mut Pen<'_>, tree: &Expression) -> Result<Box<Expression>, AllocError>
    ensures part { IfOk result (λ c. probed.expression_of c.value
        ≡ (spec.back walk.now.registers (plain.expression_of tree.now) (pen_of pen.old)).0) }
    ensures pen { IfOk result (λ _. pen_of pen.new
        ≡ (spec.back walk.now.registers (plain.expression_of tree.now) (pen_of pen.old)).1) }
{
    let copy = expression(walk, pen, tree)?;
    let copy = Box::new(walk.alloc, copy)?;
    Ok(copy)
}

/// A copy of a place, on the heap.
#[cycle(back)]
#[inline(never)]
fn boxed_place(walk: &Walk, pen: &mut Pen<'_>, tree: &Place) -> Result<Box<Place>, AllocError>
    ensures part { IfOk result (λ c. probed.place_of c.value
        ≡ (spec.back_place walk.now.registers (plain.place_of tree.now) (pen_of pen.old)).0) }
    ensures pen { IfOk result (λ _. pen_of pen.new
        ≡ (spec.back_place walk.now.registers (plain.place_of tree.now) (pen_of pen.old)).1) }
{
    let copy = place(walk, pen, tree)?;
    let copy = Box::new(walk.alloc, copy)?;
    Ok(copy)
}

/// A copy of a place.
#[cycle(back)]
pub(crate) fn place(walk: &Walk, pen: &mut Pen<'_>, tree: &Place) -> Result<Place, AllocError>
    ensures part { IfOk result (λ c. probed.place_of c
        ≡ (spec.back_place walk.now.registers (plain.place_of tree.now) (pen_of pen.old)).0) }
    ensures pen { IfOk result (λ _. pen_of pen.new
        ≡ (spec.back_place walk.now.registers (plain.place_of tree.now) (pen_of pen.old)).1) }
{
    match tree {
        Place::Local { slot, span } => Ok(Place::Local {
            slot: *slot,
            span: *span,
        }),
        Place::Static { slot, span } => Ok(Place::Static {
            slot: *slot,
            span: *span,
        }),
        Place::Parameter {
            array,
            stride,
            index,
            span,
        } => {
            let index = boxed(walk, pen, index)?;
            Ok(Place::Parameter {
                array: *array,
                stride: *stride,
                index,
                span: *span,
            })
        }
        Place::Item {
            array,
            length,
            stride,
            index,
            span,
        } => {
            let array = boxed_place(walk, pen, array)?;
            let index = boxed(walk, pen, index)?;
            Ok(Place::Item {
                array,
                length: *length,
                stride: *stride,
                index,
                span: *span,
            })
        }
        Place::Member {
            structure: whole,
            member,
            offset,
            span,
        } => {
            let structure = boxed_place(walk, pen, whole)?;
            Ok(Place::Member {
                structure,
                member: *member,
                offset: *offset,
                span: *span,
            })
        }
    }
}

/// A copy of a structure.
#[cycle(back)]
pub(crate) fn structure(
    walk: &Walk,
    pen: &mut Pen<'_>,
    tree: &Structure,
) -> Result<Structure, AllocError>
    ensures part { IfOk result (λ c. probed.structure_of c
        ≡ (spec.back_structure walk.now.registers (plain.structure_of tree.now)
        (pen_of pen.old)).0) }
    ensures pen { IfOk result (λ _. pen_of pen.new
        ≡ (spec.back_structure walk.now.registers (plain.structure_of tree.now)
        (pen_of pen.old)).1) }
{
    match tree {
        Structure::Stored { place: object } => {
            let place = place(walk, pen, object)?;
            Ok(Structure::Stored { place })
        }
        Structure::Returned { call: made } => {
            let call = call(walk, pen, made)?;
            Ok(Structure::Returned { call })
        }
    }
}

/// A copy of a call.
#[cycle(back)]
pub(crate) fn call(
    walk: &Walk,
    pen: &mut Pen<'_>,
    tree: &FunctionCall,
) -> Result<FunctionCall, AllocError>
    ensures part { IfOk result (λ c. probed.call_of c
        ≡ (spec.back_call walk.now.registers (plain.call_of tree.now) (pen_of pen.old)).0) }
    ensures pen { IfOk result (λ _. pen_of pen.new
        ≡ (spec.back_call walk.now.registers (plain.call_of tree.now) (pen_of pen.old)).1) }
{
    let arguments = arguments(walk, pen, &tree.arguments)?;
    Ok(FunctionCall {
        function: tree.function,
        arguments,
        result: tree.result,
        span: tree.span,
    })
}

#[cycle(back)]
fn argument(walk: &Walk, pen: &mut Pen<'_>, tree: &Argument) -> Result<Argument, AllocError>
    ensures part { IfOk result (λ c. probed.argument_of c
        ≡ (spec.back_argument walk.now.registers (plain.argument_of tree.now) (pen_of pen.old)).0) }
    ensures pen { IfOk result (λ _. pen_of pen.new
        ≡ (spec.back_argument walk.now.registers (plain.argument_of tree.now) (pen_of pen.old)).1) }
{
    match tree {
        Argument::Number { value } => {
            let value = expression(walk, pen, value)?;
            Ok(Argument::Number { value })
        }
        Argument::Structure { value, copy } => {
            let value = structure(walk, pen, value)?;
            Ok(Argument::Structure { value, copy: *copy })
        }
        Argument::Array {
            place: object,
            length,
        } => {
            let place = place(walk, pen, object)?;
            Ok(Argument::Array {
                place,
                length: *length,
            })
        }
        Argument::Again { array, span } => Ok(Argument::Again {
            array: *array,
            span: *span,
        }),
    }
}

#[cycle(back)]
fn arguments(
    walk: &Walk,
    pen: &mut Pen<'_>,
    trees: &[Argument],
) -> Result<Vec<Argument>, AllocError>
    ensures part { IfOk result (λ c. probed.arguments_from (map probed.argument_of c.items)
        ≡ (spec.back_arguments walk.now.registers
        (plain.arguments_from (map plain.argument_of trees.now))
        (pen_of pen.old)).0) }
    ensures pen { IfOk result (λ _. pen_of pen.new
        ≡ (spec.back_arguments walk.now.registers
        (plain.arguments_from (map plain.argument_of trees.now))
        (pen_of pen.old)).1) }
{
    let mut copies = Vec::with_capacity(walk.alloc, trees.len())?;
    for tree in trees {
        let copy = argument(walk, pen, tree)?;
        copies.push(copy)?;
    }
    Ok(copies)
}
