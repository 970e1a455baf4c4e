//! The height of expressions.
ghost use Rattle.std.specs.Prelude.{◌≡◌, map};
ghost use Rattle.mc_typed.specs.Levels.{height, height_place, height_structure, height_call, height_argument, height_arguments, limited_more};
ghost use Rattle.mc_typed.specs.Views.{expression_of, place_of, structure_of, call_of, argument_of, arguments_from};

use crate::expressions::{Argument, Expression, FunctionCall, Place, Structure};
use crate::heights::deeper;
use std::cmp::max;

#[cycle(levels)]
pub(super) fn place(tree: &Place) -> u32
    ensures { result ≡ height_place limited_more (place_of tree.now) }
{
    match tree {
        Place::Local { .. } | Place::Static { .. } => 1,
        Place::Parameter { index, .. } => deeper(max(1, expression(index))),
        Place::Item { array, index, .. } => deeper(max(place(array), expression(index))),
        Place::Member {
            structure: whole,
            ..
        } => deeper(place(whole)),
    }
}

#[cycle(levels)]
pub(super) fn expression(tree: &Expression) -> u32
    ensures { result ≡ height limited_more (expression_of tree.now) }
{
    match tree {
        Expression::Constant { .. } | Expression::Input { .. } => 1,
        Expression::Read { place: object, .. } => place(object),
        Expression::Unary { operand, .. } | Expression::Not { operand, .. } => {
            deeper(expression(operand))
        }
        Expression::Convert {
            written,
            operand,
            ..
        } => {
            let levels = expression(operand);
            if *written { deeper(levels) } else { levels }
        }
        Expression::Binary { left, right, .. } | Expression::Logic { left, right, .. } => {
            deeper(max(expression(left), expression(right)))
        }
        Expression::Choice {
            test,
            chosen,
            other,
            ..
        } => deeper(max(expression(test), max(expression(chosen), expression(other)))),
        Expression::Call { call: made, .. } => call(made),
        Expression::Probe { operand, .. } => expression(operand),
    }
}

#[cycle(levels)]
pub(super) fn structure(tree: &Structure) -> u32
    ensures { result ≡ height_structure limited_more (structure_of tree.now) }
{
    match tree {
        Structure::Stored { place: object } => place(object),
        Structure::Returned { call: made } => call(made),
    }
}

#[cycle(levels)]
pub(super) fn call(tree: &FunctionCall) -> u32
    ensures { result ≡ height_call limited_more (call_of tree.now) }
{
    deeper(arguments(&tree.arguments))
}

#[cycle(levels)]
fn argument(tree: &Argument) -> u32
    ensures { result ≡ height_argument limited_more (argument_of tree.now) }
{
    match tree {
        Argument::Number { value } => expression(value),
        Argument::Structure { value, .. } => structure(value),
        Argument::Array { place: object, .. } => place(object),
        Argument::Again { .. } => 1,
    }
}

#[cycle(levels)]
fn arguments(trees: &[Argument]) -> u32
    ensures { result ≡ height_arguments limited_more (arguments_from (map argument_of trees.now)) }
{
    let mut tallest = 0;
    for tree in trees {
        tallest = max(tallest, argument(tree));
    }
    tallest
}
