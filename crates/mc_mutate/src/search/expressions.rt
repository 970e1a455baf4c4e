//! The search in expressions.
ghost use Rattle.std.specs.Prelude.{◌≡◌, map};
ghost use Rattle.mc_typed.specs.Views.{expression_of, place_of, structure_of, call_of, argument_of, arguments_from};
ghost use Rattle.decide_rules.specs.Nodes as nodes;
ghost use Rattle.mc_mutate.specs.steps.Search.{inside, inside_parts, searched};

use crate::search::decision::{own, under};
use crate::search::sought::Sought;
use decide_rules::{Role, full_operator};
use mc_typed::{Argument, Expression, FunctionCall, Place, Structure};

/// Goes on in an expression that stands so in what is around it.
#[cycle(search)]
pub(super) fn expression(sought: Sought, role: Role, tree: &Expression) -> Sought
    ensures { result ≡ searched role (nodes.expression (expression_of tree.now)) sought }
{
    operands(own(sought, role, tree), tree)
}

/// Goes on in the decisions inside an expression.
#[cycle(search)]
fn operands(sought: Sought, tree: &Expression) -> Sought
    ensures { result ≡ inside (nodes.expression (expression_of tree.now)) sought }
{
    match tree {
        Expression::Constant { .. } | Expression::Input { .. } => sought,
        Expression::Read { place: object, .. } => place(sought, object),
        Expression::Unary { operand, .. } | Expression::Convert { operand, .. } => {
            expression(sought, Role::Plain, operand)
        }
        Expression::Not { operand, .. } => expression(sought, Role::Inner, operand),
        Expression::Binary {
            operator,
            left,
            right,
            ..
        } => {
            let role = under(full_operator(*operator, left, right));
            let state = expression(sought, role, left);
            expression(state, role, right)
        }
        Expression::Logic { left, right, .. } => {
            let state = expression(sought, Role::Inner, left);
            expression(state, Role::Inner, right)
        }
        Expression::Choice {
            test,
            chosen,
            other,
            ..
        } => {
            let state = expression(sought, Role::Controlling, test);
            let state = expression(state, Role::Plain, chosen);
            expression(state, Role::Plain, other)
        }
        Expression::Call { call: made, .. } => call(sought, made),
        Expression::Probe { operand, .. } => operands(sought, operand),
    }
}

/// Goes on in a place.
#[cycle(search)]
pub(super) fn place(sought: Sought, tree: &Place) -> Sought
    ensures { result ≡ searched Role.Plain (nodes.place (place_of tree.now)) sought }
{
    match tree {
        Place::Local { .. } | Place::Static { .. } => sought,
        Place::Parameter { index, .. } => expression(sought, Role::Plain, index),
        Place::Item { array, index, .. } => {
            let state = place(sought, array);
            expression(state, Role::Plain, index)
        }
        Place::Member {
            structure: whole,
            ..
        } => place(sought, whole),
    }
}

/// Goes on in a structure.
#[cycle(search)]
pub(super) fn structure(sought: Sought, tree: &Structure) -> Sought
    ensures { result ≡ searched Role.Plain (nodes.structure (structure_of tree.now)) sought }
{
    match tree {
        Structure::Stored { place: object } => place(sought, object),
        Structure::Returned { call: made } => call(sought, made),
    }
}

/// Goes on in the arguments of a call.
#[cycle(search)]
pub(super) fn call(sought: Sought, tree: &FunctionCall) -> Sought
    ensures { result ≡ inside_parts (nodes.call_parts (call_of tree.now)) sought }
{
    arguments(sought, &tree.arguments)
}

#[cycle(search)]
fn argument(sought: Sought, tree: &Argument) -> Sought
    ensures { result ≡ searched Role.Plain (nodes.argument (argument_of tree.now)) sought }
{
    match tree {
        Argument::Number { value } => expression(sought, Role::Plain, value),
        Argument::Structure { value, .. } => structure(sought, value),
        Argument::Array { place: object, .. } => place(sought, object),
        Argument::Again { .. } => sought,
    }
}

#[cycle(search)]
fn arguments(sought: Sought, trees: &[Argument]) -> Sought
    ensures { result
        ≡ inside_parts (nodes.arguments (arguments_from (map argument_of trees.now))) sought }
{
    let mut state = sought;
    for tree in trees {
        state = argument(state, tree);
    }
    state
}
