//! Roots in expressions.
ghost use Rattle.std.specs.Prelude.{◌≡◌, ◌&&◌, map, IfOk};
ghost use Rattle.mc_typed.specs.Views.{expression_of, place_of, structure_of, call_of, argument_of, arguments_from};
ghost use Rattle.decide_rules.specs.Nodes as nodes;
ghost use Rattle.decide_rules.specs.Roots.{is_constant};
ghost use Rattle.decide_walk.specs.steps.Gathering.{gathered_of, inside, inside_parts, role_under, visited};

use decide_rules::{FullOperator, Role, full_operator};
use decide_walk::{Gathered, call_parts, enter, mark_of, settle};
use mc_typed::{Argument, Expression, FunctionCall, Place, Structure};
use std::alloc::AllocError;

/// Adds the roots in an expression, and says whether it is an integer constant expression.
#[cycle(walk)]
pub(super) fn expression(
    found: &mut Gathered,
    role: Role,
    tree: &Expression,
) -> Result<bool, AllocError>
    ensures found { IfOk result (λ _. gathered_of found.new
        ≡ visited role (nodes.expression (expression_of tree.now))
        (gathered_of found.old)) }
    ensures constant { IfOk result (λ constant.
        constant ≡ is_constant (nodes.expression (expression_of tree.now))) }
{
    let before = mark_of(found);
    enter(found, role, tree)?;
    let constant = operands(found, tree)?;
    settle(found, before, constant);
    Ok(constant)
}

/// The same of the operands of an expression.
#[cycle(walk)]
fn operands(found: &mut Gathered, tree: &Expression) -> Result<bool, AllocError>
    ensures found { IfOk result (λ _. gathered_of found.new
        ≡ inside (nodes.expression (expression_of tree.now))
        (gathered_of found.old)) }
    ensures constant { IfOk result (λ constant.
        constant ≡ is_constant (nodes.expression (expression_of tree.now))) }
{
    match tree {
        Expression::Constant { .. } => Ok(true),
        Expression::Input { .. } => Ok(false),
        Expression::Read { place: object, .. } => {
            place(found, object)?;
            Ok(false)
        }
        Expression::Unary { operand, .. } | Expression::Convert { operand, .. } => {
            expression(found, Role::Plain, operand)
        }
        Expression::Not { operand, .. } => expression(found, Role::Inner, operand),
        Expression::Binary {
            operator,
            left,
            right,
            ..
        } => {
            let role = operand_role(full_operator(*operator, left, right));
            let constant = expression(found, role, left)?;
            further(found, constant, role, right)
        }
        Expression::Logic { left, right, .. } => {
            let constant = expression(found, Role::Inner, left)?;
            further(found, constant, Role::Inner, right)
        }
        Expression::Choice {
            test,
            chosen,
            other,
            ..
        } => {
            let constant = expression(found, Role::Controlling, test)?;
            let constant = further(found, constant, Role::Plain, chosen)?;
            further(found, constant, Role::Plain, other)
        }
        Expression::Call { call: made, .. } => {
            call(found, made)?;
            Ok(false)
        }
        Expression::Probe { operand, .. } => operands(found, operand),
    }
}

/// How the operands of an operator that evaluates both of them stand.
fn operand_role(full: Option<FullOperator>) -> Role
    ensures { result ≡ role_under full }
{
    match full {
        Some(_) => Role::Inner,
        None => Role::Plain,
    }
}

/// The same of a further operand, and says whether it and those before it are constant.
#[cycle(walk)]
fn further(
    found: &mut Gathered,
    before: bool,
    role: Role,
    tree: &Expression,
) -> Result<bool, AllocError>
    ensures found { IfOk result (λ _. gathered_of found.new
        ≡ visited role (nodes.expression (expression_of tree.now)) (gathered_of found.old)) }
    ensures constant { IfOk result (λ constant.
        constant ≡ (before && is_constant (nodes.expression (expression_of tree.now)))) }
{
    let constant = expression(found, role, tree)?;
    Ok(before && constant)
}

/// Adds the roots in an expression.
#[cycle(walk)]
pub(super) fn value(found: &mut Gathered, role: Role, tree: &Expression) -> Result<(), AllocError>
    ensures { IfOk result (λ _. gathered_of found.new
        ≡ visited role (nodes.expression (expression_of tree.now)) (gathered_of found.old)) }
{
    expression(found, role, tree)?;
    Ok(())
}

/// Adds the roots in a place.
#[cycle(walk)]
pub(super) fn place(found: &mut Gathered, tree: &Place) -> Result<(), AllocError>
    ensures { IfOk result (λ _. gathered_of found.new
        ≡ visited Role.Plain (nodes.place (place_of tree.now))
        (gathered_of found.old)) }
{
    match tree {
        Place::Local { .. } | Place::Static { .. } => Ok(()),
        Place::Parameter { index, .. } => value(found, Role::Plain, index),
        Place::Item { array, index, .. } => {
            place(found, array)?;
            value(found, Role::Plain, index)
        }
        Place::Member {
            structure: whole,
            ..
        } => place(found, whole),
    }
}

/// Adds the roots in a structure.
#[cycle(walk)]
pub(super) fn structure(found: &mut Gathered, tree: &Structure) -> Result<(), AllocError>
    ensures { IfOk result (λ _. gathered_of found.new
        ≡ visited Role.Plain (nodes.structure (structure_of tree.now))
        (gathered_of found.old)) }
{
    match tree {
        Structure::Stored { place: object } => place(found, object),
        Structure::Returned { call: made } => call(found, made),
    }
}

/// Adds the roots in the arguments of a call.
#[cycle(walk)]
pub(super) fn call(found: &mut Gathered, tree: &FunctionCall) -> Result<(), AllocError>
    ensures { IfOk result (λ _. gathered_of found.new
        ≡ inside_parts (nodes.call_parts (call_of tree.now))
        (gathered_of found.old)) }
{
    arguments(found, call_parts(tree))
}

#[cycle(walk)]
fn argument(found: &mut Gathered, tree: &Argument) -> Result<(), AllocError>
    ensures { IfOk result (λ _. gathered_of found.new
        ≡ visited Role.Plain (nodes.argument (argument_of tree.now))
        (gathered_of found.old)) }
{
    match tree {
        Argument::Number { value: number } => value(found, Role::Plain, number),
        Argument::Structure { value, .. } => structure(found, value),
        Argument::Array { place: object, .. } => place(found, object),
        Argument::Again { .. } => Ok(()),
    }
}

#[cycle(walk)]
fn arguments(found: &mut Gathered, trees: &[Argument]) -> Result<(), AllocError>
    ensures { IfOk result (λ _. gathered_of found.new
        ≡ inside_parts (nodes.arguments (arguments_from (map argument_of trees.now)))
        (gathered_of found.old)) }
{
    for tree in trees {
        argument(found, tree)?;
    }
    Ok(())
}
