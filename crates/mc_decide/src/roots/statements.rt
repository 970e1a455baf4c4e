//! Roots in statements.
ghost use Rattle.std.specs.Prelude.{◌≡◌, map, option_map, IfOk};
ghost use Rattle.mc_typed.specs.Views.{effect_of, expression_of, return_value_of, start_of, statement_of, statements_from};
ghost use Rattle.decide_rules.specs.Nodes as nodes;
ghost use Rattle.decide_walk.specs.steps.Gathering.{gathered_of, inside_parts, visited};

use crate::roots::effects::{effect, effects};
use crate::roots::expressions::{structure, value};
use crate::roots::initializers::declarators;
use decide_rules::Role;
use decide_walk::Gathered;
use mc_typed::{Effect, Expression, ForStart, ReturnValue, Statement};
use std::alloc::AllocError;

fn optional_test(found: &mut Gathered, tree: &Option<Expression>) -> Result<(), AllocError>
    ensures { IfOk result (λ _. gathered_of found.new
        ≡ visited Role.Plain (nodes.optional_test (option_map expression_of tree.now))
        (gathered_of found.old)) }
{
    match tree {
        Some(test) => value(found, Role::Controlling, test),
        None => Ok(()),
    }
}

fn start(found: &mut Gathered, tree: &ForStart) -> Result<(), AllocError>
    ensures { IfOk result (λ _. gathered_of found.new
        ≡ visited Role.Plain (nodes.start (start_of tree.now)) (gathered_of found.old)) }
{
    match tree {
        ForStart::Effects { effects: clauses } => effects(found, clauses),
        ForStart::Declaration {
            declarators: declared,
        } => declarators(found, declared),
    }
}

/// Adds the roots in the three parts of a `for` before its body.
fn parts(
    found: &mut Gathered,
    first: &ForStart,
    test: &Option<Expression>,
    step: &[Effect],
) -> Result<(), AllocError>
    ensures { IfOk result (λ _. gathered_of found.new
        ≡ inside_parts (nodes.effects (map effect_of step.now))
        (visited Role.Plain (nodes.optional_test (option_map expression_of test.now))
        (visited Role.Plain (nodes.start (start_of first.now)) (gathered_of found.old)))) }
{
    start(found, first)?;
    optional_test(found, test)?;
    effects(found, step)
}

fn return_value(found: &mut Gathered, tree: &ReturnValue) -> Result<(), AllocError>
    ensures { IfOk result (λ _. gathered_of found.new
        ≡ visited Role.Plain (nodes.return_value (return_value_of tree.now))
        (gathered_of found.old)) }
{
    match tree {
        ReturnValue::Nothing => Ok(()),
        ReturnValue::Number { value: number } => value(found, Role::Plain, number),
        ReturnValue::Structure { value: whole, .. } => structure(found, whole),
    }
}

/// Adds the roots in a statement.
#[cycle(statement)]
fn statement(found: &mut Gathered, tree: &Statement) -> Result<(), AllocError>
    ensures { IfOk result (λ _. gathered_of found.new
        ≡ visited Role.Plain (nodes.statement (statement_of tree.now)) (gathered_of found.old)) }
{
    match tree {
        Statement::Compound { items, .. } => statements(found, items),
        Statement::Label { .. }
        | Statement::Null { .. }
        | Statement::Break { .. }
        | Statement::Continue { .. } => Ok(()),
        Statement::Declaration {
            declarators: declared,
            ..
        } => declarators(found, declared),
        Statement::Effect { effect: whole, .. } => effect(found, whole),
        Statement::If { test, chosen, .. } => {
            value(found, Role::Controlling, test)?;
            statement(found, chosen)
        }
        Statement::IfElse {
            test,
            chosen,
            other,
            ..
        } => {
            value(found, Role::Controlling, test)?;
            statement(found, chosen)?;
            statement(found, other)
        }
        Statement::Switch {
            value: number,
            items,
            ..
        } => {
            value(found, Role::Plain, number)?;
            statements(found, items)
        }
        Statement::For {
            start: first,
            test,
            step,
            body,
            ..
        } => {
            parts(found, first, test, step)?;
            statement(found, body)
        }
        Statement::DoWhile { body, test, .. } => {
            statement(found, body)?;
            value(found, Role::Controlling, test)
        }
        Statement::Return { value: what, .. } => return_value(found, what),
    }
}

/// Adds the roots in the items of a body.
#[cycle(statement)]
pub(super) fn statements(found: &mut Gathered, trees: &[Statement]) -> Result<(), AllocError>
    ensures { IfOk result (λ _. gathered_of found.new
        ≡ inside_parts (nodes.statements (statements_from (map statement_of trees.now)))
        (gathered_of found.old)) }
{
    for tree in trees {
        statement(found, tree)?;
    }
    Ok(())
}
