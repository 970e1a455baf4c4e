//! The search in statements.
ghost use Rattle.std.specs.Prelude.{◌≡◌, map, option_map};
ghost use Rattle.mc_typed.specs.Views.{effect_of, expression_of, return_value_of, start_of, statement_of, statements_from};
ghost use Rattle.decide_rules.specs.Nodes as nodes;
ghost use Rattle.mc_mutate.specs.steps.Search.{inside_parts, searched};

use crate::search::effects::{effect, effects};
use crate::search::expressions::{expression, structure};
use crate::search::initializers::declarators;
use crate::search::sought::Sought;
use decide_rules::Role;
use mc_typed::{Effect, Expression, ForStart, ReturnValue, Statement};

fn optional_test(sought: Sought, tree: &Option<Expression>) -> Sought
    ensures { result
        ≡ searched Role.Plain (nodes.optional_test (option_map expression_of tree.now)) sought }
{
    match tree {
        Some(test) => expression(sought, Role::Controlling, test),
        None => sought,
    }
}

fn start(sought: Sought, tree: &ForStart) -> Sought
    ensures { result ≡ searched Role.Plain (nodes.start (start_of tree.now)) sought }
{
    match tree {
        ForStart::Effects { effects: clauses } => effects(sought, clauses),
        ForStart::Declaration {
            declarators: declared,
        } => declarators(sought, declared),
    }
}

/// Goes on in the three parts of a `for` before its body.
fn parts(sought: Sought, first: &ForStart, test: &Option<Expression>, step: &[Effect]) -> Sought
    ensures { result
        ≡ inside_parts (nodes.effects (map effect_of step.now))
        (searched Role.Plain (nodes.optional_test (option_map expression_of test.now))
        (searched Role.Plain (nodes.start (start_of first.now)) sought)) }
{
    let state = start(sought, first);
    let state = optional_test(state, test);
    effects(state, step)
}

fn return_value(sought: Sought, tree: &ReturnValue) -> Sought
    ensures { result
        ≡ searched Role.Plain (nodes.return_value (return_value_of tree.now)) sought }
{
    match tree {
        ReturnValue::Nothing => sought,
        ReturnValue::Number { value } => expression(sought, Role::Plain, value),
        ReturnValue::Structure { value, .. } => structure(sought, value),
    }
}

/// Goes on in a statement.
#[cycle(statement)]
fn statement(sought: Sought, tree: &Statement) -> Sought
    ensures { result ≡ searched Role.Plain (nodes.statement (statement_of tree.now)) sought }
{
    match tree {
        Statement::Compound { items, .. } => statements(sought, items),
        Statement::Label { .. }
        | Statement::Null { .. }
        | Statement::Break { .. }
        | Statement::Continue { .. } => sought,
        Statement::Declaration {
            declarators: declared,
            ..
        } => declarators(sought, declared),
        Statement::Effect { effect: whole, .. } => effect(sought, whole),
        Statement::If { test, chosen, .. } => {
            let state = expression(sought, Role::Controlling, test);
            statement(state, chosen)
        }
        Statement::IfElse {
            test,
            chosen,
            other,
            ..
        } => {
            let state = expression(sought, Role::Controlling, test);
            let state = statement(state, chosen);
            statement(state, other)
        }
        Statement::Switch { value, items, .. } => {
            let state = expression(sought, Role::Plain, value);
            statements(state, items)
        }
        Statement::For {
            start: first,
            test,
            step,
            body,
            ..
        } => {
            let state = parts(sought, first, test, step);
            statement(state, body)
        }
        Statement::DoWhile { body, test, .. } => {
            let state = statement(sought, body);
            expression(state, Role::Controlling, test)
        }
        Statement::Return { value, .. } => return_value(sought, value),
    }
}

/// Goes on in the items of a body.
#[cycle(statement)]
pub(super) fn statements(sought: Sought, trees: &[Statement]) -> Sought
    ensures { result
        ≡ inside_parts (nodes.statements (statements_from (map statement_of trees.now))) sought }
{
    let mut state = sought;
    for tree in trees {
        state = statement(state, tree);
    }
    state
}
