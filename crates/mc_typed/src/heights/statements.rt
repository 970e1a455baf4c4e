//! The height of statements.
ghost use Rattle.std.specs.Prelude.{◌≡◌, map, option_map};
ghost use Rattle.mc_typed.specs.Levels.{height_statement, height_statements, height_optional, height_start, height_return, limited_more};
ghost use Rattle.mc_typed.specs.Views.{expression_of, start_of, return_value_of, statement_of, statements_from};

use crate::expressions::Expression;
use crate::heights::deeper;
use crate::heights::effects::{effect, effects};
use crate::heights::expressions::{expression, structure};
use crate::heights::initializers::declarators;
use crate::statements::{ForStart, ReturnValue, Statement};
use std::cmp::max;

fn optional(tree: &Option<Expression>) -> u32
    ensures { result ≡ height_optional limited_more (option_map expression_of tree.now) }
{
    match tree {
        Some(value) => expression(value),
        None => 0,
    }
}

fn for_start(tree: &ForStart) -> u32
    ensures { result ≡ height_start limited_more (start_of tree.now) }
{
    match tree {
        ForStart::Effects { effects: clauses } => effects(clauses),
        ForStart::Declaration {
            declarators: declared,
        } => deeper(declarators(declared)),
    }
}

fn return_value(tree: &ReturnValue) -> u32
    ensures { result ≡ height_return limited_more (return_value_of tree.now) }
{
    match tree {
        ReturnValue::Nothing => 0,
        ReturnValue::Number { value } => expression(value),
        ReturnValue::Structure { value, .. } => structure(value),
    }
}

#[cycle(statement)]
fn statement(tree: &Statement) -> u32
    ensures { result ≡ height_statement limited_more (statement_of tree.now) }
{
    match tree {
        Statement::Compound { items, .. } => deeper(statements(items)),
        Statement::Label { .. } => 0,
        Statement::Declaration {
            declarators: declared,
            ..
        } => deeper(declarators(declared)),
        Statement::Null { .. } | Statement::Break { .. } | Statement::Continue { .. } => 1,
        Statement::Effect { effect: whole, .. } => deeper(effect(whole)),
        Statement::If { test, chosen, .. } => deeper(max(expression(test), statement(chosen))),
        Statement::IfElse {
            test,
            chosen,
            other,
            ..
        } => deeper(max(expression(test), max(statement(chosen), statement(other)))),
        Statement::Switch { value, items, .. } => {
            deeper(max(expression(value), deeper(statements(items))))
        }
        Statement::For {
            start,
            test,
            step,
            body,
            ..
        } => {
            let head = max(for_start(start), max(optional(test), effects(step)));
            deeper(max(head, statement(body)))
        }
        Statement::DoWhile { body, test, .. } => deeper(max(statement(body), expression(test))),
        Statement::Return { value, .. } => deeper(return_value(value)),
    }
}

#[cycle(statement)]
pub(super) fn statements(trees: &[Statement]) -> u32
    ensures { result
        ≡ height_statements limited_more (statements_from (map statement_of trees.now)) }
{
    let mut tallest = 0;
    for tree in trees {
        tallest = max(tallest, statement(tree));
    }
    tallest
}
