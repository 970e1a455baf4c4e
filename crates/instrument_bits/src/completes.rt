//! Which bodies can complete, which declarations initialize something, and which `switch` has a
//! `default`.
ghost use Rattle.std.specs.Prelude.{◌≡◌, map, option_map, is_some};
ghost use Rattle.mc_typed.specs.Views.{declarator_of, expression_of, statement_of, statements_from};
ghost use Rattle.mc_steps.specs.Points as points;
ghost use Rattle.instrument_bits.specs.steps.Completes as completing;

use crate::constants::is_always_true;
use mc_typed::{Declarator, Expression, Statement};

fn has_value(tree: &Declarator) -> bool
    ensures { result ≡ is_some (declarator_of tree.now).value }
{
    match &tree.value {
        Some(_) => true,
        None => false,
    }
}

/// Whether a declaration initializes something.
pub(crate) fn initializes(declarators: &[Declarator]) -> bool
    ensures { result ≡ points.initializes (map declarator_of declarators.now) }
{
    for declarator in declarators {
        if has_value(declarator) {
            return true;
        }
    }
    false
}

fn is_default(tree: &Statement) -> bool
    ensures { result ≡ completing.is_default (statement_of tree.now) }
{
    match tree {
        Statement::Label { value: None, .. } => true,
        Statement::Label { value: Some(_), .. } => false,
        Statement::Compound { .. }
        | Statement::Declaration { .. }
        | Statement::Null { .. }
        | Statement::Effect { .. }
        | Statement::If { .. }
        | Statement::IfElse { .. }
        | Statement::Switch { .. }
        | Statement::For { .. }
        | Statement::DoWhile { .. }
        | Statement::Break { .. }
        | Statement::Continue { .. }
        | Statement::Return { .. } => false,
    }
}

/// Whether the body of a `switch` has a `default`.
pub(crate) fn has_default(items: &[Statement]) -> bool
    ensures { result ≡ points.has_default (statements_from (map statement_of items.now)) }
{
    for item in items {
        if is_default(item) {
            return true;
        }
    }
    false
}

/// Whether a `break` in a statement belongs to the statement around it.
#[cycle(breaks)]
fn breaks(tree: &Statement) -> bool
    ensures { result ≡ points.breaks (statement_of tree.now) }
{
    match tree {
        Statement::Compound { items, .. } => some_breaks(items),
        Statement::If { chosen, .. } => breaks(chosen),
        Statement::IfElse { chosen, other, .. } => breaks(chosen) || breaks(other),
        Statement::Break { .. } => true,
        Statement::Label { .. }
        | Statement::Declaration { .. }
        | Statement::Null { .. }
        | Statement::Effect { .. }
        | Statement::Switch { .. }
        | Statement::For { .. }
        | Statement::DoWhile { .. }
        | Statement::Continue { .. }
        | Statement::Return { .. } => false,
    }
}

#[cycle(breaks)]
fn some_breaks(trees: &[Statement]) -> bool
    ensures { result ≡ points.some_breaks (statements_from (map statement_of trees.now)) }
{
    for tree in trees {
        if breaks(tree) {
            return true;
        }
    }
    false
}

/// Whether a controlling expression is absent, or a constant other than 0.
fn is_always(test: &Option<Expression>) -> bool
    ensures { result ≡ points.is_always (option_map expression_of test.now) }
{
    match test {
        Some(test) => is_always_true(test),
        None => true,
    }
}

/// Whether the end of a statement can be reached, by its form alone (C17 6.8).
#[cycle(completes)]
fn completes(tree: &Statement) -> bool
    ensures { result ≡ points.completes (statement_of tree.now) }
{
    match tree {
        Statement::Compound { items, .. } => all_complete(items),
        Statement::IfElse { chosen, other, .. } => completes(chosen) || completes(other),
        Statement::Switch { items, .. } => {
            !has_default(items) || some_breaks(items) || last_completes(items)
        }
        Statement::For { test, body, .. } => !is_always(test) || breaks(body),
        Statement::DoWhile { body, test, .. } => !is_always_true(test) || breaks(body),
        Statement::Break { .. } | Statement::Continue { .. } | Statement::Return { .. } => false,
        Statement::Label { .. }
        | Statement::Declaration { .. }
        | Statement::Null { .. }
        | Statement::Effect { .. }
        | Statement::If { .. } => true,
    }
}

/// Whether each item of a body completes.
#[cycle(completes)]
pub(crate) fn all_complete(trees: &[Statement]) -> bool
    ensures { result ≡ points.all_complete (statements_from (map statement_of trees.now)) }
{
    for tree in trees {
        if !completes(tree) {
            return false;
        }
    }
    true
}

/// Whether the last item of a `switch` completes.
#[cycle(completes)]
#[tactic(auto, using(crate::proofs::Last::last_item))]
fn last_completes(trees: &[Statement]) -> bool
    ensures { result ≡ points.last_completes (statements_from (map statement_of trees.now)) }
{
    match trees.last() {
        Some(tree) => completes(tree),
        None => true,
    }
}
