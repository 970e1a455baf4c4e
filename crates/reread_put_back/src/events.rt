//! Which declarations initialize something, and which `switch` has a `default`.
ghost use Rattle.std.specs.Prelude.{◌≡◌, map, is_some};
ghost use Rattle.mc_typed.specs.Views.{declarator_of, statement_of, statements_from};
ghost use Rattle.mc_steps.specs.Points as points;
ghost use Rattle.reread_put_back.specs.steps.Events as events;

use mc_typed::{Declarator, Statement};

fn has_value(tree: &Declarator) -> bool
    ensures { result ≡ is_some (declarator_of tree.now).value }
{
    match &tree.value {
        Some(_) => true,
        None => false,
    }
}

/// Whether a declaration initializes something.
pub(crate) fn initializes(declarators: &[Declarator]) -> bool
    ensures { result ≡ points.initializes (map declarator_of declarators.now) }
{
    for declarator in declarators {
        if has_value(declarator) {
            return true;
        }
    }
    false
}

fn is_default(tree: &Statement) -> bool
    ensures { result ≡ events.is_default (statement_of tree.now) }
{
    match tree {
        Statement::Label { value: None, .. } => true,
        Statement::Label { value: Some(_), .. } => false,
        Statement::Compound { .. }
        | Statement::Declaration { .. }
        | Statement::Null { .. }
        | Statement::Effect { .. }
        | Statement::If { .. }
        | Statement::IfElse { .. }
        | Statement::Switch { .. }
        | Statement::For { .. }
        | Statement::DoWhile { .. }
        | Statement::Break { .. }
        | Statement::Continue { .. }
        | Statement::Return { .. } => false,
    }
}

/// Whether the body of a `switch` has a `default`.
pub(crate) fn has_default(items: &[Statement]) -> bool
    ensures { result ≡ points.has_default (statements_from (map statement_of items.now)) }
{
    for item in items {
        if is_default(item) {
            return true;
        }
    }
    false
}
