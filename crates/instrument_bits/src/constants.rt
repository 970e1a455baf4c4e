//! Integer constant expressions (C17 6.6).
ghost use Rattle.std.specs.Prelude.{◌≡◌};
ghost use Rattle.mc_typed.specs.Views.{expression_of};
ghost use Rattle.decide_rules.specs.Nodes.{expression};
ghost use Rattle.decide_rules.specs.Roots as roots;
ghost use Rattle.mc_steps.specs.Points as points;

use mc_typed::{Expression, constant_value};

/// Whether an expression is an integer constant expression: its operands are constants, and it has
/// no call.
pub(crate) fn is_constant(tree: &Expression) -> bool
    ensures node { result ≡ roots.is_constant (expression (expression_of tree.now)) }
    ensures point { result ≡ points.is_constant (expression_of tree.now) }
{
    match tree {
        Expression::Constant { .. } => true,
        Expression::Unary { operand, .. }
        | Expression::Convert { operand, .. }
        | Expression::Not { operand, .. }
        | Expression::Probe { operand, .. } => is_constant(operand),
        Expression::Binary { left, right, .. } => is_constant(left) && is_constant(right),
        Expression::Logic { left, right, .. } => is_constant(left) && is_constant(right),
        Expression::Choice {
            test,
            chosen,
            other,
            ..
        } => is_constant(test) && is_constant(chosen) && is_constant(other),
        Expression::Read { .. } | Expression::Call { .. } | Expression::Input { .. } => false,
    }
}

fn is_nonzero(value: Option<i128>) -> bool
    ensures { result ≡ points.is_nonzero value }
{
    match value {
        Some(value) => value != 0,
        None => false,
    }
}

/// Whether a controlling expression is a constant expression other than 0 without a trap.
pub(crate) fn is_always_true(tree: &Expression) -> bool
    ensures { result ≡ points.is_always_true (expression_of tree.now) }
{
    is_constant(tree) && is_nonzero(constant_value(tree))
}
