//! The search in one decision.
ghost use Rattle.std.specs.Prelude.{◌≡◌};
ghost use Rattle.mc_typed.specs.Views.{expression_of};
ghost use Rattle.decide_rules.specs.Nodes as nodes;
ghost use Rattle.decide_rules.specs.Roots as roots;
ghost use Rattle.mc_mutate.specs.Mutants.{under};
ghost use Rattle.mc_mutate.specs.steps.Search as search;

use crate::changes::MutantKind;
use crate::search::sought::{Sought, pass};
use decide_rules::{FullOperator, Role, full_operator, is_boolean};
use instrument_bits::is_root_as_test;
use mc_typed::{Expression, Span};

/// Whether an expression that stands so in what is around it is the root of a decision.
pub(crate) fn is_root(role: Role, tree: &Expression) -> bool
    ensures { result ≡ roots.is_root role (nodes.expression (expression_of tree.now)) }
{
    match role {
        Role::Controlling => is_root_as_test(tree),
        Role::Inner => false,
        Role::Plain => instrument_bits::is_root(tree),
    }
}

/// How the operands of an operator stand that evaluates both of them.
pub(crate) fn under(full: Option<FullOperator>) -> Role
    ensures { result ≡ under full }
{
    match full {
        Some(_) => Role::Inner,
        None => Role::Plain,
    }
}

/// Goes on in the decision with this root, where the expression is one.
pub(super) fn own(sought: Sought, role: Role, tree: &Expression) -> Sought
    ensures { result ≡ search.own role (nodes.expression (expression_of tree.now)) sought }
{
    if is_root(role, tree) {
        in_decision(sought, tree)
    } else {
        sought
    }
}

/// Goes on in the decision with this root: in its nodes, and then in its conditions.
pub(crate) fn in_decision(sought: Sought, tree: &Expression) -> Sought
    ensures { result ≡ search.in_decision (nodes.expression (expression_of tree.now)) sought }
{
    in_conditions(in_nodes(sought, tree), tree)
}

/// Goes on in the nodes from this one down.
pub(crate) fn in_nodes(sought: Sought, tree: &Expression) -> Sought
    ensures { result ≡ search.in_nodes (nodes.expression (expression_of tree.now)) sought }
{
    match tree {
        Expression::Not { operand, .. } | Expression::Probe { operand, .. } => {
            in_nodes(sought, operand)
        }
        Expression::Logic {
            left,
            right,
            span,
            ..
        } => {
            let state = in_nodes(pass(sought, MutantKind::Exchanged, *span), left);
            in_nodes(state, right)
        }
        Expression::Binary {
            operator,
            left,
            right,
            span,
            ..
        } => match full_operator(*operator, left, right) {
            Some(_) => {
                let state = in_nodes(pass(sought, MutantKind::Exchanged, *span), left);
                in_nodes(state, right)
            }
            None => sought,
        },
        Expression::Constant { .. }
        | Expression::Read { .. }
        | Expression::Unary { .. }
        | Expression::Convert { .. }
        | Expression::Choice { .. }
        | Expression::Call { .. }
        | Expression::Input { .. } => sought,
    }
}

/// Goes on in the conditions from this node down.
fn in_conditions(sought: Sought, tree: &Expression) -> Sought
    ensures { result ≡ search.in_conditions (nodes.expression (expression_of tree.now)) sought }
{
    match tree {
        Expression::Not { operand, .. } | Expression::Probe { operand, .. } => {
            in_conditions(sought, operand)
        }
        Expression::Logic { left, right, .. } => {
            let state = in_conditions(sought, left);
            in_conditions(state, right)
        }
        Expression::Binary {
            operator,
            left,
            right,
            span,
            ..
        } => match full_operator(*operator, left, right) {
            Some(_) => {
                let state = in_conditions(sought, left);
                in_conditions(state, right)
            }
            None => in_condition(sought, is_boolean(tree), *span),
        },
        Expression::Constant { .. }
        | Expression::Read { .. }
        | Expression::Unary { .. }
        | Expression::Convert { .. }
        | Expression::Choice { .. }
        | Expression::Call { .. }
        | Expression::Input { .. } => in_condition(sought, is_boolean(tree), tree.span()),
    }
}

/// Goes on in a condition. `compares` says that its top operator is a relation or an equality.
pub(crate) fn in_condition(sought: Sought, compares: bool, span: Span) -> Sought
    ensures { result ≡ search.in_condition compares span sought }
{
    let state = pass(sought, MutantKind::Negated, span);
    let state = pass(state, MutantKind::FixedTrue, span);
    let state = pass(state, MutantKind::FixedFalse, span);
    if compares {
        pass(state, MutantKind::Shifted, span)
    } else {
        state
    }
}
