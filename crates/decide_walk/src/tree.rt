//! The tree of a decision, from its root.
ghost use Rattle.std.specs.Prelude.{◌≡◌, ◌+◌, ◌++◌, ◌∷◌, ◌≤◌, [], length, IfOk};
ghost use Rattle.mc_limits.specs.Limits.{most_conditions};
ghost use Rattle.mc_cond.specs.Tree.{tree_of, Leaf, Not};
ghost use Rattle.mc_typed.specs.Levels.{limited};
ghost use Rattle.mc_typed.specs.Views.{expression_of};
ghost use Rattle.decide_rules.specs.Nodes.{expression};
ghost use Rattle.decide_rules.specs.Conditions.{joined, tree_from, width};
ghost use Rattle.decide_rules.specs.steps.Walk.{spans};

use decide_rules::{FullOperator, Junction, full_operator};
use mc_cond::CondTree;
use mc_typed::{Expression, LogicOperator, Span};
use std::alloc::{AllocError, Global};

/// How many conditions the decision with this root has; 2^32 - 1 where there are more.
#[tactic(auto, unfolding(mc_typed::specs::Levels::limited))]
pub(crate) fn conditions(tree: &Expression) -> u32
    ensures { result ≡ limited (width (expression (expression_of tree.now))) }
{
    match tree {
        Expression::Not { operand, .. } | Expression::Probe { operand, .. } => conditions(operand),
        Expression::Logic { left, right, .. } => conditions(left).saturating_add(conditions(right)),
        Expression::Binary {
            operator,
            left,
            right,
            ..
        } => match full_operator(*operator, left, right) {
            Some(_) => conditions(left).saturating_add(conditions(right)),
            None => 1,
        },
        Expression::Constant { .. }
        | Expression::Read { .. }
        | Expression::Unary { .. }
        | Expression::Convert { .. }
        | Expression::Choice { .. }
        | Expression::Call { .. }
        | Expression::Input { .. } => 1,
    }
}

/// The tree of a decision or of a part of one, whose conditions go to the end of those that stand
/// before it. There are at most 64 together.
pub(crate) fn build(
    alloc: Global,
    tree: &Expression,
    before: &mut Vec<Span>,
) -> Result<CondTree, AllocError>
    requires { length before.old.items + width (expression (expression_of tree.now)) ≤ most_conditions }
    ensures tree { IfOk result (λ t. tree_of t
        ≡ tree_from (length before.old.items) (expression (expression_of tree.now))) }
    ensures count { IfOk result (λ _. length before.new.items
        ≡ length before.old.items + width (expression (expression_of tree.now))) }
    ensures spans { IfOk result (λ _. before.new.items
        ≡ before.old.items ++ spans (expression (expression_of tree.now))) }
{
    match tree {
        Expression::Not { operand, .. } => {
            let operand = build(alloc, operand, before)?;
            negate(alloc, operand)
        }
        Expression::Logic {
            operator,
            left,
            right,
            ..
        } => {
            let left = build(alloc, left, before)?;
            let right = build(alloc, right, before)?;
            join(alloc, Junction::Short(*operator), left, right)
        }
        Expression::Binary {
            operator,
            left,
            right,
            span,
            ..
        } => match full_operator(*operator, left, right) {
            Some(full) => {
                let left = build(alloc, left, before)?;
                let right = build(alloc, right, before)?;
                join(alloc, Junction::Full(full), left, right)
            }
            None => condition(*span, before),
        },
        Expression::Probe { operand, .. } => build(alloc, operand, before),
        Expression::Constant { .. }
        | Expression::Read { .. }
        | Expression::Unary { .. }
        | Expression::Convert { .. }
        | Expression::Choice { .. }
        | Expression::Call { .. }
        | Expression::Input { .. } => condition(tree.span(), before),
    }
}

fn negate(alloc: Global, operand: CondTree) -> Result<CondTree, AllocError>
    ensures { IfOk result (λ t. tree_of t ≡ Not (tree_of operand)) }
{
    let operand = Box::new(alloc, operand)?;
    Ok(CondTree::Not(operand))
}

fn join(
    alloc: Global,
    junction: Junction,
    left: CondTree,
    right: CondTree,
) -> Result<CondTree, AllocError>
    ensures { IfOk result (λ t. tree_of t ≡ joined junction (tree_of left) (tree_of right)) }
{
    let left = Box::new(alloc, left)?;
    let right = Box::new(alloc, right)?;
    match junction {
        Junction::Short(LogicOperator::And) => Ok(CondTree::And(left, right)),
        Junction::Short(LogicOperator::Or) => Ok(CondTree::Or(left, right)),
        Junction::Full(FullOperator::And) => Ok(CondTree::FullAnd(left, right)),
        Junction::Full(FullOperator::Or) => Ok(CondTree::FullOr(left, right)),
        Junction::Full(FullOperator::Xor) => Ok(CondTree::FullXor(left, right)),
    }
}

fn condition(span: Span, before: &mut Vec<Span>) -> Result<CondTree, AllocError>
    requires { length before.old.items ≤ most_conditions }
    ensures tree { IfOk result (λ t. tree_of t ≡ Leaf (length before.old.items)) }
    ensures count { IfOk result (λ _. length before.new.items ≡ length before.old.items + 1) }
    ensures spans { IfOk result (λ _. before.new.items ≡ before.old.items ++ span ∷ []) }
{
    let number = before.len() as u32;
    before.push(span)?;
    Ok(CondTree::Leaf(number))
}
