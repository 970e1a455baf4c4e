//! Copies of decisions, with their chains of NOT and without.

ghost use Rattle.std.specs.Prelude.{◌≡◌, IfOk};
ghost use Rattle.mc_cond.specs.Tree.{Tree, tree_of};
ghost use Rattle.mc_paths.specs.steps.Same.{AreSame, turned_where};

use mc_cond::CondTree;
use std::alloc::{AllocError, Global};

/// A copy of a tree.
pub(crate) fn copied(alloc: Global, tree: &CondTree) -> Result<CondTree, AllocError>
    ensures { IfOk result (λ t. tree_of t ≡ tree_of tree.now) }
{
    match tree {
        CondTree::Leaf(k) => Ok(CondTree::Leaf(*k)),
        CondTree::Not(operand) => {
            let operand = Box::new(alloc, copied(alloc, operand)?)?;
            Ok(CondTree::Not(operand))
        }
        CondTree::And(left, right) => {
            let left = Box::new(alloc, copied(alloc, left)?)?;
            let right = Box::new(alloc, copied(alloc, right)?)?;
            Ok(CondTree::And(left, right))
        }
        CondTree::Or(left, right) => {
            let left = Box::new(alloc, copied(alloc, left)?)?;
            let right = Box::new(alloc, copied(alloc, right)?)?;
            Ok(CondTree::Or(left, right))
        }
        CondTree::FullAnd(left, right) => {
            let left = Box::new(alloc, copied(alloc, left)?)?;
            let right = Box::new(alloc, copied(alloc, right)?)?;
            Ok(CondTree::FullAnd(left, right))
        }
        CondTree::FullOr(left, right) => {
            let left = Box::new(alloc, copied(alloc, left)?)?;
            let right = Box::new(alloc, copied(alloc, right)?)?;
            Ok(CondTree::FullOr(left, right))
        }
        CondTree::FullXor(left, right) => {
            let left = Box::new(alloc, copied(alloc, left)?)?;
            let right = Box::new(alloc, copied(alloc, right)?)?;
            Ok(CondTree::FullXor(left, right))
        }
    }
}

/// The same decision with at most one NOT above each node, negated where `negated` says so. To
/// follow a path takes the time of its conditions then, however many NOTs there are.
#[tactic(auto, using(crate::proofs::Simplifying::same_self, crate::proofs::Simplifying::same_past, crate::proofs::Simplifying::same_and, crate::proofs::Simplifying::same_or))]
pub(crate) fn simplified(
    alloc: Global,
    tree: &CondTree,
    negated: bool,
) -> Result<CondTree, AllocError>
    ensures { IfOk result (λ t. AreSame (tree_of t) (turned_where negated (tree_of tree.now))) }
{
    match tree {
        CondTree::Leaf(k) => turned(alloc, CondTree::Leaf(*k), negated),
        CondTree::Not(operand) => simplified(alloc, operand, !negated),
        CondTree::And(left, right) => {
            let left = Box::new(alloc, simplified(alloc, left, false)?)?;
            let right = Box::new(alloc, simplified(alloc, right, false)?)?;
            turned(alloc, CondTree::And(left, right), negated)
        }
        CondTree::Or(left, right) => {
            let left = Box::new(alloc, simplified(alloc, left, false)?)?;
            let right = Box::new(alloc, simplified(alloc, right, false)?)?;
            turned(alloc, CondTree::Or(left, right), negated)
        }
        CondTree::FullAnd(left, right) => {
            let left = Box::new(alloc, simplified(alloc, left, false)?)?;
            let right = Box::new(alloc, simplified(alloc, right, false)?)?;
            turned(alloc, CondTree::FullAnd(left, right), negated)
        }
        CondTree::FullOr(left, right) => {
            let left = Box::new(alloc, simplified(alloc, left, false)?)?;
            let right = Box::new(alloc, simplified(alloc, right, false)?)?;
            turned(alloc, CondTree::FullOr(left, right), negated)
        }
        CondTree::FullXor(left, right) => {
            let left = Box::new(alloc, simplified(alloc, left, false)?)?;
            let right = Box::new(alloc, simplified(alloc, right, false)?)?;
            turned(alloc, CondTree::FullXor(left, right), negated)
        }
    }
}

/// The tree, under a NOT where `negated` says so.
#[tactic(auto, using(crate::proofs::Simplifying::same_not))]
fn turned(alloc: Global, tree: CondTree, negated: bool) -> Result<CondTree, AllocError>
    ensures { (t : Tree) → AreSame (tree_of tree) t
        → IfOk result (λ r. AreSame (tree_of r) (turned_where negated t)) }
{
    if negated {
        let operand = Box::new(alloc, tree)?;
        Ok(CondTree::Not(operand))
    } else {
        Ok(tree)
    }
}
