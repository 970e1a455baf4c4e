//! Every decision of so many conditions, with at most one NOT above each node, by a number.

ghost use Rattle.std.specs.Prelude.{◌≡◌, ℕ, ◌+◌, ◌<◌, ◌≤◌, IfOk};
ghost use Rattle.mc_cond.specs.Tree.{tree_of, size, IsNumberedFrom};

use mc_cond::CondTree;
use std::alloc::{AllocError, Global};

/// Choices, read from a number digit by digit.
#[derive(Drop)]
pub(crate) struct Choices {
    /// What is left of the number. Where it is not 0 in the end, another number says the same.
    pub left: u32,
}

impl Choices {
    pub(crate) fn new(number: u32) -> Self {
        Choices { left: number }
    }

    fn next(&mut self, among: u32) -> u32
        requires { 0 < among }
        ensures { result < among }
    {
        let choice = self.left % among;
        self.left /= among;
        choice
    }
}

fn negated_where(alloc: Global, negated: bool, operand: CondTree) -> Result<CondTree, AllocError>
    ensures first { (first : ℕ) → IsNumberedFrom first (tree_of operand)
        → IfOk result (λ t. IsNumberedFrom first (tree_of t)) }
    ensures size { IfOk result (λ t. size (tree_of t) ≡ size (tree_of operand)) }
{
    if negated {
        let operand = Box::new(alloc, operand)?;
        Ok(CondTree::Not(operand))
    } else {
        Ok(operand)
    }
}

/// Two operands under one of the five operators.
fn joined(
    alloc: Global,
    operator: u32,
    left: CondTree,
    right: CondTree,
) -> Result<CondTree, AllocError>
    ensures first { (first : ℕ) → IsNumberedFrom first (tree_of left)
        → IsNumberedFrom (first + size (tree_of left)) (tree_of right)
        → IfOk result (λ t. IsNumberedFrom first (tree_of t)) }
    ensures size { IfOk result (λ t.
        size (tree_of t) ≡ size (tree_of left) + size (tree_of right)) }
{
    let left = Box::new(alloc, left)?;
    let right = Box::new(alloc, right)?;
    match operator {
        0 => Ok(CondTree::And(left, right)),
        1 => Ok(CondTree::Or(left, right)),
        2 => Ok(CondTree::FullAnd(left, right)),
        3 => Ok(CondTree::FullOr(left, right)),
        _ => Ok(CondTree::FullXor(left, right)),
    }
}

/// The decision with so many conditions that the choices lead to.
pub(crate) fn chosen_tree(
    alloc: Global,
    choices: &mut Choices,
    first: u32,
    count: u32,
) -> Result<CondTree, AllocError>
    requires least { 1 ≤ count }
    requires most { first + count ≤ 64 }
    ensures numbered { IfOk result (λ t. IsNumberedFrom first (tree_of t)) }
    ensures size { IfOk result (λ t. size (tree_of t) ≡ count) }
{
    let negated = choices.next(2) == 1;
    if count == 1 {
        return negated_where(alloc, negated, CondTree::Leaf(first));
    }
    let operator = choices.next(5);
    let split = 1 + choices.next(count - 1);
    let left = chosen_tree(alloc, choices, first, split)?;
    let right = chosen_tree(alloc, choices, first + split, count - split)?;
    let node = joined(alloc, operator, left, right)?;
    negated_where(alloc, negated, node)
}
