//! The rooms that the numbers of a decision take, and what its conditions add to a number.

ghost use Rattle.std.specs.Prelude.{◌≡◌, ◌++◌, ◌&&◌, ◌||◌, IfOk};
ghost use Rattle.mc_limits.specs.Limits.{most_paths};
ghost use Rattle.mc_cond.specs.Tree.{tree_of, IsNumbered};
ghost use Rattle.mc_cond.specs.Vectors.{xor};
ghost use Rattle.mc_paths.specs.Paths.{room, false_edges, all_false, sum_along, count_of};
ghost use Rattle.mc_paths.specs.steps.Bounds.{AreWithin, AddAtMost};

use mc_cond::CondTree;
use std::alloc::AllocError;

/// The room that the numbers of a part of a decision take, where `after_true` and `after_false` are
/// the rooms of what comes after its two values.
pub(crate) fn room(tree: &CondTree, after_true: u128, after_false: u128) -> u128
    requires { AreWithin u128.MAX (tree_of tree.now) after_true after_false }
    ensures { result ≡ room (tree_of tree.now) after_true after_false }
{
    match tree {
        CondTree::Leaf(_) => after_true + after_false,
        CondTree::Not(operand) => room(operand, after_false, after_true),
        CondTree::And(left, right) => {
            let within = room(right, after_true, after_false);
            room(left, within, after_false)
        }
        CondTree::Or(left, right) => {
            let within = room(right, after_true, after_false);
            room(left, after_true, within)
        }
        CondTree::FullAnd(left, right) => {
            let within = room(right, after_true.max(after_false), after_false);
            room(left, within, within)
        }
        CondTree::FullOr(left, right) => {
            let within = room(right, after_true, after_true.max(after_false));
            room(left, within, within)
        }
        CondTree::FullXor(left, right) => {
            let greater = after_true.max(after_false);
            let within = room(right, greater, greater);
            room(left, within, within)
        }
    }
}

/// The evaluation of a part of a decision in which each condition that is evaluated is false.
#[derive(Clone, Copy)]
pub(crate) struct AllFalse {
    /// What its conditions add to a number.
    pub number: u128,
    /// The outcome of the part.
    pub outcome: bool,
}

/// Evaluates a part of a decision with each condition false.
pub(crate) fn all_false(tree: &CondTree, after_true: u128, after_false: u128) -> AllFalse
    requires { AreWithin u128.MAX (tree_of tree.now) after_true after_false }
    ensures number { result.number ≡ sum_along (all_false (tree_of tree.now)).answers
        (false_edges (tree_of tree.now) after_true after_false) }
    ensures outcome { result.outcome ≡ (all_false (tree_of tree.now)).outcome }
{
    match tree {
        CondTree::Leaf(_) => AllFalse {
            number: after_true,
            outcome: false,
        },
        CondTree::Not(operand) => {
            let inner = all_false(operand, after_false, after_true);
            AllFalse {
                number: inner.number,
                outcome: !inner.outcome,
            }
        }
        CondTree::And(left, right) => {
            let within = room(right, after_true, after_false);
            let first = all_false(left, within, after_false);
            if first.outcome {
                let second = all_false(right, after_true, after_false);
                AllFalse {
                    number: first.number + second.number,
                    outcome: second.outcome,
                }
            } else {
                first
            }
        }
        CondTree::Or(left, right) => {
            let within = room(right, after_true, after_false);
            let first = all_false(left, after_true, within);
            if first.outcome {
                first
            } else {
                let second = all_false(right, after_true, after_false);
                AllFalse {
                    number: first.number + second.number,
                    outcome: second.outcome,
                }
            }
        }
        CondTree::FullAnd(left, right) => {
            let greater = after_true.max(after_false);
            let within = room(right, greater, after_false);
            let first = all_false(left, within, within);
            let second = all_false(right, greater, after_false);
            AllFalse {
                number: first.number + second.number,
                outcome: both(first.outcome, second.outcome),
            }
        }
        CondTree::FullOr(left, right) => {
            let greater = after_true.max(after_false);
            let within = room(right, after_true, greater);
            let first = all_false(left, within, within);
            let second = all_false(right, after_true, greater);
            AllFalse {
                number: first.number + second.number,
                outcome: either(first.outcome, second.outcome),
            }
        }
        CondTree::FullXor(left, right) => {
            let greater = after_true.max(after_false);
            let within = room(right, greater, greater);
            let first = all_false(left, within, within);
            let second = all_false(right, greater, greater);
            AllFalse {
                number: first.number + second.number,
                outcome: one(first.outcome, second.outcome),
            }
        }
    }
}

/// Whether both are true.
fn both(first: bool, second: bool) -> bool
    ensures { result ≡ first && second }
{
    first && second
}

/// Whether one of them is true, or both.
fn either(first: bool, second: bool) -> bool
    ensures { result ≡ first || second }
{
    first || second
}

/// Whether one of them is true, and not both.
fn one(first: bool, second: bool) -> bool
    ensures { result ≡ xor first second }
{
    first != second
}

/// The count of a decision, also where it is too great.
pub(crate) fn count(tree: &CondTree) -> u128
    requires { IsNumbered (tree_of tree.now) }
    ensures { result ≡ count_of (tree_of tree.now) }
{
    all_false(tree, 1, 1).number + 1
}

/// Adds what the false edge of each condition of a part of a decision adds to a path's number.
pub(crate) fn add_false_edges(
    tree: &CondTree,
    after_true: u128,
    after_false: u128,
    on_false: &mut Vec<u32>,
) -> Result<(), AllocError>
    requires rooms { AreWithin u128.MAX (tree_of tree.now) after_true after_false }
    requires edges { AddAtMost most_paths (tree_of tree.now) after_true after_false }
    ensures { IfOk result (λ _. on_false.new.items
        ≡ on_false.old.items ++ false_edges (tree_of tree.now) after_true after_false) }
{
    match tree {
        CondTree::Leaf(_) => {
            on_false.push(after_true as u32)?;
            Ok(())
        }
        CondTree::Not(operand) => add_false_edges(operand, after_false, after_true, on_false),
        CondTree::And(left, right) => {
            let within = room(right, after_true, after_false);
            add_false_edges(left, within, after_false, on_false)?;
            add_false_edges(right, after_true, after_false, on_false)
        }
        CondTree::Or(left, right) => {
            let within = room(right, after_true, after_false);
            add_false_edges(left, after_true, within, on_false)?;
            add_false_edges(right, after_true, after_false, on_false)
        }
        CondTree::FullAnd(left, right) => {
            let greater = after_true.max(after_false);
            let within = room(right, greater, after_false);
            add_false_edges(left, within, within, on_false)?;
            add_false_edges(right, greater, after_false, on_false)
        }
        CondTree::FullOr(left, right) => {
            let greater = after_true.max(after_false);
            let within = room(right, after_true, greater);
            add_false_edges(left, within, within, on_false)?;
            add_false_edges(right, after_true, greater, on_false)
        }
        CondTree::FullXor(left, right) => {
            let greater = after_true.max(after_false);
            let within = room(right, greater, greater);
            add_false_edges(left, within, within, on_false)?;
            add_false_edges(right, greater, greater, on_false)
        }
    }
}
