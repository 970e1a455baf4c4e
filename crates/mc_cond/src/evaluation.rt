//! Evaluation of a decision.

ghost use Rattle.std.specs.Prelude.{◌≡◌, ◌+◌, ◌≤◌, ◌++◌, length};
ghost use Rattle.mc_cond.specs.Tree.{tree_of, size, IsNumbered, IsNumberedFrom};
ghost use Rattle.mc_cond.specs.Vectors.{evaluated, row_of};

use crate::answers::Answers;
use crate::tree::{CondTree, conditions_in, differ};
use crate::vector::Vector;

/// Evaluates a decision whose conditions have these answers, condition 0 first (C17 6.5.10 to
/// 6.5.14).
pub fn walk(tree: &CondTree, answers: &[bool]) -> Vector
    requires tree { IsNumbered (tree_of tree.now) }
    requires answers { length answers.now ≡ size (tree_of tree.now) }
    ensures { result ≡ evaluated (tree_of tree.now) (row_of answers.now) }
{
    let mut seen = Answers::new();
    let outcome = evaluate(tree, answers, &mut seen);
    Vector::new(seen, outcome)
}

/// Evaluates the part of a decision that stands after the conditions seen, and adds its answers to
/// these.
fn evaluate(tree: &CondTree, answers: &[bool], seen: &mut Answers) -> bool
    requires tree { IsNumberedFrom (length seen.old) (tree_of tree.now) }
    requires answers { length seen.old + size (tree_of tree.now) ≤ length answers.now }
    requires few { length answers.now ≤ 64 }
    ensures outcome { result ≡ (evaluated (tree_of tree.now) (row_of answers.now)).outcome }
    ensures seen { seen.new
        ≡ seen.old ++ (evaluated (tree_of tree.now) (row_of answers.now)).answers }
    ensures passed { length seen.new ≡ length seen.old + size (tree_of tree.now) }
{
    match tree {
        CondTree::Leaf(k) => {
            let answer = answers[*k as usize];
            seen.push(Some(answer));
            answer
        }
        CondTree::Not(operand) => !evaluate(operand, answers, seen),
        CondTree::And(left, right) => {
            let needed = evaluate(left, answers, seen);
            if needed {
                evaluate(right, answers, seen)
            } else {
                seen.skip(conditions_in(right));
                false
            }
        }
        CondTree::Or(left, right) => {
            let settled = evaluate(left, answers, seen);
            if settled {
                seen.skip(conditions_in(right));
                true
            } else {
                evaluate(right, answers, seen)
            }
        }
        CondTree::FullAnd(left, right) => {
            let first = evaluate(left, answers, seen);
            let second = evaluate(right, answers, seen);
            first && second
        }
        CondTree::FullOr(left, right) => {
            let first = evaluate(left, answers, seen);
            let second = evaluate(right, answers, seen);
            first || second
        }
        CondTree::FullXor(left, right) => {
            let one = evaluate(left, answers, seen);
            let other = evaluate(right, answers, seen);
            differ(one, other)
        }
    }
}
