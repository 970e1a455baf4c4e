//! Following a path by its number.

ghost use Rattle.std.specs.Prelude.{◌≡◌, ◌+◌, ◌≤◌, ◌++◌, length, IfSome, IfNone};
ghost use Rattle.mc_cond.specs.Tree.{tree_of, size, IsNumbered, AreBelow};
ghost use Rattle.mc_paths.specs.Paths.{increments, IsPath, IsInUse};
ghost use Rattle.mc_paths.specs.steps.Descent.{descent};

use mc_cond::{Answers, CondTree, Vector, conditions_in};

/// The vector of a path, or nothing where no vector has its number.
pub(crate) fn vector_at(tree: &CondTree, on_false: &[u32], path: u32) -> Option<Vector>
    requires numbered { IsNumbered (tree_of tree.now) }
    requires edges { on_false.now ≡ increments (tree_of tree.now) }
    ensures found { IfSome result (λ v. IsPath (tree_of tree.now) path v) }
    ensures idle { IfNone result (IsInUse (tree_of tree.now) path → ⊥) }
{
    let mut seen = Answers::new();
    let mut left = path;
    let outcome = follow(tree, on_false, &mut left, &mut seen);
    if left == 0 {
        Some(Vector::new(seen, outcome))
    } else {
        None
    }
}

/// Follows the path with number `left` through a part of a decision: adds the answers of its
/// conditions to those seen, takes what they add off the number, and gives the outcome of the part.
fn follow(tree: &CondTree, on_false: &[u32], left: &mut u32, seen: &mut Answers) -> bool
    requires below { AreBelow (length on_false.now) (tree_of tree.now) }
    requires few { length seen.old + size (tree_of tree.now) ≤ 64 }
    ensures outcome { result ≡ (descent (tree_of tree.now) on_false.now left.old).outcome }
    ensures seen { seen.new
        ≡ seen.old ++ (descent (tree_of tree.now) on_false.now left.old).answers }
    ensures left { left.new ≡ (descent (tree_of tree.now) on_false.now left.old).left }
    ensures passed { length seen.new ≡ length seen.old + size (tree_of tree.now) }
{
    match tree {
        CondTree::Leaf(k) => {
            let edge = on_false[*k as usize];
            let answer = *left < edge;
            if !answer {
                *left -= edge;
            }
            seen.push(Some(answer));
            answer
        }
        CondTree::Not(operand) => !follow(operand, on_false, left, seen),
        CondTree::And(first, second) => {
            if follow(first, on_false, left, seen) {
                follow(second, on_false, left, seen)
            } else {
                seen.skip(conditions_in(second));
                false
            }
        }
        CondTree::Or(first, second) => {
            if follow(first, on_false, left, seen) {
                seen.skip(conditions_in(second));
                true
            } else {
                follow(second, on_false, left, seen)
            }
        }
        CondTree::FullAnd(first, second) => {
            let one = follow(first, on_false, left, seen);
            let other = follow(second, on_false, left, seen);
            one && other
        }
        CondTree::FullOr(first, second) => {
            let one = follow(first, on_false, left, seen);
            let other = follow(second, on_false, left, seen);
            one || other
        }
        CondTree::FullXor(first, second) => {
            let here = follow(first, on_false, left, seen);
            let there = follow(second, on_false, left, seen);
            if here { !there } else { there }
        }
    }
}
