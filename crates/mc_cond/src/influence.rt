//! Which conditions can change the outcome of an evaluation.

ghost use Rattle.std.specs.Prelude.{◌≡◌, ℕ, ◌<◌, ◌≤◌, ◌↔◌, if◌then◌else◌, Bool, true, ◌&&◌, length};
ghost use Rattle.std.specs.Int.{bit_at};
ghost use Rattle.mc_cond.specs.Tree.{tree_of, IsNumbered, AreBelow};
ghost use Rattle.mc_cond.specs.Vectors.{IsVector, truth_of};
ghost use Rattle.mc_cond.specs.Influence.{HasInfluence};
ghost use Rattle.mc_cond.specs.steps.Reach.{reaches, shown_where, shown_both, filled};

use crate::tree::{CondTree, differ};
use crate::vector::Vector;

/// The conditions with influence on the outcome of a vector: bit k is set exactly where some
/// completion of the vector changes its outcome when condition k alone is flipped.
pub fn influence_on(tree: &CondTree, vector: &Vector) -> u64
    requires tree { IsNumbered (tree_of tree.now) }
    requires vector { IsVector (tree_of tree.now) vector.now }
    ensures { (k : ℕ) → ((bit_at result k ≡ 1) ↔ HasInfluence (tree_of tree.now) k vector.now) }
{
    effect_of(tree, vector).influence
}

/// What a part of a decision gives in a vector in which it is evaluated.
#[derive(Clone, Copy)]
struct Effect {
    outcome: bool,
    /// Bit k is set where a flip of condition k can change the outcome.
    influence: u64,
}

fn effect_of(tree: &CondTree, vector: &Vector) -> Effect
    requires below { AreBelow (length vector.now.answers) (tree_of tree.now) }
    requires few { length vector.now.answers ≤ 64 }
    ensures outcome { result.outcome ≡ truth_of (tree_of tree.now) (filled vector.now) }
    ensures influence { (k : ℕ) → bit_at result.influence k
        ≡ (if reaches (tree_of tree.now) (filled vector.now) k then 1 else 0) }
{
    match tree {
        CondTree::Leaf(k) => Effect {
            outcome: vector.answer(*k) == Some(true),
            influence: 1 << *k,
        },
        CondTree::Not(operand) => {
            let inner = effect_of(operand, vector);
            Effect {
                outcome: !inner.outcome,
                influence: inner.influence,
            }
        }
        CondTree::And(left, right) => {
            let first = effect_of(left, vector);
            if first.outcome {
                let second = effect_of(right, vector);
                followed_by(first, second, second.outcome)
            } else {
                first
            }
        }
        CondTree::Or(left, right) => {
            let first = effect_of(left, vector);
            if first.outcome {
                first
            } else {
                let second = effect_of(right, vector);
                followed_by(first, second, !second.outcome)
            }
        }
        CondTree::FullAnd(left, right) => {
            let first = effect_of(left, vector);
            let second = effect_of(right, vector);
            Effect {
                outcome: first.outcome && second.outcome,
                influence: beside(first, second, second.outcome, first.outcome),
            }
        }
        CondTree::FullOr(left, right) => {
            let first = effect_of(left, vector);
            let second = effect_of(right, vector);
            Effect {
                outcome: first.outcome || second.outcome,
                influence: beside(first, second, !second.outcome, !first.outcome),
            }
        }
        CondTree::FullXor(left, right) => {
            let first = effect_of(left, vector);
            let second = effect_of(right, vector);
            Effect {
                outcome: differ(first.outcome, second.outcome),
                influence: beside(first, second, true, true),
            }
        }
    }
}

/// Both operands are evaluated. The second masks the first unless it has the value that lets a
/// change through.
fn followed_by(first: Effect, second: Effect, lets_through: bool) -> Effect
    ensures outcome { result.outcome ≡ second.outcome }
    ensures influence { (k : ℕ) (x y : Bool) → bit_at first.influence k ≡ (if x then 1 else 0)
        → bit_at second.influence k ≡ (if y then 1 else 0)
        → bit_at result.influence k ≡ (if shown_where true lets_through x y then 1 else 0) }
{
    if lets_through {
        Effect {
            outcome: second.outcome,
            influence: first.influence | second.influence,
        }
    } else {
        second
    }
}

/// The influence under an operator that is evaluated in full. Each operand masks the other unless
/// it has the value that lets a change through.
fn beside(first: Effect, second: Effect, shows_first: bool, shows_second: bool) -> u64
    ensures { (k : ℕ) (x y : Bool) → bit_at first.influence k ≡ (if x then 1 else 0)
        → bit_at second.influence k ≡ (if y then 1 else 0)
        → bit_at result k ≡ (if shown_both shows_first shows_second x y then 1 else 0) }
{
    shown(first.influence, shows_first) | shown(second.influence, shows_second)
}

/// The mask, or none of it.
fn shown(mask: u64, shows: bool) -> u64
    ensures { (k : ℕ) (x : Bool) → bit_at mask k ≡ (if x then 1 else 0)
        → bit_at result k ≡ (if shows && x then 1 else 0) }
{
    if shows { mask } else { 0 }
}
