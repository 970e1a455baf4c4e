//! Vectors as words of 64 bits, and their outcomes.

ghost use Rattle.std.specs.Prelude.{◌≡◌, ℕ, ◌<◌, ◌≤◌, ◌↔◌, ◌⊎◌, IsTrue, IfOk};
ghost use Rattle.std.specs.Int.{bit_at};
ghost use Rattle.mc_cond.specs.Tree.{tree_of, IsNumbered};
ghost use Rattle.mc_cond.specs.Vectors.{IsVector};
ghost use Rattle.mc_paths.specs.Paths.{increments};
ghost use Rattle.mc_paths.specs.steps.Masked.{AreMasks, IsEntry, AreMasked};

use crate::descent::vector_at;
use mc_cond::{CondTree, Vector, influence_on};
use std::alloc::{AllocError, Global};

/// A vector as words, of which bit k speaks of condition k, and its outcome.
#[derive(Clone, Copy)]
pub(crate) struct Masks {
    /// Set where the condition is evaluated.
    pub evaluated: u64,
    /// Set where it is evaluated and true.
    pub value: u64,
    /// Set where it has influence on the outcome.
    pub influence: u64,
    /// What the decision comes to.
    pub outcome: bool,
}

/// The words of each path in use, in the order of the numbers.
#[tactic(auto, using(crate::proofs::Masking::none_masked))]
pub(crate) fn all_masks(
    alloc: Global,
    tree: &CondTree,
    on_false: &[u32],
    count: u32,
) -> Result<Vec<Option<Masks>>, AllocError>
    requires numbered { IsNumbered (tree_of tree.now) }
    requires edges { on_false.now ≡ increments (tree_of tree.now) }
    ensures { IfOk result (λ m. AreMasked (tree_of tree.now) count m.items) }
{
    let mut masks = Vec::new(alloc);
    for path in 0..count {
        masks.push(masks_at(tree, on_false, path))?;
    }
    Ok(masks)
}

/// The words of a path, or nothing where it is idle.
fn masks_at(tree: &CondTree, on_false: &[u32], path: u32) -> Option<Masks>
    requires numbered { IsNumbered (tree_of tree.now) }
    requires edges { on_false.now ≡ increments (tree_of tree.now) }
    ensures { IsEntry (tree_of tree.now) path result }
{
    match vector_at(tree, on_false, path) {
        Some(vector) => Some(masks_of(tree, &vector)),
        None => None,
    }
}

/// The words of a vector of the decision.
fn masks_of(tree: &CondTree, vector: &Vector) -> Masks
    requires tree { IsNumbered (tree_of tree.now) }
    requires vector { IsVector (tree_of tree.now) vector.now }
    ensures { AreMasks (tree_of tree.now) vector.now result }
{
    let mut evaluated = 0;
    let mut value = 0;
    for k in 0..vector.len() {
        let answer = vector.answer(k);
        evaluated = with_bit(evaluated, k, answer.is_some());
        value = with_bit(value, k, answer == Some(true));
    }
    Masks {
        evaluated,
        value,
        influence: influence_on(tree, vector),
        outcome: vector.outcome(),
    }
}

/// The word, with bit `k` set too where `set` says so.
fn with_bit(word: u64, k: u32, set: bool) -> u64
    requires { k < 64 }
    ensures { (j : ℕ) → (bit_at result j ≡ 1)
        ↔ ((bit_at word j ≡ 1) ⊎ (IsTrue set × (j ≡ k))) }
{
    if set { word | 1 << k } else { word }
}
