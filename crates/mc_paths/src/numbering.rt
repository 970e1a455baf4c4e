//! The path numbers of a decision.

ghost use Rattle.std.specs.Prelude.{◌≡◌, ℕ, ◌<◌, ◌≤◌, length, ◌↔◌, slice_get, Some, Err, IfOk, IsTrue};
ghost use Rattle.mc_limits.specs.Limits.{most_paths};
ghost use Rattle.mc_cond.specs.Tree.{tree_of, size, IsNumbered};
ghost use Rattle.mc_cond.specs.Vectors.{Evaluation};
ghost use Rattle.mc_cond.specs.Influence.{HasInfluence};
ghost use Rattle.mc_paths.specs.Paths.{count_of, increments, IsPath, IsInUse};
ghost use Rattle.mc_paths.specs.Masks.{IsMaskOf, IsEvaluated, IsOn};
ghost use Rattle.mc_paths.specs.steps.Masked.{AreMasks, AreMasked};

use crate::descent::vector_at;
use crate::fault::NumberFault;
use crate::masks::{Masks, all_masks};
use crate::rooms::{add_false_edges, count};
use crate::simple::{copied, simplified};
use mc_cond::{CondTree, Vector};
use mc_limits::MOST_PATHS;
use std::alloc::{AllocError, Global};
use std::marker::Model;

/// The greatest count of a decision.
const MOST: u128 = MOST_PATHS as u128;

/// What a true edge adds to a path's number.
const ON_TRUE: u32 = 0;

/// The path numbers of a decision. A contract sees it as the decision's tree.
#[derive(Drop)]
pub struct Numbering {
    tree: CondTree,
    on_false: Vec<u32>,
    count: u32,
    masks: Vec<Option<Masks>>,
}

impl Model for Numbering {
    ghost use Rattle.std.specs.Prelude.{◌≡◌, ◌≤◌};
    ghost use Rattle.std.specs.Coded.{codes};
    ghost use Rattle.mc_cond.specs.contracts.tree.CondTree as cond_tree;
    ghost use Rattle.mc_cond.specs.declared.tree.CondTree.{CondTree};
    ghost use Rattle.mc_paths.specs.steps.Kept.{IsKept};

    ghost Value = { CondTree };

    ghost coded = { Prim.hlevel (codes, cond_tree.the_row.coded) };

    ghost view = { λ n. n.tree };

    ghost invariant = { λ n. IsKept n.tree n.on_false.items n.count n.masks.items };
}

/// Numbers the paths of a decision.
/// The fault is `TooManyPaths` exactly where the count passes 4,096.
pub fn number(alloc: Global, tree: &CondTree) -> Result<Numbering, NumberFault>
    requires { IsNumbered (tree_of tree.now) }
    ensures tree { IfOk result (λ n. tree_of n ≡ tree_of tree.now) }
    ensures few { IfOk result (λ n. count_of (tree_of tree.now) ≤ most_paths) }
    ensures refused { most_paths < count_of (tree_of tree.now)
        → result ≡ Err (NumberFault.TooManyPaths (count_of (tree_of tree.now))) }
    ensures only { (count : ℕ) → result ≡ Err (NumberFault.TooManyPaths count)
        → (most_paths < count) × (count ≡ count_of (tree_of tree.now)) }
{
    let count = count(tree);
    if count > MOST {
        return Err(NumberFault::TooManyPaths { count });
    }
    match kept(alloc, tree, count as u32) {
        Ok(numbering) => Ok(numbering),
        Err(_) => Err(NumberFault::OutOfMemory),
    }
}

/// The numbering of a decision whose count is small.
fn kept(alloc: Global, tree: &CondTree, count: u32) -> Result<Numbering, AllocError>
    requires numbered { IsNumbered (tree_of tree.now) }
    requires count { count ≡ count_of (tree_of tree.now) }
    requires few { count ≤ most_paths }
    ensures { IfOk result (λ n. tree_of n ≡ tree_of tree.now) }
{
    let mut on_false = Vec::new(alloc);
    add_false_edges(tree, 1, 1, &mut on_false)?;
    let masks = simple_masks(alloc, tree, &on_false, count)?;
    let tree = copied(alloc, tree)?;
    Ok(Numbering {
        tree,
        on_false,
        count,
        masks,
    })
}

/// The words of each path in use, which are followed in the decision without its chains of NOT.
#[tactic(auto, using(crate::proofs::Simplifying::same_numbered, crate::proofs::Simplifying::same_edges))]
fn simple_masks(
    alloc: Global,
    tree: &CondTree,
    on_false: &[u32],
    count: u32,
) -> Result<Vec<Option<Masks>>, AllocError>
    requires numbered { IsNumbered (tree_of tree.now) }
    requires edges { on_false.now ≡ increments (tree_of tree.now) }
    ensures { IfOk result (λ m. AreMasked (tree_of tree.now) count m.items) }
{
    let simple = simplified(alloc, tree, false)?;
    all_masks(alloc, &simple, on_false, count)
}

impl Numbering {
    /// One more than the greatest number of a path. It is at most 4,096.
    pub fn count(&self) -> u32
        ensures count { result ≡ count_of (tree_of self.now) }
        ensures few { result ≤ most_paths }
    {
        self.count
    }

    /// How many conditions the decision has. It walks no tree.
    pub fn conditions(&self) -> u32
        ensures { result ≡ size (tree_of self.now) }
    {
        let edges = self.on_false.as_slice();
        edges.len() as u32
    }

    /// What condition `k` adds to the number of a path where it is true: nothing.
    pub fn on_true(&self, k: u32) -> u32
        requires { k < size (tree_of self.now) }
        ensures { result ≡ 0 }
    {
        ON_TRUE
    }

    /// What condition `k` adds to the number of a path where it is false: the room that what comes
    /// after it takes where it is true.
    pub fn on_false(&self, k: u32) -> u32
        requires { k < size (tree_of self.now) }
        ensures { slice_get (increments (tree_of self.now)) k ≡ Some result }
    {
        let edges = self.on_false.as_slice();
        edges[k as usize]
    }

    /// Whether a vector has this number. A number below the count that none has is idle, and only
    /// a decision with operators that are evaluated in full has such numbers.
    pub fn in_use(&self, path: u32) -> bool
        ensures { IsTrue result ↔ IsInUse (tree_of self.now) path }
    {
        let masks = self.masks.as_slice();
        if path < self.count {
            masks[path as usize].is_some()
        } else {
            false
        }
    }

    /// The vector of a path.
    pub fn vector_of(&self, path: u32) -> Vector
        requires { IsInUse (tree_of self.now) path }
        ensures { IsPath (tree_of self.now) path result }
    {
        vector_at(&self.tree, &self.on_false, path).unwrap()
    }

    /// The outcome of a path's vector.
    pub fn outcome_of(&self, path: u32) -> bool
        requires { IsInUse (tree_of self.now) path }
        ensures { (v : Evaluation) → IsPath (tree_of self.now) path v → result ≡ v.outcome }
    {
        self.masks(path).outcome
    }

    /// The conditions evaluated in a path's vector: bit k is set exactly where condition k is.
    pub fn evaluated(&self, path: u32) -> u64
        requires { IsInUse (tree_of self.now) path }
        ensures { (v : Evaluation) → IsPath (tree_of self.now) path v
            → IsMaskOf result (IsEvaluated v) }
    {
        self.masks(path).evaluated
    }

    /// The conditions that are true in a path's vector: bit k is set exactly where condition k is
    /// evaluated and true.
    pub fn value(&self, path: u32) -> u64
        requires { IsInUse (tree_of self.now) path }
        ensures { (v : Evaluation) → IsPath (tree_of self.now) path v → IsMaskOf result (IsOn v) }
    {
        self.masks(path).value
    }

    /// The conditions with influence on a path's outcome: bit k is set exactly where some
    /// completion of the path's vector changes its outcome when condition k alone is flipped.
    pub fn influence(&self, path: u32) -> u64
        requires { IsInUse (tree_of self.now) path }
        ensures { (v : Evaluation) → IsPath (tree_of self.now) path v
            → IsMaskOf result (λ k. HasInfluence (tree_of self.now) k v) }
    {
        self.masks(path).influence
    }

    /// The words and the outcome of a path's vector.
    fn masks(&self, path: u32) -> Masks
        requires { IsInUse (tree_of self.now) path }
        ensures { (v : Evaluation) → IsPath (tree_of self.now) path v
            → AreMasks (tree_of self.now) v result }
    {
        let masks = self.masks.as_slice();
        masks[path as usize].unwrap()
    }
}
