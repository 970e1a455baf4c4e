//! The pair that shows a condition's independence by unique cause.

ghost use Rattle.std.specs.Prelude.{
  ◌≡◌,
  ℕ,
  ◌<◌,
  ◌≤◌,
  length,
  get_or,
  All,
  Contains,
  IfSome,
  IfNone,
  true,
  false,
};
ghost use Rattle.std.specs.List.Sorted.{IsStrictlyIncreasing};
ghost use Rattle.mc_cond.specs.Tree.{tree_of, size, IsNumbered};
ghost use Rattle.mc_paths.specs.Paths.{count_of};
ghost use Rattle.mc_pairs.specs.Pairs.{
  NonePaired,
  IsChosen,
  ArePaired,
  HasInfluenceAs,
  IsLeastWhere,
  turned,
};
ghost use Rattle.mc_unique.specs.Unique.{IsUniquePair};

use crate::candidates::candidates;
use crate::compare::{are_alike, are_paired};
use mc_cond::CondTree;
use mc_pairs::has_influence_as;
use mc_paths::Numbering;

/// The chosen unique-cause pair of seen paths for condition `k`: `k` is true in the first and false
/// in the second, the first is the least path, and then the second. `None` where no two seen paths
/// are a pair, in either order.
pub fn unique_pair(
    tree: &CondTree,
    numbering: &Numbering,
    seen: &[u32],
    k: u32,
) -> Option<(u32, u32)>
    requires tree { IsNumbered (tree_of tree.now) }
    requires numbering { tree_of numbering.now ≡ tree_of tree.now }
    requires ascending { IsStrictlyIncreasing seen.now }
    requires paths { All (λ path. path < count_of (tree_of tree.now)) seen.now }
    requires condition { k < size (tree_of tree.now) }
    ensures chosen { IfSome result (λ pair. IsChosen (IsUniquePair (tree_of tree.now) k)
        (tree_of tree.now) seen.now k pair.0 pair.1) }
    ensures none { IfNone result (NonePaired (IsUniquePair (tree_of tree.now) k)
        (tree_of tree.now) seen.now) }
{
    // Without operators that are evaluated in full the first candidates always are a pair.
    let pair = candidates(numbering, seen, k)?;
    if are_paired(numbering, k, pair.0, pair.1) {
        return Some(pair);
    }
    each_compared(numbering, seen, k)
}

/// The chosen pair, by comparison of each path that has `k` true with those that have it false, of
/// the same answers before `k`. So no two paths are compared for more than one condition.
fn each_compared(numbering: &Numbering, seen: &[u32], k: u32) -> Option<(u32, u32)>
    requires numbered { IsNumbered (tree_of numbering.now) }
    requires ascending { IsStrictlyIncreasing seen.now }
    requires condition { k < size (tree_of numbering.now) }
    ensures chosen { IfSome result (λ pair. IsChosen (IsUniquePair (tree_of numbering.now) k)
        (tree_of numbering.now) seen.now k pair.0 pair.1) }
    ensures none { IfNone result (NonePaired (IsUniquePair (tree_of numbering.now) k)
        (tree_of numbering.now) seen.now) }
{
    let mut off = 0;
    for at in 0..seen.len() {
        off = next_off(numbering, seen, k, at, off);
        let first = seen[at];
        if has_influence_as(numbering, first, k, true) {
            if let Some(second) = least_partner(numbering, seen, k, at, off) {
                return Some((first, second));
            }
        }
    }
    None
}

/// The first place from `at` on of a path with `k` false and influence, or the end of the list.
/// Up to `off` there is none.
fn next_off(numbering: &Numbering, seen: &[u32], k: u32, at: usize, off: usize) -> usize
    requires numbered { IsNumbered (tree_of numbering.now) }
    requires condition { k < size (tree_of numbering.now) }
    requires at { at < length seen.now }
    requires passed { (m : ℕ) → at ≤ m → m < off
        → ¬ HasInfluenceAs (tree_of numbering.now) k false (get_or seen.now m 0) }
    ensures later { at ≤ result }
    ensures passed { (m : ℕ) → at ≤ m → m < result
        → ¬ HasInfluenceAs (tree_of numbering.now) k false (get_or seen.now m 0) }
{
    for next in off..seen.len() {
        if at <= next {
            if has_influence_as(numbering, seen[next], k, false) {
                return next;
            }
        }
    }
    seen.len()
}

/// The least seen path that makes a pair with the one at `at`. Those with the same answers before
/// `k` stand side by side, and up to `off` none has `k` false and influence.
fn least_partner(numbering: &Numbering, seen: &[u32], k: u32, at: usize, off: usize) -> Option<u32>
    requires numbered { IsNumbered (tree_of numbering.now) }
    requires ascending { IsStrictlyIncreasing seen.now }
    requires condition { k < size (tree_of numbering.now) }
    requires at { at < length seen.now }
    requires first { HasInfluenceAs (tree_of numbering.now) k true (get_or seen.now at 0) }
    requires later { at ≤ off }
    requires passed { (m : ℕ) → at ≤ m → m < off
        → ¬ HasInfluenceAs (tree_of numbering.now) k false (get_or seen.now m 0) }
    ensures some { IfSome result (IsLeastWhere (ArePaired
        (turned k (IsUniquePair (tree_of numbering.now) k)) (tree_of numbering.now)
        (get_or seen.now at 0)) seen.now) }
    ensures none { IfNone result ((path : ℕ) → Contains seen.now path
        → ¬ ArePaired (turned k (IsUniquePair (tree_of numbering.now) k)) (tree_of numbering.now)
        (get_or seen.now at 0) path) }
{
    let first = seen[at];
    for next in off..seen.len() {
        let second = seen[next];
        if numbering.in_use(second) {
            if !are_alike(numbering, k, first, second) {
                return None;
            }
            if are_paired(numbering, k, first, second) {
                return Some(second);
            }
        }
    }
    None
}
