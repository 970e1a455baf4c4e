//! The first two seen paths of one prefix that can be a pair.

ghost use Rattle.std.specs.Prelude.{◌≡◌, ℕ, ◌<◌, Contains, IfSome, IfNone, Some, true, false};
ghost use Rattle.std.specs.List.Sorted.{IsStrictlyIncreasing};
ghost use Rattle.mc_cond.specs.Tree.{tree_of, size, IsNumbered};
ghost use Rattle.mc_paths.specs.Paths.{IsInUse};
ghost use Rattle.mc_pairs.specs.Pairs.{HasInfluenceAs};
ghost use Rattle.mc_unique.specs.steps.Prefixes.{AreAlike, AreCandidates, IsNext};

use crate::compare::are_alike;
use mc_pairs::has_influence_as;
use mc_paths::Numbering;

/// The first two seen paths with equal answers before condition `k` and influence of `k`, which is
/// true in the one and false in the other.
pub(crate) fn candidates(numbering: &Numbering, seen: &[u32], k: u32) -> Option<(u32, u32)>
    requires numbered { IsNumbered (tree_of numbering.now) }
    requires ascending { IsStrictlyIncreasing seen.now }
    requires condition { k < size (tree_of numbering.now) }
    ensures some { IfSome result (λ pair.
        AreCandidates (tree_of numbering.now) k seen.now pair.0 pair.1) }
    ensures none { IfNone result ((p q : ℕ) → Contains seen.now p → Contains seen.now q
        → HasInfluenceAs (tree_of numbering.now) k true p
        → HasInfluenceAs (tree_of numbering.now) k false q
        → ¬ AreAlike (tree_of numbering.now) k p q) }
{
    // Paths with equal answers before `k` stand side by side, those with `k` true first.
    let mut first = None;
    for path in seen {
        if let Some(least) = partner(numbering, k, first, *path) {
            return Some((least, *path));
        }
        first = first_alike(numbering, k, first, *path);
    }
    None
}

/// The kept path, where the next one can make a pair with it: `k` is false there with influence,
/// and the answers before it are the same.
fn partner(numbering: &Numbering, k: u32, first: Option<u32>, path: u32) -> Option<u32>
    requires numbered { IsNumbered (tree_of numbering.now) }
    requires condition { k < size (tree_of numbering.now) }
    requires first { IfSome first (IsInUse (tree_of numbering.now)) }
    ensures kept { IfSome result (λ p. first ≡ Some p) }
    ensures off { IfSome result (λ p. HasInfluenceAs (tree_of numbering.now) k false path) }
    ensures alike { IfSome result (λ p. AreAlike (tree_of numbering.now) k p path) }
    ensures none { IfNone result ((p : ℕ) → first ≡ Some p
        → HasInfluenceAs (tree_of numbering.now) k false path
        → ¬ AreAlike (tree_of numbering.now) k p path) }
{
    let least = first?;
    if !has_influence_as(numbering, path, k, false) {
        return None;
    }
    if are_alike(numbering, k, least, path) {
        Some(least)
    } else {
        None
    }
}

/// What is kept after a path: the first with its answers before `k`, of those with `k` true and
/// with influence.
fn first_alike(numbering: &Numbering, k: u32, first: Option<u32>, path: u32) -> Option<u32>
    requires numbered { IsNumbered (tree_of numbering.now) }
    requires condition { k < size (tree_of numbering.now) }
    requires first { IfSome first (IsInUse (tree_of numbering.now)) }
    ensures used { IfSome result (IsInUse (tree_of numbering.now)) }
    ensures next { IsNext (HasInfluenceAs (tree_of numbering.now) k true path)
        (λ p. AreAlike (tree_of numbering.now) k p path) path first result }
{
    if !has_influence_as(numbering, path, k, true) {
        return first;
    }
    if let Some(least) = first {
        if are_alike(numbering, k, least, path) {
            return Some(least);
        }
    }
    Some(path)
}
