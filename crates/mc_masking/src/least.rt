//! The least paths in which a condition has influence.

ghost use Rattle.std.specs.Prelude.{◌≡◌, ℕ, ◌<◌, ◌↔◌, Contains, IfSome, IfNone, IsTrue};
ghost use Rattle.std.specs.List.Sorted.{IsStrictlyIncreasing};
ghost use Rattle.mc_cond.specs.Tree.{tree_of, size, IsNumbered};
ghost use Rattle.mc_pairs.specs.Pairs.{HasInfluenceAs};
ghost use Rattle.mc_masking.specs.Laws.{HasInfluenceTo, IsLeastSeen, IsLeastSeenTo};

use mc_pairs::has_influence_as;
use mc_paths::Numbering;

/// The least seen path in which condition `k` has this value, and influence on the outcome.
pub(crate) fn least(numbering: &Numbering, seen: &[u32], k: u32, value: bool) -> Option<u32>
    requires numbered { IsNumbered (tree_of numbering.now) }
    requires ascending { IsStrictlyIncreasing seen.now }
    requires condition { k < size (tree_of numbering.now) }
    ensures some { IfSome result (IsLeastSeen (tree_of numbering.now) seen.now k value) }
    ensures none { IfNone result ((path : ℕ) → Contains seen.now path
        → ¬ HasInfluenceAs (tree_of numbering.now) k value path) }
{
    for path in seen {
        if has_influence_as(numbering, *path, k, value) {
            return Some(*path);
        }
    }
    None
}

/// The least of these with this outcome.
pub(crate) fn least_to(
    numbering: &Numbering,
    seen: &[u32],
    k: u32,
    value: bool,
    outcome: bool,
) -> Option<u32>
    requires numbered { IsNumbered (tree_of numbering.now) }
    requires ascending { IsStrictlyIncreasing seen.now }
    requires condition { k < size (tree_of numbering.now) }
    ensures some { IfSome result (IsLeastSeenTo (tree_of numbering.now) seen.now k value outcome) }
    ensures none { IfNone result ((path : ℕ) → Contains seen.now path
        → ¬ HasInfluenceTo (tree_of numbering.now) k value outcome path) }
{
    for path in seen {
        if has_influence_to(numbering, *path, k, value, outcome) {
            return Some(*path);
        }
    }
    None
}

/// Whether condition `k` has this value in a path with this outcome, and influence.
pub(crate) fn has_influence_to(
    numbering: &Numbering,
    path: u32,
    k: u32,
    value: bool,
    outcome: bool,
) -> bool
    requires numbered { IsNumbered (tree_of numbering.now) }
    requires condition { k < size (tree_of numbering.now) }
    ensures { IsTrue result
        ↔ HasInfluenceTo (tree_of numbering.now) k value outcome path }
{
    if !has_influence_as(numbering, path, k, value) {
        return false;
    }
    numbering.outcome_of(path) == outcome
}
