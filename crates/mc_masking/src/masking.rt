//! The pair that shows a condition's independence by masking.

ghost use Rattle.std.specs.Prelude.{◌≡◌, ◌<◌, All, IfSome, IfNone};
ghost use Rattle.std.specs.List.Sorted.{IsStrictlyIncreasing};
ghost use Rattle.mc_cond.specs.Tree.{tree_of, size, IsNumbered};
ghost use Rattle.mc_paths.specs.Paths.{count_of};
ghost use Rattle.mc_pairs.specs.Pairs.{NonePaired, IsChosen};
ghost use Rattle.mc_masking.specs.Masking.{IsMaskingPair};

use crate::least::{has_influence_to, least, least_to};
use mc_cond::CondTree;
use mc_paths::Numbering;

/// The chosen masking pair of seen paths for condition `k`: `k` is true in the first and false in
/// the second, the first is the least path, and then the second. `None` where no two seen paths are
/// a pair, in either order.
pub fn masking_pair(
    tree: &CondTree,
    numbering: &Numbering,
    seen: &[u32],
    k: u32,
) -> Option<(u32, u32)>
    requires tree { IsNumbered (tree_of tree.now) }
    requires numbering { tree_of numbering.now ≡ tree_of tree.now }
    requires ascending { IsStrictlyIncreasing seen.now }
    requires paths { All (λ path. path < count_of (tree_of tree.now)) seen.now }
    requires condition { k < size (tree_of tree.now) }
    ensures chosen { IfSome result (λ pair. IsChosen (IsMaskingPair (tree_of tree.now) k)
        (tree_of tree.now) seen.now k pair.0 pair.1) }
    ensures none { IfNone result (NonePaired (IsMaskingPair (tree_of tree.now) k)
        (tree_of tree.now) seen.now) }
{
    let first = least(numbering, seen, k, true)?;
    let second = least(numbering, seen, k, false)?;
    let outcome = numbering.outcome_of(first);
    if has_influence_to(numbering, second, k, false, !outcome) {
        return Some((first, second));
    }
    // Both have the same outcome, which operators that are evaluated in full alone can give.
    if let Some(other_second) = least_to(numbering, seen, k, false, !outcome) {
        return Some((first, other_second));
    }
    let other_first = least_to(numbering, seen, k, true, !outcome)?;
    Some((other_first, second))
}
