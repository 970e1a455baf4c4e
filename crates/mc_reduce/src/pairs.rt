//! The pairs of seen paths.
ghost use Rattle.std.specs.Prelude.{◌<◌, ◌≤◌, length, All, Contains, IfSome, IfNone};
ghost use Rattle.std.specs.List.Sorted.{IsStrictlyIncreasing};
ghost use Rattle.mc_cond.specs.Tree.{tree_of, size};
ghost use Rattle.mc_paths.specs.Paths.{count_of};
ghost use Rattle.mc_pairs.specs.Pairs.{NonePaired, IsChosen};
ghost use Rattle.mc_oblige.specs.Evidence.{pairs_of};
ghost use Rattle.mc_reduce.specs.steps.Bits.{HasPairOn};

use crate::hint::Hint;
use mc_masking::masking_pair;
use mc_oblige::Mode;
use mc_probe::MappedDecision;
use mc_unique::unique_pair;

/// A pair of seen paths for condition `k`. It is looked for where the hint says, and then among all
/// that are seen.
pub(crate) fn any_pair(
    mapped: &MappedDecision,
    seen: &[u32],
    mode: Mode,
    k: u32,
    hint: Option<Hint>,
) -> Option<Hint>
    requires ascending { IsStrictlyIncreasing seen.now }
    requires paths { All (λ path. path < count_of (tree_of mapped.now.decision.tree)) seen.now }
    requires condition { k < size (tree_of mapped.now.decision.tree) }
    ensures some { IfSome result (λ _.
        HasPairOn (Contains seen.now) mode (tree_of mapped.now.decision.tree) k) }
    ensures none { IfNone result (
        ¬ HasPairOn (Contains seen.now) mode (tree_of mapped.now.decision.tree) k) }
{
    if let Some(last) = hint {
        if let Some(pair) = pair_near(mapped, seen, mode, k, last) {
            return Some(pair);
        }
    }
    first_pair(mapped, seen, mode, k)
}

/// A pair near the hint: its own paths, where both are still seen, and else a pair of the paths
/// from it on. Those before it were looked at when it was found, and since then fewer are seen.
fn pair_near(mapped: &MappedDecision, seen: &[u32], mode: Mode, k: u32, hint: Hint) -> Option<Hint>
    requires ascending { IsStrictlyIncreasing seen.now }
    requires paths { All (λ path. path < count_of (tree_of mapped.now.decision.tree)) seen.now }
    requires condition { k < size (tree_of mapped.now.decision.tree) }
    ensures { IfSome result (λ _.
        HasPairOn (Contains seen.now) mode (tree_of mapped.now.decision.tree) k) }
{
    let low = place_of(seen, hint.low);
    let high = place_of(seen, hint.high);
    if low < high && high < seen.len() {
        if let Some(pair) = pair_at(mapped, seen, mode, k, low, high) {
            return Some(pair);
        }
    }
    first_pair(mapped, &seen[low..], mode, k)
}

/// The seen paths at two places, where they are a pair.
fn pair_at(
    mapped: &MappedDecision,
    seen: &[u32],
    mode: Mode,
    k: u32,
    low: usize,
    high: usize,
) -> Option<Hint>
    requires ascending { IsStrictlyIncreasing seen.now }
    requires paths { All (λ path. path < count_of (tree_of mapped.now.decision.tree)) seen.now }
    requires condition { k < size (tree_of mapped.now.decision.tree) }
    requires order { low < high }
    requires high { high < length seen.now }
    ensures { IfSome result (λ _.
        HasPairOn (Contains seen.now) mode (tree_of mapped.now.decision.tree) k) }
{
    first_pair(mapped, &[seen[low], seen[high]], mode, k)
}

/// The chosen pair of seen paths, as a hint.
fn first_pair(mapped: &MappedDecision, seen: &[u32], mode: Mode, k: u32) -> Option<Hint>
    requires ascending { IsStrictlyIncreasing seen.now }
    requires paths { All (λ path. path < count_of (tree_of mapped.now.decision.tree)) seen.now }
    requires condition { k < size (tree_of mapped.now.decision.tree) }
    ensures some { IfSome result (λ _.
        HasPairOn (Contains seen.now) mode (tree_of mapped.now.decision.tree) k) }
    ensures none { IfNone result (
        ¬ HasPairOn (Contains seen.now) mode (tree_of mapped.now.decision.tree) k) }
{
    match chosen_pair(mapped, seen, mode, k) {
        Some(pair) => Some(Hint::of(pair)),
        None => None,
    }
}

/// The chosen pair of seen paths.
fn chosen_pair(mapped: &MappedDecision, seen: &[u32], mode: Mode, k: u32) -> Option<(u32, u32)>
    requires ascending { IsStrictlyIncreasing seen.now }
    requires paths { All (λ path. path < count_of (tree_of mapped.now.decision.tree)) seen.now }
    requires condition { k < size (tree_of mapped.now.decision.tree) }
    ensures chosen { IfSome result (λ pair. let t = tree_of mapped.now.decision.tree in
        IsChosen (pairs_of mode t k) t seen.now k pair.0 pair.1) }
    ensures none { IfNone result (let t = tree_of mapped.now.decision.tree in
        NonePaired (pairs_of mode t k) t seen.now) }
{
    let tree = &mapped.decision.tree;
    match mode {
        Mode::Unique => unique_pair(tree, &mapped.numbering, seen, k),
        Mode::Masking => masking_pair(tree, &mapped.numbering, seen, k),
    }
}

/// Where the path stands in the list, or where it would stand.
fn place_of(seen: &[u32], path: u32) -> usize
    ensures { result ≤ length seen.now }
{
    match seen.binary_search(&path) {
        Ok(at) => at,
        Err(at) => at,
    }
}
