//! What a condition of a decision needs, where some of the decision's vectors are known.
ghost use Rattle.std.specs.Prelude.{◌≡◌, ℕ, ◌+◌, ◌<◌, ◌≤◌, All, IfOk, IfSome, IfNone, length};
ghost use Rattle.std.specs.Bool.{OnTrue, OnFalse};
ghost use Rattle.std.specs.List.Sorted.{IsStrictlyIncreasing};
ghost use Rattle.mc_cond.specs.Tree.{Tree, tree_of, size};
ghost use Rattle.report_options.specs.declared.mode.Mode.{Mode};
ghost use Rattle.mc_paths.specs.Paths.{count_of};
ghost use Rattle.mc_pairs.specs.Pairs.{NonePaired, IsChosen};
ghost use Rattle.mc_oblige.specs.Evidence.{pairs_of};
ghost use Rattle.mc_needs.specs.Needs.{IsPairFor, IsUnpaired, IsHalfKnown, IsLeastPair};
ghost use Rattle.mc_needs.specs.steps.Marks.{IsMarked};
ghost use Rattle.mc_needs.specs.steps.Pairing.{HasPair, IsPairing};
ghost use Rattle.mc_needs.specs.steps.Among.{AreAmong, IsAny};
ghost use Rattle.mc_needs.specs.steps.Pairing.{
  earlier_of,
  lesser_of,
  IsLeastIfAny,
};

use crate::among::{all_paths, is_marked, marked_paths, with_influence};
use mc_masking::masking_pair;
use mc_oblige::Mode;
use mc_probe::MappedDecision;
use mc_unique::unique_pair;
use std::alloc::{AllocError, Global};

/// What a condition needs, by the numbers of paths.
#[derive(Clone, Copy, Debug, PartialEq, Eq)]
pub(crate) enum Pairing {
    /// One vector, that makes a pair with a known one, the partner.
    Beside { path: u32, partner: u32 },
    /// Two vectors, which are a pair.
    Both { first: u32, second: u32 },
}

/// Whether two marked paths are a pair for condition `k`. Marks stand at bits.
pub(crate) fn has_pair(
    alloc: Global,
    mapped: &MappedDecision,
    marks: &[bool],
    mode: Mode,
    k: u32,
) -> Result<bool, AllocError>
    requires marks { mapped.now.base + count_of (tree_of mapped.now.decision.tree)
        ≤ length marks.now }
    requires condition { k < size (tree_of mapped.now.decision.tree) }
    ensures met { IfOk result (λ is. OnTrue is (HasPair mode (tree_of mapped.now.decision.tree) k
        (IsMarked marks.now mapped.now.base))) }
    ensures missing { IfOk result (λ is. OnFalse is
        (IsUnpaired mode (tree_of mapped.now.decision.tree) k
        (IsMarked marks.now mapped.now.base))) }
{
    let paths = marked_paths(alloc, mapped, marks)?;
    match chosen_pair(mapped, &paths, mode, k) {
        Some(_) => Ok(true),
        None => Ok(false),
    }
}

/// What condition `k` needs, of which no two marked paths are a pair: one vector that makes a pair
/// with a marked one, of these the one whose pair a report would choose; where no single one does,
/// the pair that a report would choose of all. Marks stand at bits.
pub(crate) fn needed_pair(
    alloc: Global,
    mapped: &MappedDecision,
    marks: &[bool],
    mode: Mode,
    k: u32,
) -> Result<Pairing, AllocError>
    requires marks { mapped.now.base + count_of (tree_of mapped.now.decision.tree)
        ≤ length marks.now }
    requires condition { k < size (tree_of mapped.now.decision.tree) }
    requires missing { IsUnpaired mode (tree_of mapped.now.decision.tree) k
        (IsMarked marks.now mapped.now.base) }
    ensures { IfOk result (IsPairing mode (tree_of mapped.now.decision.tree) k
        (IsMarked marks.now mapped.now.base)) }
{
    match half_known(alloc, mapped, marks, mode, k)? {
        Some(pair) => Ok(beside(mapped, marks, pair)),
        None => {
            let paths = all_paths(alloc, mapped.numbering.count())?;
            let pair = least_of_all(mapped, &paths, mode, k);
            Ok(Pairing::Both {
                first: pair.0,
                second: pair.1,
            })
        }
    }
}

/// The least pair of which one path is marked and the other is not. A pair for condition `k` has
/// paths with influence of `k`, so its marked path stands in one of two lists, and the other
/// path with it.
fn half_known(
    alloc: Global,
    mapped: &MappedDecision,
    marks: &[bool],
    mode: Mode,
    k: u32,
) -> Result<Option<(u32, u32)>, AllocError>
    requires marks { mapped.now.base + count_of (tree_of mapped.now.decision.tree)
        ≤ length marks.now }
    requires condition { k < size (tree_of mapped.now.decision.tree) }
    requires missing { IsUnpaired mode (tree_of mapped.now.decision.tree) k
        (IsMarked marks.now mapped.now.base) }
    ensures { IfOk result (IsLeastIfAny
        (IsHalfKnown mode (tree_of mapped.now.decision.tree) k
        (IsMarked marks.now mapped.now.base))) }
{
    let with_second = with_influence(alloc, mapped, marks, k, false)?;
    let with_first = with_influence(alloc, mapped, marks, k, true)?;
    Ok(lesser(
        chosen_pair(mapped, &with_second, mode, k),
        chosen_pair(mapped, &with_first, mode, k),
    ))
}

/// The chosen pair of seen paths.
fn chosen_pair(mapped: &MappedDecision, seen: &[u32], mode: Mode, k: u32) -> Option<(u32, u32)>
    requires ascending { IsStrictlyIncreasing seen.now }
    requires paths { All (λ path. path < count_of (tree_of mapped.now.decision.tree)) seen.now }
    requires condition { k < size (tree_of mapped.now.decision.tree) }
    ensures chosen { IfSome result (λ pair. let t = tree_of mapped.now.decision.tree in
        IsChosen (pairs_of mode t k) t seen.now k pair.0 pair.1) }
    ensures none { IfNone result (let t = tree_of mapped.now.decision.tree in
        NonePaired (pairs_of mode t k) t seen.now) }
{
    let tree = &mapped.decision.tree;
    match mode {
        Mode::Unique => unique_pair(tree, &mapped.numbering, seen, k),
        Mode::Masking => masking_pair(tree, &mapped.numbering, seen, k),
    }
}

/// The chosen pair of all paths. Each condition has one.
fn least_of_all(mapped: &MappedDecision, paths: &[u32], mode: Mode, k: u32) -> (u32, u32)
    requires paths { AreAmong IsAny (count_of (tree_of mapped.now.decision.tree)) paths.now }
    requires condition { k < size (tree_of mapped.now.decision.tree) }
    ensures { IsLeastPair (IsPairFor mode (tree_of mapped.now.decision.tree) k) result.0 result.1 }
{
    match chosen_pair(mapped, paths, mode, k) {
        Some(pair) => pair,
        None => unreachable!(),
    }
}

/// The path of a pair that is not marked, beside the one that is.
fn beside(mapped: &MappedDecision, marks: &[bool], pair: (u32, u32)) -> Pairing
    requires { mapped.now.base + pair.0 < length marks.now }
    ensures { (mode : Mode) (t : Tree) (k : ℕ) →
        IsLeastPair (IsHalfKnown mode t k (IsMarked marks.now mapped.now.base)) pair.0 pair.1 →
        IsPairing mode t k (IsMarked marks.now mapped.now.base) result }
{
    if is_marked(mapped, marks, pair.0) {
        Pairing::Beside {
            path: pair.1,
            partner: pair.0,
        }
    } else {
        Pairing::Beside {
            path: pair.0,
            partner: pair.1,
        }
    }
}

/// The lesser of two pairs, as far as they are there.
fn lesser(one: Option<(u32, u32)>, other: Option<(u32, u32)>) -> Option<(u32, u32)>
    ensures { result ≡ lesser_of one other }
{
    match (one, other) {
        (None, least) => least,
        (least, None) => least,
        (Some(one), Some(other)) => Some(earlier(one, other)),
    }
}

fn earlier(one: (u32, u32), other: (u32, u32)) -> (u32, u32)
    ensures { result ≡ earlier_of one other }
{
    if other.0 < one.0 || (other.0 == one.0 && other.1 < one.1) {
        other
    } else {
        one
    }
}
