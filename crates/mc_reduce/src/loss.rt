//! What is lost without a test.
ghost use Rattle.std.specs.Prelude.{◌≡◌, ◌+◌, ◌<◌, ◌≤◌, ◌↔◌, length, All, Contains, IsTrue, IfOk, IfSome, IfNone};
ghost use Rattle.std.specs.List.Sorted.{IsStrictlyIncreasing};
ghost use Rattle.mc_limits.specs.Limits.{most_bits};
ghost use Rattle.mc_cond.specs.Tree.{tree_of, size};
ghost use Rattle.mc_paths.specs.Paths.{count_of};
ghost use Rattle.mc_probe.specs.BitMaps.{map_of};
ghost use Rattle.mc_reduce.specs.steps.Bits.{ShowAt};
ghost use Rattle.mc_reduce.specs.steps.Counts.{HasCounts};
ghost use Rattle.mc_reduce.specs.steps.Loss.{IsCounted, IsLeft, along, AreShownFrom, IsFirstAt, NoneAt, IsFirstOf, NoneOf, AreTrueFrom, AreShown, IsFirstMissed, NoneMissed};

use crate::counts::first_single;
use crate::hint::Hints;
use crate::judged::{is_shown, obligation_count, path_count};
use crate::paths::paths_left;
use crate::shown::events;
use mc_oblige::Mode;
use mc_probe::{BitMap, MappedDecision};
use std::alloc::{AllocError, Global};

/// The first obligation that is lost without the test. `shown` says which ones are shown with it.
pub(crate) fn first_lost(
    alloc: Global,
    map: &BitMap,
    counts: &[u32],
    words: &[u64],
    test: u32,
    shown: &[bool],
    hints: &mut Hints,
    mode: Mode,
) -> Result<Option<u32>, AllocError>
    requires bits { length counts.now ≡ map.now.bits }
    requires counts { HasCounts test counts.now words.now }
    requires shown { AreShown (map_of map.now) mode (IsCounted counts.now) shown.now }
    ensures lost { IfOk result (λ r. IfSome r (λ p.
        IsFirstMissed (map_of map.now) mode (IsCounted counts.now)
        (IsLeft test counts.now words.now) p)) }
    ensures none { IfOk result (λ r. IfNone r (
        NoneMissed (map_of map.now) mode (IsCounted counts.now)
        (IsLeft test counts.now words.now))) }
{
    let mut position = events(map);
    if let Some(bit) = first_single(counts, words, 0, position, test) {
        return Ok(Some(bit));
    }
    for mapped in &map.decisions {
        if let Some(at) = lost_of(
            alloc, mapped, counts, words, test, shown, position, hints, mode,
        )? {
            return Ok(Some(position + at));
        }
        position += obligation_count(mapped);
    }
    Ok(None)
}

/// The first obligation of the decision that is lost. Where no path is, none is judged again.
fn lost_of(
    alloc: Global,
    mapped: &MappedDecision,
    counts: &[u32],
    words: &[u64],
    test: u32,
    shown: &[bool],
    position: u32,
    hints: &mut Hints,
    mode: Mode,
) -> Result<Option<u32>, AllocError>
    requires paths { mapped.now.base + count_of (tree_of mapped.now.decision.tree)
        ≤ length counts.now }
    requires few { length counts.now ≤ most_bits }
    requires counts { HasCounts test counts.now words.now }
    requires count { position + (2 + size (tree_of mapped.now.decision.tree)) ≤ length shown.now }
    requires shown { AreShownFrom (along (IsCounted counts.now) mapped.now.base) mode
        (tree_of mapped.now.decision.tree) position shown.now }
    ensures lost { IfOk result (λ r. IfSome r (λ at.
        IsFirstAt (along (IsCounted counts.now) mapped.now.base)
        (along (IsLeft test counts.now words.now) mapped.now.base) mode
        (tree_of mapped.now.decision.tree) at)) }
    ensures none { IfOk result (λ r. IfNone r (
        NoneAt (along (IsCounted counts.now) mapped.now.base)
        (along (IsLeft test counts.now words.now) mapped.now.base) mode
        (tree_of mapped.now.decision.tree))) }
{
    let end = mapped.base + path_count(mapped);
    match first_single(counts, words, mapped.base, end, test) {
        Some(_) => {
            let left = paths_left(alloc, counts, words, test, mapped.base, path_count(mapped))?;
            Ok(first_missed(mapped, &left, shown, position, hints, mode))
        }
        None => Ok(None),
    }
}

/// The first obligation of the decision that is shown, and not by the paths that are left.
fn first_missed(
    mapped: &MappedDecision,
    left: &[u32],
    shown: &[bool],
    position: u32,
    hints: &mut Hints,
    mode: Mode,
) -> Option<u32>
    requires ascending { IsStrictlyIncreasing left.now }
    requires paths { All (λ path. path < count_of (tree_of mapped.now.decision.tree)) left.now }
    requires count { position + (2 + size (tree_of mapped.now.decision.tree)) ≤ length shown.now }
    ensures lost { IfSome result (λ at.
        IsFirstOf (AreTrueFrom shown.now position)
        (ShowAt (Contains left.now) mode (tree_of mapped.now.decision.tree))
        (2 + size (tree_of mapped.now.decision.tree)) at) }
    ensures none { IfNone result (NoneOf (AreTrueFrom shown.now position)
        (ShowAt (Contains left.now) mode (tree_of mapped.now.decision.tree))
        (2 + size (tree_of mapped.now.decision.tree))) }
{
    for at in 0..obligation_count(mapped) {
        let place = position as usize + at as usize;
        let is_shown_with = shown[place];
        if is_shown_with && !is_still_shown(mapped, left, mode, at, place, hints) {
            return Some(at);
        }
    }
    None
}

/// Whether the paths that are left show the obligation, which has its hint at this place.
fn is_still_shown(
    mapped: &MappedDecision,
    left: &[u32],
    mode: Mode,
    at: u32,
    place: usize,
    hints: &mut Hints,
) -> bool
    requires ascending { IsStrictlyIncreasing left.now }
    requires paths { All (λ path. path < count_of (tree_of mapped.now.decision.tree)) left.now }
    requires at { at < 2 + size (tree_of mapped.now.decision.tree) }
    ensures { IsTrue result
        ↔ ShowAt (Contains left.now) mode (tree_of mapped.now.decision.tree) at }
{
    let mut hint = hints.at(place);
    let is = is_shown(mapped, left, mode, at, &mut hint);
    hints.put(place, hint);
    is
}

/// The first obligation that is lost without a test, where one is.
pub(crate) fn lost_without(
    alloc: Global,
    map: &BitMap,
    counts: &[u32],
    words: &[u64],
    test: u32,
    shown: &[bool],
    hints: &mut Hints,
    mode: Mode,
) -> Result<u32, AllocError>
    requires bits { length counts.now ≡ map.now.bits }
    requires counts { HasCounts test counts.now words.now }
    requires shown { AreShown (map_of map.now) mode (IsCounted counts.now) shown.now }
    requires needed { ¬ NoneMissed (map_of map.now) mode (IsCounted counts.now)
        (IsLeft test counts.now words.now) }
    ensures { IfOk result (λ p.
        IsFirstMissed (map_of map.now) mode (IsCounted counts.now)
        (IsLeft test counts.now words.now) p) }
{
    match first_lost(alloc, map, counts, words, test, shown, hints, mode)? {
        Some(position) => Ok(position),
        None => unreachable!(),
    }
}
