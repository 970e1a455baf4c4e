//! The evidence of a decision's conditions.
ghost use Rattle.std.specs.Prelude.{◌≡◌, ℕ, ◌<◌, ◌≤◌, length, All, IfOk, IfSome, IfNone};
ghost use Rattle.std.specs.List.Sorted.{IsStrictlyIncreasing};
ghost use Rattle.mc_limits.specs.Limits.{most_paths};
ghost use Rattle.mc_cond.specs.Tree.{tree_of, size};
ghost use Rattle.mc_paths.specs.Paths.{count_of};
ghost use Rattle.mc_pairs.specs.Pairs.{NonePaired, IsChosen};
ghost use Rattle.mc_oblige.specs.Evidence.{pairs_of};
ghost use Rattle.mc_oblige.specs.steps.Table.{IsAt, AreSeenBelow};
ghost use Rattle.mc_oblige.specs.steps.Found.{IsFoundCondition, AreFoundBelow};

use crate::seen::seen_paths;
use crate::verdict::Evidence;
use mc_masking::masking_pair;
use mc_probe::MappedDecision;
use mc_unique::unique_pair;
use report_options::Mode;
use std::alloc::{AllocError, Global};

/// The evidence of each condition, in order.
pub(crate) fn condition_evidence(
    alloc: Global,
    mapped: &MappedDecision,
    tests: &[Option<u32>],
    mode: Mode,
) -> Result<Vec<Evidence>, AllocError>
    requires count { length tests.now ≡ count_of (tree_of mapped.now.decision.tree) }
    requires few { length tests.now ≤ most_paths }
    ensures { IfOk result (λ v. let t = tree_of mapped.now.decision.tree in
        AreFoundBelow mode t tests.now (size t) v.items) }
{
    let seen = seen_paths(alloc, tests)?;
    let mut found = Vec::new(alloc);
    for k in 0..mapped.numbering.conditions() {
        found.push(pair_evidence(mapped, tests, &seen, mode, k))?;
    }
    Ok(found)
}

/// The evidence of condition `k`.
fn pair_evidence(
    mapped: &MappedDecision,
    tests: &[Option<u32>],
    seen: &[u32],
    mode: Mode,
    k: u32,
) -> Evidence
    requires count { length tests.now ≡ count_of (tree_of mapped.now.decision.tree) }
    requires seen { AreSeenBelow tests.now (length tests.now) seen.now }
    requires condition { k < size (tree_of mapped.now.decision.tree) }
    ensures { IsFoundCondition mode (tree_of mapped.now.decision.tree) tests.now k result }
{
    match chosen_pair(mapped, seen, mode, k) {
        Some((first, second)) => Evidence::Pair {
            first,
            first_test: test_at(tests, first),
            second,
            second_test: test_at(tests, second),
        },
        None => Evidence::Absent,
    }
}

/// The chosen pair of seen paths.
fn chosen_pair(mapped: &MappedDecision, seen: &[u32], mode: Mode, k: u32) -> Option<(u32, u32)>
    requires ascending { IsStrictlyIncreasing seen.now }
    requires paths { All (λ path. path < count_of (tree_of mapped.now.decision.tree)) seen.now }
    requires condition { k < size (tree_of mapped.now.decision.tree) }
    ensures chosen { IfSome result (λ pair. let t = tree_of mapped.now.decision.tree in
        IsChosen (pairs_of mode t k) t seen.now k pair.0 pair.1) }
    ensures none { IfNone result (let t = tree_of mapped.now.decision.tree in
        NonePaired (pairs_of mode t k) t seen.now) }
{
    let tree = &mapped.decision.tree;
    match mode {
        Mode::Unique => unique_pair(tree, &mapped.numbering, seen, k),
        Mode::Masking => masking_pair(tree, &mapped.numbering, seen, k),
    }
}

/// The test of a path that has one.
fn test_at(tests: &[Option<u32>], path: u32) -> u32
    requires { (t : ℕ) × IsAt tests.now path t }
    ensures { IsAt tests.now path result }
{
    match tests[path as usize] {
        Some(test) => test,
        None => unreachable!(),
    }
}
