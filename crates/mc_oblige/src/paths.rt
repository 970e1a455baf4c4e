//! The least tests of the paths of decisions.
ghost use Rattle.std.specs.Prelude.{◌≡◌, ◌+◌, ◌≤◌, length, drop, IfOk};
ghost use Rattle.mc_limits.specs.Limits.{most_paths};
ghost use Rattle.mc_cond.specs.Tree.{tree_of};
ghost use Rattle.mc_paths.specs.Paths.{count_of};
ghost use Rattle.mc_oblige.specs.steps.Table.{IsTestOf, AreTestsOf};

use mc_paths::Numbering;
use mc_probe::MappedDecision;
use std::alloc::{AllocError, Global};

/// The least tests of the paths of a decision, from those of all bits. A number that is idle is no
/// path, so it has no test, whatever a matrix holds at its bit.
pub(crate) fn path_tests(
    alloc: Global,
    mapped: &MappedDecision,
    tests: &[Option<u32>],
) -> Result<Vec<Option<u32>>, AllocError>
    requires { mapped.now.base + count_of (tree_of mapped.now.decision.tree) ≤ length tests.now }
    ensures own { IfOk result (λ v. let t = tree_of mapped.now.decision.tree in
        AreTestsOf t (drop mapped.now.base tests.now) (count_of t) v.items) }
    ensures few { IfOk result (λ v. length v.items ≤ most_paths) }
{
    let own = &tests[mapped.base as usize..];
    tests_in_use(alloc, &mapped.numbering, own)
}

/// The tests of the numbers that are in use.
fn tests_in_use(
    alloc: Global,
    numbering: &Numbering,
    tests: &[Option<u32>],
) -> Result<Vec<Option<u32>>, AllocError>
    requires { count_of (tree_of numbering.now) ≤ length tests.now }
    ensures own { IfOk result (λ v. let t = tree_of numbering.now in
        AreTestsOf t tests.now (count_of t) v.items) }
    ensures few { IfOk result (λ v. length v.items ≤ most_paths) }
{
    let mut found = Vec::new(alloc);
    for path in 0..numbering.count() {
        found.push(test_in_use(numbering, path, tests[path as usize]))?;
    }
    Ok(found)
}

/// The test of a number that is in use.
fn test_in_use(numbering: &Numbering, path: u32, test: Option<u32>) -> Option<u32>
    ensures { IsTestOf (tree_of numbering.now) path test result }
{
    if numbering.in_use(path) { test } else { None }
}
