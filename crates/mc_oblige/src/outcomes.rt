//! The evidence of a decision's outcomes.
ghost use Rattle.std.specs.Prelude.{◌≡◌, ℕ, ◌↔◌, Some, length};
ghost use Rattle.mc_cond.specs.Tree.{tree_of};
ghost use Rattle.mc_paths.specs.Paths.{count_of, IsInUse};
ghost use Rattle.mc_oblige.specs.steps.Table.{AreInUse, HasOutcome, HasTest, IsLeastBelow, lesser_of};
ghost use Rattle.mc_oblige.specs.steps.Found.{IsFoundOutcome};

use crate::table::one_or_absent;
use crate::verdict::Evidence;
use mc_paths::Numbering;

/// The least test of the paths with this outcome.
pub(crate) fn outcome_evidence(
    numbering: &Numbering,
    tests: &[Option<u32>],
    outcome: bool,
) -> Evidence
    requires count { length tests.now ≡ count_of (tree_of numbering.now) }
    requires used { AreInUse (tree_of numbering.now) tests.now }
    ensures { IsFoundOutcome (tree_of numbering.now) tests.now outcome result }
{
    one_or_absent(least_with(numbering, tests, outcome))
}

fn least_with(numbering: &Numbering, tests: &[Option<u32>], outcome: bool) -> Option<u32>
    requires count { length tests.now ≡ count_of (tree_of numbering.now) }
    requires used { AreInUse (tree_of numbering.now) tests.now }
    ensures { IsLeastBelow (HasTest (tree_of numbering.now) tests.now outcome) (length tests.now)
        result }
{
    let paths = numbering.count();
    let mut least = None;
    for path in 0..paths {
        least = lesser(
            least,
            test_with(numbering, path, tests[path as usize], outcome),
        );
    }
    least
}

/// The test of the path, where the path has this outcome.
fn test_with(numbering: &Numbering, path: u32, test: Option<u32>, outcome: bool) -> Option<u32>
    requires { (t : ℕ) → test ≡ Some t → IsInUse (tree_of numbering.now) path }
    ensures { (t : ℕ) → (result ≡ Some t)
        ↔ ((test ≡ Some t) × HasOutcome (tree_of numbering.now) outcome path) }
{
    let own = test?;
    if numbering.outcome_of(path) == outcome {
        Some(own)
    } else {
        None
    }
}

fn lesser(one: Option<u32>, other: Option<u32>) -> Option<u32>
    ensures { result ≡ lesser_of one other }
{
    match (one, other) {
        (None, least) => least,
        (least, None) => least,
        (Some(one), Some(other)) => Some(one.min(other)),
    }
}
