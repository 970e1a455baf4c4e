//! What the seen paths of a decision show.
ghost use Rattle.std.specs.Prelude.{◌≡◌, ◌+◌, ◌<◌, ◌≤◌, ◌↔◌, All, Contains, IsTrue};
ghost use Rattle.std.specs.List.Sorted.{IsStrictlyIncreasing};
ghost use Rattle.mc_cond.specs.Tree.{tree_of, size};
ghost use Rattle.mc_paths.specs.Paths.{count_of};
ghost use Rattle.mc_oblige.specs.steps.Table.{HasOutcome};
ghost use Rattle.mc_reduce.specs.steps.Bits.{HasOutcomeOn, HasPairOn, ShowAt};

use crate::hint::Hint;
use crate::pairs::any_pair;
use mc_oblige::Mode;
use mc_probe::MappedDecision;

/// How many obligations a decision has: two outcomes, and its conditions.
pub(crate) fn obligation_count(mapped: &MappedDecision) -> u32
    ensures value { result ≡ 2 + size (tree_of mapped.now.decision.tree) }
    ensures few { result ≤ 66 }
{
    2 + mapped.numbering.conditions()
}

/// How many numbers the paths of a decision have. Some may be idle.
pub(crate) fn path_count(mapped: &MappedDecision) -> u32
    ensures { result ≡ count_of (tree_of mapped.now.decision.tree) }
{
    mapped.numbering.count()
}

/// Whether these paths show an obligation of the decision: the true outcome, the false one, and
/// then the conditions. The hint says where to look for the pair of a condition, and then where it
/// was found.
pub(crate) fn is_shown(
    mapped: &MappedDecision,
    seen: &[u32],
    mode: Mode,
    at: u32,
    hint: &mut Option<Hint>,
) -> bool
    requires ascending { IsStrictlyIncreasing seen.now }
    requires paths { All (λ path. path < count_of (tree_of mapped.now.decision.tree)) seen.now }
    requires at { at < 2 + size (tree_of mapped.now.decision.tree) }
    ensures { IsTrue result
        ↔ ShowAt (Contains seen.now) mode (tree_of mapped.now.decision.tree) at }
{
    match at {
        0 => has_outcome(mapped, seen, true),
        1 => has_outcome(mapped, seen, false),
        _ => has_pair(mapped, seen, mode, at - 2, hint),
    }
}

fn has_outcome(mapped: &MappedDecision, seen: &[u32], outcome: bool) -> bool
    ensures { IsTrue result
        ↔ HasOutcomeOn (Contains seen.now) (tree_of mapped.now.decision.tree) outcome }
{
    for path in seen {
        if is_outcome_of(mapped, *path, outcome) {
            return true;
        }
    }
    false
}

/// Whether the path has this outcome. A number that is idle is no path, and has none.
fn is_outcome_of(mapped: &MappedDecision, path: u32, outcome: bool) -> bool
    ensures { IsTrue result
        ↔ HasOutcome (tree_of mapped.now.decision.tree) outcome path }
{
    if !mapped.numbering.in_use(path) {
        return false;
    }
    mapped.numbering.outcome_of(path) == outcome
}

fn has_pair(
    mapped: &MappedDecision,
    seen: &[u32],
    mode: Mode,
    k: u32,
    hint: &mut Option<Hint>,
) -> bool
    requires ascending { IsStrictlyIncreasing seen.now }
    requires paths { All (λ path. path < count_of (tree_of mapped.now.decision.tree)) seen.now }
    requires condition { k < size (tree_of mapped.now.decision.tree) }
    ensures { IsTrue result
        ↔ HasPairOn (Contains seen.now) mode (tree_of mapped.now.decision.tree) k }
{
    match any_pair(mapped, seen, mode, k, *hint) {
        Some(pair) => {
            *hint = Some(pair);
            true
        }
        None => false,
    }
}
