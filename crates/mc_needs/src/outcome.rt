//! What an outcome of a decision needs.
ghost use Rattle.std.specs.Prelude.{◌≡◌, ◌↔◌, IsTrue};
ghost use Rattle.mc_cond.specs.Tree.{tree_of};
ghost use Rattle.mc_oblige.specs.Evidence.{IsLeast};
ghost use Rattle.mc_needs.specs.Needs.{Gives};

use mc_probe::MappedDecision;

/// The least path with this outcome. Each decision has one.
pub(crate) fn least_with(mapped: &MappedDecision, outcome: bool) -> u32
    ensures { IsLeast (Gives (tree_of mapped.now.decision.tree) outcome) result }
{
    for path in 0..mapped.numbering.count() {
        if gives(mapped, path, outcome) {
            return path;
        }
    }
    unreachable!()
}

/// Whether the path has this outcome. A number that is idle is no path, and has none.
fn gives(mapped: &MappedDecision, path: u32, outcome: bool) -> bool
    ensures { IsTrue result ↔ Gives (tree_of mapped.now.decision.tree) outcome path }
{
    if !mapped.numbering.in_use(path) {
        return false;
    }
    mapped.numbering.outcome_of(path) == outcome
}
