//! The evidence of a decision's obligations.
ghost use Rattle.std.specs.Prelude.{◌≡◌, ◌≤◌, length, IfOk};
ghost use Rattle.mc_limits.specs.Limits.{most_paths};
ghost use Rattle.mc_cond.specs.Tree.{tree_of};
ghost use Rattle.mc_paths.specs.Paths.{count_of};
ghost use Rattle.mc_oblige.specs.steps.Table.{AreInUse};
ghost use Rattle.mc_oblige.specs.steps.Found.{AreFound};

use crate::conditions::condition_evidence;
use crate::outcomes::outcome_evidence;
use crate::verdict::Evidence;
use mc_probe::MappedDecision;
use report_options::Mode;
use std::alloc::{AllocError, Global};

/// The evidence of the outcomes, true first, and of the conditions. `tests` has the least test of
/// each path.
pub(crate) fn decision_evidence(
    alloc: Global,
    mapped: &MappedDecision,
    tests: &[Option<u32>],
    mode: Mode,
) -> Result<Vec<Evidence>, AllocError>
    requires count { length tests.now ≡ count_of (tree_of mapped.now.decision.tree) }
    requires few { length tests.now ≤ most_paths }
    requires used { AreInUse (tree_of mapped.now.decision.tree) tests.now }
    ensures { IfOk result (λ v.
        AreFound mode (tree_of mapped.now.decision.tree) tests.now v.items) }
{
    let on_true = outcome_evidence(&mapped.numbering, tests, true);
    let on_false = outcome_evidence(&mapped.numbering, tests, false);
    let conditions = condition_evidence(alloc, mapped, tests, mode)?;
    let mut found = vec![in alloc; on_true, on_false]?;
    found.extend_from_slice(&conditions)?;
    Ok(found)
}
