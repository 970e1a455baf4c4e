//! Decisions. The function does nothing: it has a law as its contract.
ghost use Rattle.laws_cases.specs.Decisions.{LargeIsAtItsRoot};

/// A decision with too many conditions is told at its own root, also behind another decision.
pub fn large_is_at_its_root()
    ensures { LargeIsAtItsRoot }
{}
