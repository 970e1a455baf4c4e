//! Tests that a closer skips. The function does nothing: it has laws as its contract.
ghost use Rattle.laws_cases.specs.Skipped.{FirstIsNotSkipped, SkippedShowNothing};

/// A test that is skipped shows nothing, and the others show what they show without it.
pub fn skipped_show_nothing()
    ensures all { SkippedShowNothing }
    ensures two { FirstIsNotSkipped }
{}
