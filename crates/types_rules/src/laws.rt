//! Laws of what is counted. The functions do nothing: each has a law as its contract.
ghost use Rattle.types_rules.specs.Profile.{SumsAreExact};

/// Cells in all are counted exactly as long as they are fewer than 2^64 - 1.
pub fn sums_are_exact()
    ensures { SumsAreExact }
{}
