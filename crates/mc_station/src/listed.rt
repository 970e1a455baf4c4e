//! Sources that can be listed.
ghost use Rattle.std.specs.Prelude.{◌≡◌, ◌≤◌, length};
ghost use Rattle.mc_limits.specs.Limits.{most_source_bytes};

use mc_oblige::{Obligation, Verdict};

/// A source with the verdicts on its obligations.
#[derive(Drop)]
pub struct Listed<'a> {
    pub source: &'a [u8],
    pub obligations: Vec<Obligation>,
    pub verdicts: Vec<Verdict>,
    ghost short: { length source.now ≤ most_source_bytes },
    ghost same: { length obligations.items ≡ length verdicts.items },
}
