//! What is counted of a measured program.
ghost use Rattle.std.specs.Prelude.{◌≡◌, length, if◌then◌else◌};
ghost use Rattle.mc_functions.specs.Counts.{counted, is_verdict};
ghost use Rattle.mc_functions.specs.Measured.{all_counts, elsewhere, is_counted};
ghost use Rattle.mc_functions.specs.Seen.{measured_of};

use crate::counts::Counts;
use mc_oblige::{Obligation, Verdict, VerdictState};
use mc_places::Places;
use mc_typed::TestState;

/// The places of the source, its obligations with a verdict for each, how the tests ended, and the
/// file whose obligations are counted, or none for all.
#[derive(Clone, Copy)]
pub struct Measured<'a> {
    pub places: &'a Places<'a>,
    pub obligations: &'a [Obligation],
    pub verdicts: &'a [Verdict],
    pub states: &'a [TestState],
    pub file: Option<&'a [u8]>,
}

pub(crate) fn is_verdict(one: VerdictState, other: VerdictState) -> bool
    ensures { result ≡ is_verdict one other }
{
    match (one, other) {
        (VerdictState::Met, VerdictState::Met) => true,
        (VerdictState::Justified, VerdictState::Justified) => true,
        (VerdictState::Stale, VerdictState::Stale) => true,
        (VerdictState::Missing, VerdictState::Missing) => true,
        _ => false,
    }
}

/// 1 where it holds, else 0.
fn one_where(holds: bool) -> usize
    ensures { result ≡ (if holds then 1 else 0) }
{
    if holds { 1 } else { 0 }
}

impl<'a> Measured<'a> {
    /// Whether the obligation is one of those that are counted.
    pub(crate) fn is_counted(&self, obligation: &Obligation) -> bool
        ensures { result ≡ is_counted (measured_of self.now) obligation.now }
    {
        match self.file {
            Some(name) => self.places.stands_in(name, obligation.span.start),
            None => true,
        }
    }

    /// How many of those that are counted have this verdict.
    fn counted(&self, state: VerdictState) -> usize
        requires { let m = measured_of self.now in length m.verdicts ≡ length m.obligations }
        ensures { let m = measured_of self.now in
            result ≡ counted (is_counted m) state m.obligations m.verdicts }
    {
        let mut count = 0;
        let mut obligations = self.obligations;
        let mut verdicts = self.verdicts;
        while let [obligation, later_obligations @ ..] = obligations {
            let [verdict, later_verdicts @ ..] = verdicts else {
                unreachable!();
            };
            count += one_where(self.is_counted(obligation) && is_verdict(state, verdict.state));
            obligations = later_obligations;
            verdicts = later_verdicts;
        }
        count
    }

    /// The counts of all that is counted.
    pub(crate) fn all_counts(&self) -> Counts
        requires { let m = measured_of self.now in length m.verdicts ≡ length m.obligations }
        ensures { result ≡ all_counts (measured_of self.now) }
    {
        Counts {
            met: self.counted(VerdictState::Met),
            justified: self.counted(VerdictState::Justified),
            stale: self.counted(VerdictState::Stale),
            missing: self.counted(VerdictState::Missing),
        }
    }

    /// How many others there are.
    pub(crate) fn elsewhere(&self) -> usize
        ensures { result ≡ elsewhere (measured_of self.now) }
    {
        let mut count = 0;
        for obligation in self.obligations {
            if !self.is_counted(obligation) {
                count += 1;
            }
        }
        count
    }
}
