//! The functions do nothing: each has a law as its contract.
ghost use Rattle.laws_recorded.specs.Recorded.{EventsAreKept, PathsAreKept, RunsAreRecorded, VerdictsAreKept};

use mc_runner::bits_stand;

/// What the runs of tests hit on an instrumented program is a matrix of the bits of the events that
/// stand.
pub fn runs_are_recorded()
    ensures { RunsAreRecorded }
{
    bits_stand();
}

/// A matrix of the bits of the events that stand has an event under a test exactly where it stands
/// there in the plain runs.
pub fn events_are_kept()
    ensures { EventsAreKept }
{}

/// The verdicts by such a matrix are those by the plain runs: states, evidence and reasons.
pub fn verdicts_are_kept()
    ensures { VerdictsAreKept }
{}

/// The paths that such a matrix has evaluated are those of the plain runs, each with its least test.
pub fn paths_are_kept()
    ensures { PathsAreKept }
{}
