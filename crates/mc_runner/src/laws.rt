//! What follows from the definitions. The functions do nothing: each has a law as its contract.
ghost use Rattle.mc_runner.specs.Laws.{BitsStand, ClosedIsRecorded, EventsStand, ResultsArePlain};

/// Once all tests are claimed and run, the matrix of a closer has the bits of their runs, but for
/// the tests that the closer skips.
pub fn closed_is_recorded()
    ensures { ClosedIsRecorded }
{}

/// For a sound program, its instrumented tree and tests that fit it: the matrix of the tests' runs
/// has exactly the events of the plain runs of those that are not skipped, each under its test.
pub fn events_stand()
    ensures { EventsStand }
{}

/// For the same: the matrix holds exactly the bits of these events.
pub fn bits_stand()
    ensures { BitsStand }
{}

/// For a sound program, its instrumented tree and tests that fit it: what is told of the tests'
/// runs is what is to be told of their plain runs.
pub fn results_are_plain()
    ensures { ResultsArePlain }
{}
