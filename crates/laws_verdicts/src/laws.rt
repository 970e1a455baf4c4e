//! The functions do nothing: each has a law as its contract.
ghost use Rattle.laws_verdicts.specs.Cases.{
  FailuresAreCounted,
  LastFailureIsCounted,
  OneEventIsNoPair,
  WantPutsNothing,
};
ghost use Rattle.laws_verdicts.specs.Names.{NamesAreApart};
ghost use Rattle.laws_verdicts.specs.Counts.{CountsAddUp, KindsAddUp, StatusIsCounted};

/// No two obligations of a map have one name.
pub fn names_are_apart()
    ensures { NamesAreApart }
{}

/// The four counts of a kind add up to its total.
pub fn counts_add_up()
    ensures { CountsAddUp }
{}

/// The totals of the six kinds add up to the number of obligations.
pub fn kinds_add_up()
    ensures { KindsAddUp }
{}

/// A report has the status 0 exactly where all tests passed and each kind has no obligation that
/// is stale or missing, and else the status 1.
pub fn status_is_counted()
    ensures { StatusIsCounted }
{}

/// No event alone shows a condition.
pub fn one_event_is_no_pair()
    ensures { OneEventIsNoPair }
{}

/// Where a report is not written, nothing was put for want of memory, and else the sink's count of
/// faults rose.
pub fn failures_are_told()
    ensures want { WantPutsNothing }
    ensures count { FailuresAreCounted }
{}

/// The same of a sink whose count can rise once more, and no further.
pub fn last_failure_is_told()
    ensures { LastFailureIsCounted }
{
    failures_are_told();
}
