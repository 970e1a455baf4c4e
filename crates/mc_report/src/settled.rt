//! The status of a report.
ghost use Rattle.std.specs.Prelude.{◌≡◌, count_by};
ghost use Rattle.std.specs.List.{list_all};
ghost use Rattle.mc_report.specs.Seen.{report_of};
ghost use Rattle.mc_report.specs.Status.{passed, is_settled, status_of};

use crate::counts::one_where;
use crate::report::Report;
use mc_oblige::{Verdict, VerdictState};
use mc_typed::TestState;
use told_lines::passed;

/// 0 where all tests passed and no obligation is missing or stale, else 1. Takes no memory.
pub fn status(report: &Report<'_>) -> u8
    ensures { result ≡ status_of (report_of report.now) }
{
    if all_passed(&report.states) && all_settled(&report.verdicts) {
        0
    } else {
        1
    }
}

/// Whether all tests passed. Takes no memory.
pub fn all_passed(states: &[TestState]) -> bool
    ensures { result ≡ list_all passed states.now }
{
    states.iter().all(|state| passed(*state))
}

/// How many tests passed.
pub(crate) fn passed_count(states: &[TestState]) -> usize
    ensures { result ≡ count_by passed states.now }
{
    let mut count = 0;
    for state in states {
        count += one_where(passed(*state));
    }
    count
}

fn all_settled(verdicts: &[Verdict]) -> bool
    ensures { result ≡ list_all (λ v. is_settled v.state) verdicts.now }
{
    verdicts.iter().all(|verdict| is_settled(verdict.state))
}

fn is_settled(state: VerdictState) -> bool
    ensures { result ≡ is_settled state }
{
    match state {
        VerdictState::Met | VerdictState::Justified => true,
        VerdictState::Stale | VerdictState::Missing => false,
    }
}
