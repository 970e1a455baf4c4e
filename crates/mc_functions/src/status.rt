//! The status of the counts.
ghost use Rattle.std.specs.Prelude.{◌≡◌, length};
ghost use Rattle.std.specs.List.{list_all};
ghost use Rattle.mc_functions.specs.Seen.{measured_of};
ghost use Rattle.mc_functions.specs.Status.{passed, status_of};

use crate::measured::Measured;
use mc_typed::TestState;

fn passed(state: TestState) -> bool
    ensures { result ≡ passed state }
{
    match state {
        TestState::Pass => true,
        TestState::Fail | TestState::Ended(_) => false,
    }
}

fn all_passed(states: &[TestState]) -> bool
    ensures { result ≡ list_all passed states.now }
{
    states.iter().all(|state| passed(*state))
}

/// 0 where all tests passed and none of the obligations that are counted is missing or stale,
/// else 1. Takes no memory.
pub fn functions_status(measured: &Measured<'_>) -> u8
    requires { let m = measured_of measured.now in length m.verdicts ≡ length m.obligations }
    ensures { result ≡ status_of (measured_of measured.now) }
{
    if all_passed(measured.states) && measured.all_counts().is_settled() {
        0
    } else {
        1
    }
}
