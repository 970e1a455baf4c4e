//! The states of tests.
ghost use Rattle.std.specs.Prelude.{◌≡◌};
ghost use Rattle.mc_meaning.specs.Tests.{state_where};

use mc_typed::{Ending, TestState};

/// The state of a test whose run ended so, by whether each of its calls met what is expected of
/// it. Takes no memory.
pub fn state_where(ending: Ending, are_met: bool) -> TestState
    ensures { result ≡ state_where ending are_met }
{
    match ending {
        Ending::Returned => {
            if are_met {
                TestState::Pass
            } else {
                TestState::Fail
            }
        }
        Ending::Trap(_) | Ending::Fuel | Ending::Levels | Ending::Cells | Ending::OutputFull =>
            TestState::Ended(ending),
    }
}
