//! Where runs stop.
ghost use Rattle.std.specs.Prelude.{◌≡◌, List};
ghost use Rattle.interp_trail.specs.declared.activation.Activation.{Activation};
ghost use Rattle.interp_trail.specs.Kept.{open_in};
ghost use Rattle.interp_trail.specs.Stops.{in_activation, in_call, stop_among};

use crate::activation::Activation;
use mc_typed::Ending;

/// Where the run of a test stopped, by the number of a function, an exit or a counted statement.
#[derive(Clone, Copy, Debug, PartialEq, Eq)]
pub enum Stop {
    /// The test made a call that could not be entered.
    NotEntered,
    /// In an activation of this function, before a counted statement of it began.
    AfterEntry(u32),
    /// In an activation in which this counted statement was the last to begin.
    AfterStatement(u32),
    /// At the end of a call of the test that had this exit, and did not return a value.
    AfterExit(u32),
}

/// Where a run stopped that ended so in this inner activation, where one is open.
pub(crate) fn stop_among(ending: Ending, inner: Option<Activation>, exit: Option<u32>) -> Stop
    ensures { (around : List Activation) → result ≡ stop_among ending (open_in inner around) exit }
{
    match inner {
        Some(activation) => in_activation(activation),
        None => in_call(ending, exit),
    }
}

fn in_activation(activation: Activation) -> Stop
    ensures { result ≡ in_activation activation.function activation.statement }
{
    match activation.statement {
        Some(statement) => Stop::AfterStatement(statement),
        None => Stop::AfterEntry(activation.function),
    }
}

fn in_call(ending: Ending, exit: Option<u32>) -> Stop
    ensures { result ≡ in_call ending exit }
{
    match (ending, exit) {
        (Ending::Trap(_), Some(exit)) => Stop::AfterExit(exit),
        _ => Stop::NotEntered,
    }
}
