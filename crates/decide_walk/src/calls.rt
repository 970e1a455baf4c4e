//! Which parts of a call are walked.
ghost use Rattle.std.specs.Prelude.{◌≡◌, map};
ghost use Rattle.mc_typed.specs.Views.{argument_of, arguments_from, call_of};
ghost use Rattle.decide_rules.specs.Nodes.{arguments, call_parts};

use mc_typed::{Argument, FunctionCall};

/// The parts of a call, in the order of the text: its arguments.
pub fn call_parts(call: &FunctionCall) -> &[Argument]
    ensures all { result.now ≡ call.now.arguments.items }
    ensures parts { arguments (arguments_from (map argument_of result.now))
        ≡ call_parts (call_of call.now) }
{
    call.arguments.as_slice()
}
