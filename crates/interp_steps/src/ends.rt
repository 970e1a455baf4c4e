//! How the parts of a body end.
ghost use Rattle.std.specs.Prelude.{◌≡◌};
ghost use Rattle.interp_steps.specs.Ends as ends;

/// How a statement ended. What a `return` gave is kept elsewhere.
#[derive(Clone, Copy)]
pub enum Flow {
    Completed,
    Broke,
    Continued,
    Left,
}

/// How a loop ends after its body ended so, if it does: `continue` ends the body alone, `break` the
/// loop.
#[inline(always)]
pub fn loop_end(flow: Flow) -> Option<Flow>
    ensures { result ≡ ends.loop_end flow }
{
    match flow {
        Flow::Completed | Flow::Continued => None,
        Flow::Broke => Some(Flow::Completed),
        Flow::Left => Some(Flow::Left),
    }
}
