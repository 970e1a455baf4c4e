//! Tests that are compared with what is expected of them, call by call.
ghost use Rattle.std.specs.Prelude.{◌≡◌, ◌∷◌, [], List, map};
ghost use Rattle.mc_typed.specs.Plans.{plan_call_of};
ghost use Rattle.mc_steps.specs.Tests.{CallDone};
ghost use Rattle.mc_meaning.specs.Tests.{are_met};
ghost use Rattle.runner_steps.specs.Compared.{is_met_with};

use crate::expected::is_met;
use crate::output::part;
use mc_typed::Call;

/// A test that is compared up to some call: the calls that are left, the output of all, where the
/// output of the next call begins, and whether each call so far met what is expected of it.
#[derive(Clone, Copy)]
pub struct Comparison<'t> {
    pub calls: &'t [Call],
    pub output: &'t [i32],
    pub begin: u32,
    pub are_met: bool,
}

impl<'t> Comparison<'t> {
    /// No call is compared yet.
    pub fn new(calls: &'t [Call], output: &'t [i32]) -> Comparison<'t>
        ensures { (done : List CallDone) → is_met_with result done
            ≡ are_met (map plan_call_of calls.now) done 0 output.now }
    {
        Comparison {
            calls,
            output,
            begin: 0,
            are_met: true,
        }
    }

    /// The next call returned this value, and the output had this many numbers then. Takes no
    /// memory.
    pub fn after(self, value: Option<i128>, output_end: u32) -> Comparison<'t>
        ensures { (done : List CallDone) → is_met_with result done
            ≡ is_met_with self.entry (record { value = value; output_end = output_end } ∷ done) }
    {
        let [call, later @ ..] = self.calls else {
            return self;
        };
        let numbers = part(self.output, self.begin, output_end);
        Comparison {
            calls: later,
            output: self.output,
            begin: output_end,
            are_met: self.are_met && is_met(call, value, numbers),
        }
    }

    /// Whether each call meets what is expected of it, where no more calls returned. Takes no
    /// memory.
    pub fn is_met(self) -> bool
        ensures { result ≡ is_met_with self.entry [] }
    {
        match self.calls {
            [] => self.are_met,
            [_call, ..] => false,
        }
    }
}
