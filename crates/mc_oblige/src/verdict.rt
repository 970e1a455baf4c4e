//! Verdicts on obligations.
ghost use Rattle.std.specs.Prelude.{◌≡◌};
ghost use Rattle.mc_oblige.specs.Verdicts.{is_shown, state_of};
ghost use Rattle.mc_oblige.specs.steps.Named.{unnamed, named_by};

use crate::justification::Reason;

/// Whether an obligation is shown, and whether a justification names it.
#[derive(Clone, Copy, Debug, PartialEq, Eq)]
pub enum VerdictState {
    /// Shown, and not named.
    Met,
    /// Named, and not shown.
    Justified,
    /// Shown, and yet named.
    Stale,
    /// Neither shown nor named.
    Missing,
}

/// What shows an obligation.
#[derive(Clone, Copy, Debug, PartialEq, Eq)]
pub enum Evidence {
    /// Nothing does.
    Absent,
    /// The least test under which it is shown.
    One {
        test: u32,
    },
    /// For a condition: the paths of two evaluations of its decision, and the least test of each.
    Pair {
        first: u32,
        first_test: u32,
        second: u32,
        second_test: u32,
    },
}

/// The verdict on an obligation, with its evidence, and the reason of its justification.
#[derive(Drop)]
pub struct Verdict {
    pub state: VerdictState,
    pub evidence: Evidence,
    pub reason: Option<Reason>,
}

impl Evidence {
    fn is_shown(self) -> bool
        ensures { result ≡ is_shown self }
    {
        match self {
            Evidence::Absent => false,
            Evidence::One { .. } | Evidence::Pair { .. } => true,
        }
    }
}

impl Verdict {
    /// The verdict where no justification names the obligation.
    pub(crate) fn unnamed(evidence: Evidence) -> Verdict
        ensures { result ≡ unnamed evidence }
    {
        Verdict {
            state: state(evidence.is_shown(), false),
            evidence,
            reason: None,
        }
    }

    /// Names the obligation.
    pub(crate) fn justify(&mut self, reason: Reason)
        ensures { self.new ≡ named_by reason self.old }
    {
        self.state = state(self.evidence.is_shown(), true);
        self.reason = Some(reason);
    }
}

fn state(shown: bool, named: bool) -> VerdictState
    ensures { result ≡ state_of shown named }
{
    match (shown, named) {
        (true, false) => VerdictState::Met,
        (true, true) => VerdictState::Stale,
        (false, true) => VerdictState::Justified,
        (false, false) => VerdictState::Missing,
    }
}
