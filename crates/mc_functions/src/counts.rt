//! How many obligations have which verdict.
ghost use Rattle.std.specs.Prelude.{◌≡◌, ◌+◌, ◌<◌, ◌≤◌, ◌^◌};
ghost use Rattle.mc_functions.specs.Counts.{of_verdict, percentage, total};
ghost use Rattle.mc_functions.specs.Status.{is_settled};
ghost use Rattle.mc_functions.specs.steps.Table.{no_counts, one_more};

use mc_oblige::VerdictState;

/// How many have each verdict.
#[derive(Clone, Copy)]
pub(crate) struct Counts {
    pub(crate) met: usize,
    pub(crate) justified: usize,
    pub(crate) stale: usize,
    pub(crate) missing: usize,
}

impl Counts {
    /// Of no obligation.
    pub(crate) fn none() -> Counts
        ensures { result ≡ no_counts }
    {
        Counts {
            met: 0,
            justified: 0,
            stale: 0,
            missing: 0,
        }
    }

    /// With one more of this verdict.
    pub(crate) fn with(self, state: VerdictState) -> Counts
        requires { of_verdict state self + 1 < 2 ^ 64 }
        ensures { result ≡ one_more state self }
    {
        let mut counts = self;
        match state {
            VerdictState::Met => counts.met += 1,
            VerdictState::Justified => counts.justified += 1,
            VerdictState::Stale => counts.stale += 1,
            VerdictState::Missing => counts.missing += 1,
        }
        counts
    }

    /// How many there are; no such sum is too great for 128 bits.
    pub(crate) fn total(self) -> u128
        ensures value { result ≡ total self }
        ensures small { result < 2 ^ 66 }
    {
        self.met as u128 + self.justified as u128 + self.stale as u128 + self.missing as u128
    }

    /// The part that is met, in whole hundredths, rounded down.
    pub(crate) fn percentage(self) -> u128
        requires { 1 ≤ total self }
        ensures { result ≡ percentage self }
    {
        self.met as u128 * 100 / self.total()
    }

    /// Whether none is missing or stale.
    pub(crate) fn is_settled(self) -> bool
        ensures { result ≡ is_settled self }
    {
        self.stale == 0 && self.missing == 0
    }
}
