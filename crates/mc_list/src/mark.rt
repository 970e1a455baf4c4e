//! The mark of a line.
ghost use Rattle.std.specs.Prelude.{◌≡◌};
ghost use Rattle.mc_list.specs.Marks.{byte_of, mark_of, rank_of, worse_of};

use mc_oblige::VerdictState;

/// What a line is marked with.
#[derive(Clone, Copy, Debug, PartialEq, Eq)]
pub(crate) enum Mark {
    /// No obligation begins there.
    Clear,
    /// The worst verdict of those that do.
    Met,
    Justified,
    Stale,
    Missing,
}

impl Mark {
    fn rank(self) -> u8
        ensures { result ≡ rank_of self }
    {
        match self {
            Mark::Clear => 0,
            Mark::Met => 1,
            Mark::Justified => 2,
            Mark::Stale => 3,
            Mark::Missing => 4,
        }
    }

    /// The worse of two marks.
    pub(crate) fn worse(self, other: Mark) -> Mark
        ensures { result ≡ worse_of self other }
    {
        if self.rank() < other.rank() {
            other
        } else {
            self
        }
    }

    /// The byte that is written.
    pub(crate) fn byte(self) -> u8
        ensures { result ≡ byte_of self }
    {
        match self {
            Mark::Clear => b' ',
            Mark::Met => b'+',
            Mark::Justified => b'j',
            Mark::Stale => b'~',
            Mark::Missing => b'!',
        }
    }
}

pub(crate) fn mark_of(state: VerdictState) -> Mark
    ensures { result ≡ mark_of state }
{
    match state {
        VerdictState::Met => Mark::Met,
        VerdictState::Justified => Mark::Justified,
        VerdictState::Stale => Mark::Stale,
        VerdictState::Missing => Mark::Missing,
    }
}
