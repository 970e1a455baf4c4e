//! The words of a report.
ghost use Rattle.std.specs.Prelude.{◌≡◌};
ghost use Rattle.mc_report.specs.Words.{mode_word, verdict_word};

use mc_oblige::{Mode, VerdictState};

pub(crate) fn mode_word(mode: Mode) -> &'static str
    ensures { result.now ≡ mode_word mode }
{
    match mode {
        Mode::Unique => "unique",
        Mode::Masking => "masking",
    }
}

pub(crate) fn verdict_word(state: VerdictState) -> &'static str
    ensures { result.now ≡ verdict_word state }
{
    match state {
        VerdictState::Met => "met",
        VerdictState::Justified => "justified",
        VerdictState::Stale => "stale",
        VerdictState::Missing => "missing",
    }
}
