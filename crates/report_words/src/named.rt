//! The states that words name.
ghost use Rattle.std.specs.Prelude.{◌≡◌};
ghost use Rattle.report_words.specs.Named.{state_among, state_named};

use crate::words::state_word;
use mc_typed::{Ending, TestState};
use mc_value::Trap;

/// The states that have words.
static STATES: [TestState; 13] = [
    TestState::Pass,
    TestState::Fail,
    TestState::Ended(Ending::Trap(Trap::Overflow)),
    TestState::Ended(Ending::Trap(Trap::Division)),
    TestState::Ended(Ending::Trap(Trap::Shift)),
    TestState::Ended(Ending::Trap(Trap::Index)),
    TestState::Ended(Ending::Trap(Trap::Unset)),
    TestState::Ended(Ending::Trap(Trap::NoReturn)),
    TestState::Ended(Ending::Trap(Trap::InputEnd)),
    TestState::Ended(Ending::Fuel),
    TestState::Ended(Ending::Levels),
    TestState::Ended(Ending::Cells),
    TestState::Ended(Ending::OutputFull),
];

fn state_among(states: &[TestState], word: &[u8]) -> Option<TestState>
    ensures { result ≡ state_among states.now word.now }
{
    let mut left = states;
    while let [state, later @ ..] = left {
        if state_word(*state).as_bytes() == word {
            return Some(*state);
        }
        left = later;
    }
    None
}

/// The state that a word names, where it names one; the empty word does not. Takes no memory.
#[tactic(auto, unfolding(crate::specs::Named::state_named))]
pub fn state_named(word: &[u8]) -> Option<TestState>
    ensures { result ≡ state_named word.now }
{
    state_among(&STATES, word)
}
