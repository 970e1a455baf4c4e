//! The words of states.
ghost use Rattle.std.specs.Prelude.{◌≡◌};
ghost use Rattle.report_words.specs.Words.{ending_word, state_word, trap_word};

use mc_typed::{Ending, TestState};
use mc_value::Trap;

/// The word of a state. Takes no memory.
pub fn state_word(state: TestState) -> &'static str
    ensures { result.now ≡ state_word state }
{
    match state {
        TestState::Pass => "pass",
        TestState::Fail => "fail",
        TestState::Ended(ending) => ending_word(ending),
    }
}

/// The word of an ending, which is empty where each call returned. Takes no memory.
pub fn ending_word(ending: Ending) -> &'static str
    ensures { result.now ≡ ending_word ending }
{
    match ending {
        Ending::Returned => "",
        Ending::Trap(trap) => trap_word(trap),
        Ending::Fuel => "fuel",
        Ending::Levels => "levels",
        Ending::Cells => "cells",
        Ending::OutputFull => "output-full",
    }
}

/// The word of a trap. Takes no memory.
pub fn trap_word(trap: Trap) -> &'static str
    ensures { result.now ≡ trap_word trap }
{
    match trap {
        Trap::Overflow => "trap-overflow",
        Trap::Division => "trap-division",
        Trap::Shift => "trap-shift",
        Trap::Index => "trap-index",
        Trap::Unset => "trap-unset",
        Trap::NoReturn => "trap-no-return",
        Trap::InputEnd => "trap-input-end",
    }
}
