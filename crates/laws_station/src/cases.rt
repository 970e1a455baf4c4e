//! What definitions do not hold of. The functions do nothing: each has laws as its contract.
ghost use Rattle.laws_station.specs.Cases as cases;

/// No task but that of `watch` is watched, and no other words are that command.
pub fn watch_is_alone()
    ensures tasks { cases.OtherTasksAreNotWatched }
    ensures commands { cases.OtherCommandsAreNotWatch }
{}

/// The words, the source, the tests or records, the justifications, the matrix and the mutants can
/// be refused, and no other status is that of a refusal.
pub fn refusals_are_six()
    ensures { cases.RefusalsAreSix }
{}

/// `selfload` and words that are no command ask for no file.
pub fn some_ask_for_none()
    ensures { cases.SomeAskForNone }
{}
