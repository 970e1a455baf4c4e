//! What follows from the definitions. The functions do nothing: each has a law as its contract.
ghost use Rattle.report_words.specs.Laws.{NamedStatesHaveWords, WordsNameStates};

/// A state other than that each call returned is named by its word.
pub fn words_name_states()
    ensures { WordsNameStates }
{}

/// A word names no state but one whose word it is, and never that each call returned.
pub fn named_states_have_words()
    ensures { NamedStatesHaveWords }
{}
