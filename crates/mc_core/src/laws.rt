//! What follows from the definitions. The function does nothing: its contract is the law.

ghost use Rattle.mc_core.specs.Laws.{WordsFollowFromPairs};

/// A matrix is its shape and its set of pairs: the words follow from them.
pub fn words_follow_from_pairs()
    ensures { WordsFollowFromPairs }
{}
